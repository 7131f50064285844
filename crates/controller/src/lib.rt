// The controller of a site: commissioning, service, and the run of a list of calls.
//
// Each call leaves exactly the state, answer, log memory and faces that the rules give, for every input, and a refused
// call alters nothing. After any list of calls each attached sign shows what is due to its group, over every rack.
#![tactic(auto)]

pub mod call;
pub mod calls;
pub mod commissioning;
pub mod common;
pub mod due;
pub mod faces;
pub mod faults;
pub mod group;
pub mod obeying;
pub mod run;
pub mod service;
pub mod site;
pub mod status;
