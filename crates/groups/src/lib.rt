// One group: its record, the orders that it obeys, what stands against an order, and what is due to it.
//
// An accepted order leaves exactly the record that the rules give; an objection is the first ground that stands, and
// asking for it alters nothing; what is due goes by the direct order, else by the enabled plans and the clock.
// Enabled plans that share no minute stay so under every order that nothing stands against, and it does not matter in
// which order such plans stand.
#![tactic(auto)]

pub mod due;
pub mod group;
pub mod obeying;
pub mod objection;
pub mod plans;
