// Whether a command may be taken: its check word, and the range of each of its values.
//
// Both are judged for every input: nothing is fit that the rules refuse, and nothing is refused that they accept.
#![tactic(auto)]

pub mod judging;
pub mod soundness;
