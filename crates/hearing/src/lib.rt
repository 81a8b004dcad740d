#![tactic(auto)]
// Records of a log, many in a call.
pub mod judging; // judging.rt: what is said to each
pub mod receiving; // receiving.rt: unpacked one behind the other
mod states; // states.rt: checks 1 to 4
