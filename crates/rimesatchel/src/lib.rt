#![tactic(auto)]
// The face for C, Rust and Python: each function takes octets apart, calls the proved function and puts the answer back.
pub mod batches; // batches.rt: many records of a log in a call
pub mod boxes; // boxes.rt: opening and sending, opening and receiving
pub mod contents; // contents.rt: what a log holds
pub mod facts; // facts.rt: a format's facts
pub mod frames; // frames.rt: frames of an AES3 cable
pub mod kept; // kept.rt: writing a log, and the list of one
pub mod logs; // logs.rt: a log's header and records
pub mod many; // many.rt: many cells sent into a log in a call
pub mod network; // network.rt: data units for the other network, out and back
pub mod plans; // plans.rt: sharing channels out over circuits
pub mod salvages; // salvages.rt: the salvage of a log
pub mod sheets; // sheets.rt: one sheet over many logs
mod states; // states.rt: a state as numbers of 64 bits
pub mod statuses; // statuses.rt: a step of channel status, and the check character
pub mod taken_figures; // taken_figures.rt: the figures of a log in pieces
pub mod taken_lists; // taken_lists.rt: the list of a log in pieces
pub mod taken_salvages; // taken_salvages.rt: the salvage of a log in pieces
pub mod taken_searches; // taken_searches.rt: whether a log in pieces holds anything
pub mod watches; // watches.rt: the watch over second numbers
