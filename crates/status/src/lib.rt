#![tactic(auto)]
// Channel status (document 01): a block under assembly, and its check character (Appendix 2 of source document 002).
// Assumes nothing.
pub mod assembler;
pub mod check;
pub mod run;
pub mod step;
