#![tactic(auto)]
// The demands as theorems over the boxes' definitions and contracts, and the paper's cases that are marked P. It has no function.
