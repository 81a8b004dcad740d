#![tactic(auto)]
// Runs, octets, finite tests and how proofs end: definitions and laws that no rule of document 01 is in. It has no function: other
// crates' specs/ and proofs/ use it.
