#![tactic(auto)]
// What the papers say of the calls that people link, on pages: each sentence beside its theorem. It has no function, and no crate
// needs it.
