#![tactic(auto)]
// One walk through a log: its whole records, where the walk stops, and what a fresh receiver with room answers and hands out for
// each. Definitions and laws alone: it has no function.
