#![tactic(auto)]
// Worked cases of the papers' sentences on channel status, the list and the requests, computed from the definitions; and that a changed
// bit changes the check character. It has no function.
