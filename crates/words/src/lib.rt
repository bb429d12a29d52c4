#![tactic(auto)]

// Slices of words and of bytes: what a loop or a call has written to one. The crate has definitions and laws, and no code.
