#![tactic(auto)]

// The transforms.
