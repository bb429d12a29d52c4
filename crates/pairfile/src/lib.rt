#![tactic(auto)]

// The pair file: its reader and its writer. Neither asks anything of its input: each tests its refusals in their order, before anything is
// written, and promises its whole outcome (specs/Promises.antt).
mod count;
pub mod reader;
pub mod writer;
