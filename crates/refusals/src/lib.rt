#![tactic(auto)]

// What a call tests before it writes anything, and what it answers: the refusals of documents 01 and 02; the lengths of what is lent; the
// range of samples; and the tests of a call on recordings, and on a stored block, in their order.
pub mod call;
pub mod length;
pub mod range;
pub mod refusal;
pub mod stored;
