// The tests of a call on recordings, which every such call makes before it writes anything.
ghost use Rattle.std.specs.Prelude.{◌≤◌, length as List·length};
ghost use Rattle.words.specs.Words.{word};
ghost use Rattle.refusals.specs.Calls.{tests, one_recording};
ghost use Rattle.refusals.specs.Tests.{Tells};

use crate::length::{reaches_beyond, scratch_words};
use crate::range::first_out;
use crate::refusal::Refusal;
use lengths::Length;

// What a call on recordings asks for: the block of `length` samples from `start` on, for at most `allowance` products.
#[derive(Clone, Copy)]
pub struct Request {
    pub start: usize,
    pub length: usize,
    pub allowance: u64,
}

// The tests 1 to 6 in their order, 6 on one recording. Of several recordings, and of several result buffers, the shortest length is given.
#[tactic(auto, using(crate::proofs::Conditions::tested), unfolding(crate::specs::Calls::tests))]
pub fn test(
    recording: &[i32],
    shortest: usize,
    request: Request,
    room: usize,
    yields: usize,
    scratch: usize,
    products: u64,
) -> Result<(), Refusal>
    requires { shortest ≤ List·length recording.now }
    ensures { Tells (tests (one_recording (word recording.now) shortest
        request.start request.length request.allowance
        room yields scratch products)) result }
{
    Length::try_from(request.length)?;
    if reaches_beyond(request.start, request.length, shortest) {
        return Err(Refusal::InputTooShort);
    }
    if room < yields {
        return Err(Refusal::ResultTooShort);
    }
    if scratch < scratch_words(request.length) {
        return Err(Refusal::ScratchTooShort);
    }
    if request.allowance < products {
        return Err(Refusal::AllowanceTooSmall);
    }
    match first_out(recording, request.start, request.length).place {
        Some(place) => Err(Refusal::OutOfRange(place)),
        None => Ok(()),
    }
}
