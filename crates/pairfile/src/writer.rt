// The writer of the pair file: our own pair files (document 02, (ii)). (File and place stay two parameters: of a struct that holds the
// file, callers do not learn what it then holds.)
ghost use mathlib.Core.List.{flat_map};
ghost use Rattle.std.specs.Prelude.{◌≡◌, ◌+◌, ◌*◌, ◌≤◌, length};
ghost use Rattle.words.specs.Put.{Put};
ghost use Rattle.little_endian.specs.Numbers.{signed_bytes};
ghost use Rattle.pairfile.specs.OwnFile.{pair_file};
ghost use Rattle.pairfile.specs.Promises.{WritePromise};

use crate::count::bad_count;
use lengths::Length;
use little_endian::{put_signed, put_unsigned};
use refusals::range::first_out;
use refusals::refusal::Refusal;

// The samples of a recording, put from byte `at` on; the answer is the place behind them.
#[tactic(auto, using(crate::proofs::Samples::samples_put))]
fn put_samples(recording: &[i32], file: &mut [u8], at: usize) -> usize
    requires { at + 4 * length recording.now ≤ length file.old }
    ensures { Put file.old at (flat_map signed_bytes recording.now) result file.new }
{
    let mut next = at;
    for x in recording {
        next = put_signed(*x, file, next);
    }
    next
}

// The whole file, put from byte 0 on; the answer is the number of its bytes.
#[tactic(auto, using(crate::proofs::OwnFiles::own_file, lengths::proofs::ElevenLengths::length_le))]
fn put_file(a: &[i32], b: &[i32], block: Length, file: &mut [u8]) -> usize
    requires { (length a.now ≤ 4096) × (length b.now ≡ length a.now) × (8 + 8 * length a.now ≤ length file.old) }
    ensures { Put file.old 0 (pair_file a.now b.now block.samples) result file.new }
{
    let of_length = put_unsigned(a.len() as u32, file, 0);
    let of_a = put_unsigned(block.samples as u32, file, of_length);
    let of_b = put_samples(a, file, of_a);
    put_samples(b, file, of_b)
}

// The pair file of the recordings a and b, in blocks of `length`, put at the front of a lent buffer.
#[tactic(auto, using(crate::proofs::WriteVerdicts::write_tests), unfolding(crate::specs::OwnFile::write_verdict))]
pub fn write(a: &[i32], b: &[i32], length: usize, file: &mut [u8]) -> Result<usize, Refusal>
    ensures { WritePromise a.now b.now length file.old file.new result }
{
    let m = a.len();
    if bad_count(m) {
        return Err(Refusal::BadCount);
    }
    if b.len() != m {
        return Err(Refusal::RecordingsDiffer);
    }
    let length = Length::try_from(length)?;
    if let Some(place) = first_out(a, 0, m).place {
        return Err(Refusal::OutOfRange(place));
    }
    if let Some(place) = first_out(b, 0, m).place {
        return Err(Refusal::OutOfRange(place));
    }
    if file.len() < 8 + 8 * m {
        return Err(Refusal::ResultTooShort);
    }
    Ok(put_file(a, b, length, file))
}
