// A mark for each block, with the owner's own figures (document 02, (iii)).
ghost use Rattle.std.specs.Prelude.{◌≡◌, ◌+◌, ◌/◌, ◌≤◌, ◌&&◌, pos, length};
ghost use Rattle.std.specs.List.{list_all};
ghost use Rattle.words.specs.Words.{word};
ghost use Rattle.refusals.specs.Refusals.{at_most, block};
ghost use Rattle.spectra.specs.Marks.{mark, bad_figures};
ghost use Rattle.spectra.specs.Promises.{buffers, MarkPromise};

use crate::{spectrum, test_spectrum};
use counts::tally::Tally;
use refusals::call::Request;
use refusals::refusal::Refusal;

#[derive(Clone, Copy)]
pub enum Mark {
    Flat,
    Clipped,
    Plain,
}

// The mark of a block, with the counts that were spent and the largest rest.
#[derive(Clone, Copy)]
pub struct Marked {
    pub mark: Mark,
    pub spent: Tally,
}

// ---- the figures and the rules

// Whether the flat limit is negative or the clip level is outside 1 to 1,000,000.
fn bad_figures(flat_limit: i32, clip_level: i32) -> bool
    ensures { result ≡ bad_figures flat_limit clip_level }
{
    flat_limit < 0 || clip_level < 1 || 1000000 < clip_level
}

// Whether all words are at most limit in size.
fn all_within(limit: u32, words: &[i32]) -> bool
    ensures { result ≡ list_all (at_most limit) words.now }
{
    words.iter().all(|x| x.unsigned_abs() <= limit)
}

// Whether all of these coefficients, those from k = 1, are at most the flat limit in size.
fn is_flat(limit: u32, cosine: &[i32], sine: &[i32]) -> bool
    ensures { result ≡ (list_all (at_most limit) cosine.now && list_all (at_most limit) sine.now) }
{
    all_within(limit, cosine) && all_within(limit, sine)
}

// The mark of a block, from its coefficients. Flat is looked at first. A sample is at least the clip level in size where not all are at
// most the number before it.
#[tactic(auto, using(crate::proofs::MarkRules::mark_is))]
fn mark_by(
    flat_limit: u32,
    clip_level: u32,
    recording: &[i32],
    request: Request,
    cosine: &[i32],
    sine: &[i32],
) -> Mark
    requires { (1 ≤ clip_level) × (request.start + request.length ≤ length recording.now)
        × (request.length / 2 + 1 ≤ length cosine.now) × (request.length / 2 + 1 ≤ length sine.now) }
    ensures { result ≡ mark (pos flat_limit) (pos clip_level) request.length
        (block recording.now request.start) (word cosine.now) (word sine.now) }
{
    let (start, end) = (request.start, request.start + request.length);
    let count = request.length / 2 + 1;
    if is_flat(flat_limit, &cosine[1..count], &sine[1..count]) {
        Mark::Flat
    } else if !all_within(clip_level - 1, &recording[start..end]) {
        Mark::Clipped
    } else {
        Mark::Plain
    }
}

// ---- the call

// Spectrum, and the mark of its block. Figures that are refused are refused behind all that Spectrum tests.
pub fn mark_block(
    recording: &[i32],
    request: Request,
    flat_limit: i32,
    clip_level: i32,
    cosine: &mut [i32],
    sine: &mut [i32],
    scratch: &mut [i64],
) -> Result<Marked, Refusal>
    ensures { MarkPromise recording.now request.start request.length request.allowance flat_limit clip_level
        (buffers cosine.old sine.old scratch.old)
        (buffers cosine.new sine.new scratch.new) result }
{
    if bad_figures(flat_limit, clip_level) {
        test_spectrum(recording, request, cosine, sine, scratch)?;
        return Err(Refusal::BadFigures);
    }
    let spent = spectrum(recording, request, cosine, sine, scratch)?;
    let (limit, level) = (flat_limit.unsigned_abs(), clip_level.unsigned_abs());
    let mark = mark_by(limit, level, recording, request, cosine, sine);
    Ok(Marked { mark, spent })
}
