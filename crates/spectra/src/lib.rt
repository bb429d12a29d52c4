#![tactic(auto)]

// Spectrum, Cosine, Pair and the count query, as a buyer calls them; marks of blocks are in a module of their own. No call asks anything of
// its input: each tests its refusals in their order, before anything is written, and promises its whole outcome (specs/Promises.antt).
// The lent buffers stay parameters in a row: of a struct that holds them, callers do not learn what they then hold.
pub mod marks;

ghost use Rattle.refusals.specs.Calls.{tests};
ghost use Rattle.refusals.specs.Tests.{Tells};
ghost use Rattle.spectra.specs.Promises.{buffers, pair_buffers, spectrum_call, cosine_call, pair_call};
ghost use Rattle.spectra.specs.Promises.{SpectrumPromise, CosinePromise, PairPromise, CountsPromise};

use blocks::{cosine_of, pair_of, spectrum_of};
use counts::tally::Tally;
use counts::{Counts, counts_of};
use lengths::Length;
use refusals::call::{Request, test};
use refusals::length::scratch_words;
use refusals::range::first_out;
use refusals::refusal::Refusal;

// ---- the tests. The counts come first: they are refused where 1 is

// The tests of Spectrum.
#[tactic(auto, using(crate::proofs::Tested::uncounted, crate::proofs::Tested::spectrum_tested))]
fn test_spectrum(
    recording: &[i32],
    request: Request,
    cosine: &[i32],
    sine: &[i32],
    scratch: &[i64],
) -> Result<(), Refusal>
    ensures { Tells (tests (spectrum_call recording.now request.start request.length request.allowance
        (buffers cosine.now sine.now scratch.now))) result }
{
    let counts = count_query(request.length)?;
    test(
        recording,
        recording.len(),
        request,
        cosine.len().min(sine.len()),
        request.length / 2 + 1,
        scratch.len(),
        counts.spectrum.products,
    )
}

// The tests of Cosine.
#[tactic(auto, using(crate::proofs::Tested::uncounted, crate::proofs::Tested::cosine_tested))]
fn test_cosine(
    recording: &[i32],
    request: Request,
    coefficients: &[i32],
    scratch: &[i64],
) -> Result<(), Refusal>
    ensures { Tells (tests (cosine_call recording.now request.start request.length request.allowance
        coefficients.now scratch.now)) result }
{
    let counts = count_query(request.length)?;
    test(
        recording,
        recording.len(),
        request,
        coefficients.len(),
        request.length,
        scratch.len(),
        counts.dct.products,
    )
}

// The tests of Pair: those on a, and then 6 on b.
#[tactic(auto, using(crate::proofs::Tested::pair_tests))]
fn test_pair(
    a: &[i32],
    b: &[i32],
    request: Request,
    real: &[i32],
    imaginary: &[i32],
    scratch: &[i64],
) -> Result<(), Refusal>
    ensures { Tells (tests (pair_call a.now b.now request.start request.length request.allowance
        (pair_buffers real.now imaginary.now scratch.now))) result }
{
    let counts = count_query(request.length)?;
    test(
        a,
        a.len().min(b.len()),
        request,
        real.len().min(imaginary.len()),
        request.length,
        scratch.len(),
        counts.pair.products,
    )?;
    match first_out(b, request.start, request.length).place {
        Some(place) => Err(Refusal::OutOfRange(place)),
        None => Ok(()),
    }
}

// ---- the calls

// Spectrum: the cosine-DFT and the sine-DFT of the block of `length` samples from `start` on, k = 0 .. length / 2. It answers the counts
// that were spent and the largest rest, as Cosine and Pair do.
#[tactic(auto, using(crate::proofs::Accepted::lends))]
pub fn spectrum(
    recording: &[i32],
    request: Request,
    cosine: &mut [i32],
    sine: &mut [i32],
    scratch: &mut [i64],
) -> Result<Tally, Refusal>
    ensures { SpectrumPromise recording.now request.start request.length request.allowance
        (buffers cosine.old sine.old scratch.old)
        (buffers cosine.new sine.new scratch.new) result }
{
    test_spectrum(recording, request, cosine, sine, scratch)?;
    let (start, end) = (request.start, request.start + request.length);
    let m = scratch_words(request.length);
    Ok(spectrum_of(&recording[start..end], cosine, sine, &mut scratch[..m]))
}

// Cosine: the DCT-II of the block, k = 0 .. length - 1.
#[tactic(auto, using(crate::proofs::Accepted::lends))]
pub fn cosine(
    recording: &[i32],
    request: Request,
    coefficients: &mut [i32],
    scratch: &mut [i64],
) -> Result<Tally, Refusal>
    ensures { CosinePromise recording.now request.start request.length request.allowance
        coefficients.old scratch.old
        coefficients.new scratch.new result }
{
    test_cosine(recording, request, coefficients, scratch)?;
    let (start, end) = (request.start, request.start + request.length);
    let m = scratch_words(request.length);
    Ok(cosine_of(&recording[start..end], coefficients, &mut scratch[..m]))
}

// Pair: the complex DFT of the blocks of two recordings, a + i b, k = 0 .. length - 1.
#[tactic(auto, using(crate::proofs::Accepted::lends))]
pub fn pair(
    a: &[i32],
    b: &[i32],
    request: Request,
    real: &mut [i32],
    imaginary: &mut [i32],
    scratch: &mut [i64],
) -> Result<Tally, Refusal>
    ensures { PairPromise a.now b.now request.start request.length request.allowance
        (pair_buffers real.old imaginary.old scratch.old)
        (pair_buffers real.new imaginary.new scratch.new) result }
{
    test_pair(a, b, request, real, imaginary, scratch)?;
    let (start, end) = (request.start, request.start + request.length);
    let m = scratch_words(request.length);
    Ok(pair_of(
        &a[start..end],
        &b[start..end],
        real,
        imaginary,
        &mut scratch[..m],
    ))
}

// All six counts of a length.
#[tactic(auto, using(counts::proofs::Costs::six_published))]
pub fn count_query(length: usize) -> Result<Counts, Refusal>
    ensures { CountsPromise length result }
{
    Ok(counts_of(Length::try_from(length)?))
}
