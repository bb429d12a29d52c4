#![tactic(auto)]

// Cosine-DFT, sine-DFT and DCT, over words that the caller lends. The three call each other in a cycle; each promises the definition of
// the crate ffct, values and counts together. A DFT finds its block in pairs at the front of the words, with a stride, leaves what stands
// below its result, and puts the result at `at`; a DCT works in its place. What a function needs for itself stands behind its result.
// (The lent words w, n and the places in w stay parameters: of a struct that holds w, callers do not learn what it then holds. The steps
// stand here, where a rank over n falls, and in `Twice`, where the compiler knows n; (12) and (15) differ in fold and join.)
mod doubling;
pub mod fold;
pub mod join;
pub mod short;

ghost use Rattle.ffct.specs.Transforms.{cosine_dft, sine_dft};
ghost use Rattle.transforms.specs.Steps.{DftReady, DftDone, DctReady, DctDone};

use circle::QuarterWave;
use counts::tally::Tally;
use fold::{put_folded_differences, put_folded_sums};
use join::{join_cosine, join_sine};
use rotation::rotate;
use short::{cosine_short, dct_short, sine_short};

// (12): the cosine-DFT of the n samples in pairs at the front, n / 2 + 1 words at `at`.
#[cycle(cosine_dft_dct_sine_dft)]
pub fn cosine_dft(
    wave: &QuarterWave,
    w: &mut [i64],
    n: usize,
    stride: usize,
    at: usize,
    spent: Tally,
) -> Tally
    requires { DftReady cosine_dft n stride at w.old spent }
    ensures { DftDone cosine_dft n stride at w.old w.new spent result }
{
    if n <= 32 {
        return cosine_short(wave, w, n, stride, at, spent);
    }
    let even = cosine_dft(wave, w, n / 2, 2 * stride, at, spent);
    let b = at + n / 2 + 1;
    let folded = put_folded_sums(w, n, stride, b, even);
    let odd = dct(wave, &mut w[b..], n / 4, folded);
    join_cosine(w, n, at, odd)
}

// (15): the sine-DFT of the n samples in pairs at the front, n / 2 + 1 words at `at`.
#[cycle(cosine_dft_dct_sine_dft)]
pub fn sine_dft(
    wave: &QuarterWave,
    w: &mut [i64],
    n: usize,
    stride: usize,
    at: usize,
    spent: Tally,
) -> Tally
    requires { DftReady sine_dft n stride at w.old spent }
    ensures { DftDone sine_dft n stride at w.old w.new spent result }
{
    if n <= 32 {
        return sine_short(wave, w, n, stride, at, spent);
    }
    let even = sine_dft(wave, w, n / 2, 2 * stride, at, spent);
    let b = at + n / 2 + 1;
    let folded = put_folded_differences(w, n, stride, b, even);
    let odd = dct(wave, &mut w[b..], n / 4, folded);
    join_sine(w, n, at, odd)
}

// (18), (19): the DCT of the n samples at the front, in their place. As they stand they are the block rearranged by (16), in pairs.
#[cycle(cosine_dft_dct_sine_dft)]
pub fn dct(wave: &QuarterWave, w: &mut [i64], n: usize, spent: Tally) -> Tally
    requires { DctReady n w.old spent }
    ensures { DctDone n w.old w.new spent result }
{
    if n <= 32 {
        return dct_short(wave, w, n, spent);
    }
    let cosine = cosine_dft(wave, w, n, 1, n, spent);
    let sine = sine_dft(wave, w, n, 1, n + n / 2 + 1, cosine);
    rotate(wave, w, n, sine)
}
