#![tactic(auto)]

// The transforms of an accepted block, from 32-bit samples to 32-bit coefficients, over words that are all cleared at the end. (They
// and the places in them stay parameters: of a struct that holds the words, callers do not learn what they then hold.)
pub mod buffers;

ghost use Rattle.std.specs.Prelude.{◌+◌, ◌/◌, ◌≤◌, length};
ghost use Rattle.words.specs.Words.{word};
ghost use Rattle.lengths.specs.Block.{level};
ghost use Rattle.ffct.specs.Transforms.{dct as dct_of, spectrum as spectrum_of, pair as pair_of};
ghost use Rattle.blocks.specs.Blocks.{Workable, DftsReady, DftsMade, SpectrumMade, CosineMade, PairMade};

use buffers::{join_parts, load, load_pairs, store};
use circle::QuarterWave;
use counts::tally::Tally;
use transforms::{cosine_dft, dct, sine_dft};

// The cosine-DFT of a block at `at` and its sine-DFT behind it.
fn both_dfts(wave: &QuarterWave, block: &[i32], w: &mut [i64], at: usize, spent: Tally) -> Tally
    requires { DftsReady (length block.now) (word block.now) at w.old spent }
    ensures { DftsMade (length block.now) (word block.now) at w.old w.new spent result }
{
    let n = block.len();
    load_pairs(block, w);
    let cosine = cosine_dft(wave, w, n, 1, at, spent);
    sine_dft(wave, w, n, 1, at + n / 2 + 1, cosine)
}

pub fn spectrum_of(block: &[i32], cosine: &mut [i32], sine: &mut [i32], w: &mut [i64]) -> Tally
    requires { Workable (length block.now) block.now w.old
        × (length block.now / 2 + 1 ≤ length cosine.old) × (length block.now / 2 + 1 ≤ length sine.old) }
    ensures { let n = length block.now in
        SpectrumMade n (spectrum_of (level n) (word block.now)) cosine.old sine.old w.old
        cosine.new sine.new w.new result }
{
    let n = block.len();
    let m = n / 2 + 1;
    let wave = QuarterWave::new();
    let spent = both_dfts(&wave, block, w, n, Tally::default());
    store(&w[n..n + m], cosine);
    store(&w[n + m..n + 2 * m], sine);
    w.fill(0);
    spent
}

pub fn cosine_of(block: &[i32], coefficients: &mut [i32], w: &mut [i64]) -> Tally
    requires { Workable (length block.now) block.now w.old × (length block.now ≤ length coefficients.old) }
    ensures { let n = length block.now in
        CosineMade n (dct_of (level n) (word block.now)) coefficients.old w.old
        coefficients.new w.new result }
{
    let n = block.len();
    let wave = QuarterWave::new();
    load(block, w);
    let spent = dct(&wave, w, n, Tally::default());
    store(&w[..n], coefficients);
    w.fill(0);
    spent
}

// The real part is the cosine-DFT of a and the sine-DFT of b, the imaginary part the cosine-DFT of b less the sine-DFT of a.
pub fn pair_of(
    a: &[i32],
    b: &[i32],
    real: &mut [i32],
    imaginary: &mut [i32],
    w: &mut [i64],
) -> Tally
    requires { Workable (length a.now) a.now w.old × Workable (length a.now) b.now w.old
        × (length a.now ≤ length real.old) × (length a.now ≤ length imaginary.old) }
    ensures { let n = length a.now in
        PairMade n (pair_of (level n) (word a.now) (word b.now)) real.old imaginary.old
        w.old real.new imaginary.new w.new result }
{
    let n = a.len();
    let m = n / 2 + 1;
    let wave = QuarterWave::new();
    let of_a = both_dfts(&wave, a, w, n, Tally::default());
    let of_b = both_dfts(&wave, &b[..n], w, n + 2 * m, of_a);
    let spent = join_parts(&w[n..n + 4 * m], &mut real[..n], &mut imaginary[..n], of_b);
    w.fill(0);
    spent
}
