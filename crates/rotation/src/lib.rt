#![tactic(auto)]

// The rotation (18), (19) of a cosine-DFT and a sine-DFT to the DCT, in the form of (20): three products and three sums for each pair k,
// n - k. Each whole expression is rounded once, and the largest size of a rest is kept as the roundings are made.
ghost use Rattle.std.specs.Prelude.{◌+◌, ◌*◌, ◌/◌, ◌^◌, ◌≤◌, ◌≡◌, nat_abs};
ghost use Rattle.lengths.specs.Block.{largest_sum};
ghost use Rattle.rotation.specs.Rotation.{PairRotated, MiddleRotated};
ghost use Rattle.rotation.specs.Rotation.{PairReady, PairPut, SingleReady, SinglePut, RotationReady, Rotated};

use circle::QuarterWave;
use counts::tally::Tally;
use whole::round;

// DCT(k) and DCT(n - k), and what is made for them.
#[derive(Clone, Copy)]
struct Pair {
    pub low: i64,
    pub high: i64,
    pub made: Tally,
}

// (20), from the cosine-DFT and the sine-DFT at k, c and s being the table's entries. (c + s and s - c are sums of table entries alone.)
fn rotate_pair(c: i64, s: i64, cosine: i64, sine: i64) -> Pair
    requires cosine_bound { (nat_abs cosine ≤ largest_sum + 128) × (nat_abs sine ≤ largest_sum + 128) }
    requires c_bound { (nat_abs c ≤ 2 ^ 30) × (nat_abs s ≤ 2 ^ 30) }
    ensures { PairRotated c s cosine sine result.low result.high result.made }
{
    let mut made = Tally::default();
    let s1 = cosine + sine;
    made.sums += 1;
    let m1 = s1 * c;
    made.products += 1;
    let m2 = sine * (c + s);
    made.products += 1;
    let m3 = cosine * (s - c);
    made.products += 1;
    let low = round(m1 - m2);
    made.sums += 1;
    let high = round(m1 + m3);
    made.sums += 1;
    made.largest_rest = low.rest.unsigned_abs().max(high.rest.unsigned_abs());
    Pair {
        low: low.value,
        high: high.value,
        made,
    }
}

// DCT(n / 2), and what is made for it.
#[derive(Clone, Copy)]
pub struct Middle {
    pub value: i64,
    pub made: Tally,
}

// T(512) C(n / 2), rounded.
pub fn rotate_middle(wave: &QuarterWave, cosine: i64) -> Middle
    requires { nat_abs cosine ≤ largest_sum + 128 }
    ensures { MiddleRotated cosine result.value result.made }
{
    let mut made = Tally::default();
    let product = wave.at(512) * cosine;
    made.products += 1;
    let rounded = round(product);
    made.largest_rest = rounded.rest.unsigned_abs();
    Middle {
        value: rounded.value,
        made,
    }
}

// DCT(k) and DCT(n - k) in their places, from the cosine-DFT at n and the sine-DFT at n + n / 2 + 1; j is the place of c in the table.
// (The lent w stays a parameter with the others: of a struct that holds one, callers do not learn what it then holds.)
fn put_pair(wave: &QuarterWave, w: &mut [i64], n: usize, j: usize, k: usize, spent: Tally) -> Tally
    requires { (j ≤ 1024) × PairReady n k w.old spent }
    ensures { PairPut j n k w.old w.new spent result }
{
    let c = wave.at(j);
    let s = wave.at(1024 - j);
    let pair = rotate_pair(c, s, w[n + k], w[n + n / 2 + 1 + k]);
    w[k] = pair.low;
    w[n - k] = pair.high;
    spent + pair.made
}

// DCT(0) and DCT(n / 2) in their places, which belong to no pair.
fn put_single(wave: &QuarterWave, w: &mut [i64], n: usize, spent: Tally) -> Tally
    requires { SingleReady n w.old spent }
    ensures { SinglePut n w.old w.new spent result }
{
    let middle = rotate_middle(wave, w[n + n / 2]);
    w[0] = w[n];
    w[n / 2] = middle.value;
    spent + middle.made
}

// The DCT of n samples at the front, from the cosine-DFT at n and the sine-DFT at n + n / 2 + 1. (w is the whole scratch, longer than n.)
pub fn rotate(wave: &QuarterWave, w: &mut [i64], n: usize, spent: Tally) -> Tally
    requires { RotationReady n w.old spent }
    ensures { Rotated n w.old w.new spent result }
{
    let step = 1024 / n;
    let mut tally = spent;
    for k in 1..n / 2 {
        tally = put_pair(wave, w, n, step * k, k, tally);
    }
    put_single(wave, w, n, tally)
}
