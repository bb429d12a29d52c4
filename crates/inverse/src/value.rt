// The values of a block, two at a time: those of i and n - 1 - i differ in the sign of the coefficients at odd k.
ghost use Rattle.std.specs.Prelude.{◌≡◌, ◌≤◌, length};
ghost use Rattle.words.specs.Words.{word, Written};
ghost use Rattle.inverse.specs.Inverse.{inverse_dct};
ghost use Rattle.inverse.specs.Steps.{held, Stored, ValueReady, value_of, TwoReady, TwoMade};

use crate::sum::{Sum, every_other};
use circle::QuarterWave;

// (2 v - c * 2^30) / (n * 2^30), rounded to the nearest, c being coefficient 0 and v the sum with all coefficients once: the floor of the
// quotient by 2^30, then the half of n and the floor of the quotient by n.
#[tactic(auto, using(crate::proofs::Values::value_rounded))]
fn value(sum: Sum, c: i64, n: usize) -> i32
    requires { ValueReady sum c n }
    ensures { result ≡ value_of (held sum) c n }
{
    let quotient = 2 * sum.high - c + (sum.low >> 29);
    ((quotient + (n / 2) as i64) >> n.trailing_zeros()) as i32
}

// The values of i and n - 1 - i.
#[derive(Clone, Copy)]
pub struct Two {
    pub near: i32,
    pub far: i32,
}

fn two_values(wave: &QuarterWave, coefficients: &[i32], i: usize) -> Two
    requires { TwoReady (length coefficients.now) i coefficients.now }
    ensures { TwoMade (length coefficients.now) i (word coefficients.now) result.near result.far }
{
    let n = coefficients.len();
    let turn = (2 * i + 1) * (1024 / n);
    let even = every_other(wave, coefficients, 0, turn);
    let odd = every_other(wave, coefficients, 1, turn);
    let c = i64::from(coefficients[0]);
    Two {
        near: value(even + odd, c, n),
        far: value(even - odd, c, n),
    }
}

// The values of a block at the front of a buffer, from all its coefficients.
pub fn put_values(coefficients: &[i32], values: &mut [i32])
    requires { Stored (length coefficients.now) coefficients.now × (length coefficients.now ≤ length values.old) }
    ensures { let n = length coefficients.now in
        Written 0 n (inverse_dct n (word coefficients.now)) values.old values.new }
{
    let n = coefficients.len();
    if n == 1 {
        values[0] = coefficients[0];
        return;
    }
    let wave = QuarterWave::new();
    // By places, which run from both ends.
    for i in 0..n / 2 {
        let two = two_values(&wave, coefficients, i);
        values[i] = two.near;
        values[n - 1 - i] = two.far;
    }
}
