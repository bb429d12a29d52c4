// Sums of coefficients times T, exactly. A product fits 64 bits; a sum of 1,024 products does not, and is kept in two words.
ghost use Rattle.std.specs.Prelude.{◌≡◌, ◌<◌, ◌+ℤ◌, ◌-ℤ◌, length, ◌/◌};
ghost use Rattle.inverse.specs.Inverse.{T°};
ghost use Rattle.inverse.specs.Steps.{Small, AddReady, Added, Joined, SumReady, SumMade};

use circle::QuarterWave;
use std::ops::{Add, Sub};

// The whole number high * 2^30 + low.
#[derive(Clone, Copy)]
pub struct Sum {
    pub high: i64,
    pub low: i64,
}

impl Sum {
    // A product added: its floor over 2^30 to the high word, its rest to the low one.
    #[tactic(auto, using(crate::proofs::Adding::product_added))]
    fn add_product(self, x: i64, y: i64) -> Sum
        requires { AddReady self x y }
        ensures { Added self x y result }
    {
        let product = x * y;
        let floor = product >> 30;
        Sum {
            high: self.high + floor,
            low: self.low + (product - floor * 1073741824),
        }
    }
}

// (Beside `+` of costs and tallies: other fields, whose sums have other bounds.)
impl Add for Sum {
    type Output = Sum;

    ghost can_add = { λ a b. Small 512 a × Small 512 b };

    ghost add_gives = { Joined ◌+ℤ◌ };

    #[tactic(auto, using(crate::proofs::Adding::sums_joined))]
    fn add(self, rhs: Sum) -> Sum {
        Sum {
            high: self.high + rhs.high,
            low: self.low + rhs.low,
        }
    }
}

impl Sub for Sum {
    type Output = Sum;

    ghost can_sub = { λ a b. Small 512 a × Small 512 b };

    ghost sub_gives = { Joined ◌-ℤ◌ };

    #[tactic(auto, using(crate::proofs::Adding::differences_joined))]
    fn sub(self, rhs: Sum) -> Sum {
        Sum {
            high: self.high - rhs.high,
            low: self.low - rhs.low,
        }
    }
}

// T round the circle: K(4096 - p) = K(p), and K(2048 - j) = -K(j).
fn wave_on_circle(wave: &QuarterWave, place: usize) -> i64
    requires { place < 4096 }
    ensures { result ≡ T° place }
{
    let j = place.min(4096 - place);
    if j <= 1024 {
        return wave.at(j);
    }
    -wave.at(2048 - j)
}

// The sum of the coefficients first, first + 2, .. with T at their places, a product of each pair of coefficients. The place goes on by a
// step, round the circle.
pub fn every_other(wave: &QuarterWave, coefficients: &[i32], first: usize, turn: usize) -> Sum
    requires { SumReady (length coefficients.now / 2) first turn coefficients.now }
    ensures { SumMade (length coefficients.now / 2) first turn coefficients.now result }
{
    let mut sum = Sum { high: 0, low: 0 };
    let mut place = first * turn;
    for pair in coefficients.chunks_exact(2) {
        sum = sum.add_product(i64::from(pair[first]), wave_on_circle(wave, place));
        place = (place + 2 * turn) % 4096;
    }
    sum
}
