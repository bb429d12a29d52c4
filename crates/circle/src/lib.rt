#![tactic(auto)]

// The stored quarter wave T of document 01, in units of 2^-30: entry j is the cosine at place j of the circle's 4,096.
mod table;

ghost use Rattle.std.specs.Prelude.{◌≡◌, ◌≤◌};
ghost use Rattle.circle.specs.Circle.{T, IsQuarterWave};

use crate::table::QUARTER_WAVE;

// The whole quarter wave: made once by a call and lent to what reads it, since a constant array is built anew wherever it is indexed.
#[derive(Clone, Copy)]
pub struct QuarterWave {
    pub entries: [i32; 1025],
    pub ghost is_quarter_wave: { IsQuarterWave entries },
}

impl QuarterWave {
    pub fn new() -> QuarterWave {
        QuarterWave {
            entries: QUARTER_WAVE,
        }
    }

    // T(j). (No entry is negative; widened as an unsigned number it is read quicker.)
    pub fn at(&self, j: usize) -> i64
        requires { j ≤ 1024 }
        ensures { result ≡ T j }
    {
        self.entries[j] as u32 as i64
    }
}
