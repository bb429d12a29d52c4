#![tactic(auto)]

// The tally of a call, and the counts of a length, by the recursions (21) to (26), level by level.
pub mod cost;
pub mod tally;

ghost use Rattle.std.specs.Prelude.{◌≡◌, ◌+◌, ◌-◌, ◌*◌, ◌/◌, ◌^◌, ◌≤◌};
ghost use Rattle.lengths.specs.Block.{level};
ghost use Rattle.counts.specs.Counts.{LevelCosts, SixCounts};

use cost::Cost;
use lengths::Length;

// The counts of one level: of the cosine-DFT and the sine-DFT of so many samples, and of the DCT of half as many.
#[derive(Clone, Copy)]
pub struct Level {
    pub samples: u64,
    pub cosine: Cost,
    pub sine: Cost,
    pub dct: Cost,
    pub ghost costs: { LevelCosts samples cosine sine dct },
}

// The six counts that a query gives.
#[derive(Clone, Copy, Default)]
pub struct Counts {
    pub dct: Cost,
    pub spectrum: Cost,
    pub pair: Cost,
}

impl Level {
    // (26): the cosine-DFT and the sine-DFT of two samples, and the DCT of one.
    fn first() -> Level
        ensures { result.samples ≡ 2 }
    {
        Level {
            samples: 2,
            cosine: Cost {
                sums: 2,
                ..Cost::default()
            },
            sine: Cost::default(),
            dct: Cost::default(),
        }
    }

    // (23): the DCT of as many samples.
    #[tactic(auto, using(crate::proofs::Costs::few_counts))]
    fn dct_counts(self) -> Cost
        ensures { (result.products ≡ self.cosine.products + self.sine.products + (3 * (self.samples / 2 - 1) + 1))
            × (result.sums ≡ self.cosine.sums + self.sine.sums + 3 * (self.samples / 2 - 1)) }
    {
        let pairs = self.samples / 2 - 1;
        let rotation = Cost {
            products: 3 * pairs + 1,
            sums: 3 * pairs,
        };
        self.cosine + self.sine + rotation
    }

    // (24) and (25): the level of twice as many samples.
    #[tactic(auto, using(crate::proofs::Costs::few_counts))]
    fn next(self) -> Level
        requires { self.samples ≤ 512 }
        ensures { result.samples ≡ 2 * self.samples }
    {
        let n = self.samples;
        let of_cosine = Cost {
            sums: n / 2 + n,
            ..Cost::default()
        };
        let of_sine = Cost {
            sums: n / 2 + (n - 2),
            ..Cost::default()
        };
        Level {
            samples: 2 * n,
            cosine: self.cosine + self.dct + of_cosine,
            sine: self.sine + self.dct + of_sine,
            dct: self.dct_counts(),
        }
    }

    // The level `top`, that of 2^top samples.
    fn at(top: u32) -> Level
        requires { (1 ≤ top) × (top ≤ 10) }
        ensures { result.samples ≡ 2 ^ top }
    {
        let mut level = Level::first();
        for l in 1..top {
            level = level.next();
        }
        level
    }

    // (23), (21) and (22): all six counts of as many samples.
    #[tactic(auto, using(crate::proofs::Costs::few_counts))]
    fn six_counts(self) -> Counts
        ensures { SixCounts (level self.samples) result }
    {
        let joining = Cost {
            sums: 2 * (self.samples - 2),
            ..Cost::default()
        };
        let spectrum = self.cosine + self.sine;
        Counts {
            dct: self.dct_counts(),
            spectrum,
            pair: spectrum + spectrum + joining,
        }
    }
}

// All six counts of a length. One sample costs nothing.
pub fn counts_of(length: Length) -> Counts
    ensures { SixCounts (level length.samples) result }
{
    let n = length.samples;
    if n == 1 {
        return Counts::default();
    }
    Level::at(n.trailing_zeros()).six_counts()
}
