// What has been made so far: products and sums, and the largest size of a rest among the roundings. Each step of a transform takes the
// tally and gives it back with what it made.
ghost use Rattle.std.specs.Prelude.{◌+◌, ◌^◌, ◌<◌};
ghost use Rattle.counts.specs.Tally.{Tallied};

use std::ops::Add;

#[derive(Clone, Copy, Default)]
pub struct Tally {
    pub products: u64,
    pub sums: u64,
    pub largest_rest: u64,
}

// What was made so far, and what was made then.
impl Add for Tally {
    type Output = Tally;

    ghost can_add = { λ a b. (a.products + b.products < 2 ^ 64) × (a.sums + b.sums < 2 ^ 64) };

    ghost add_gives = { λ a b r. Tallied b.products b.sums b.largest_rest a r };

    fn add(self, rhs: Tally) -> Tally {
        Tally {
            products: self.products + rhs.products,
            sums: self.sums + rhs.sums,
            largest_rest: self.largest_rest.max(rhs.largest_rest),
        }
    }
}
