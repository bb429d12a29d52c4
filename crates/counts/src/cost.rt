// The products and sums of a transform, by its length.
ghost use Rattle.std.specs.Prelude.{◌≡◌, ◌+◌, ◌^◌, ◌<◌};

use std::ops::Add;

#[derive(Clone, Copy, Default)]
pub struct Cost {
    pub products: u64,
    pub sums: u64,
}

// Two costs together.
impl Add for Cost {
    type Output = Cost;

    ghost can_add = { λ a b. (a.products + b.products < 2 ^ 64) × (a.sums + b.sums < 2 ^ 64) };

    ghost add_gives = { λ a b r. (r.products ≡ a.products + b.products) × (r.sums ≡ a.sums + b.sums) };

    fn add(self, rhs: Cost) -> Cost {
        Cost {
            products: self.products + rhs.products,
            sums: self.sums + rhs.sums,
        }
    }
}
