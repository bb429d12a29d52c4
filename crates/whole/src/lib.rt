#![tactic(auto)]

// Whole numbers: the rounding of documents 01 and 02. The laws over whole numbers that the other crates cite are in proofs/.
ghost use Rattle.std.specs.Prelude.{◌≡◌, ◌^◌, ◌≤◌, nat_abs};
ghost use Rattle.whole.specs.Round.{round as rounded, rest as rest_of};

// A rounded number and its rest.
#[derive(Clone, Copy)]
pub struct Rounded {
    pub value: i64,
    pub rest: i64,
}

// The nearest multiple of 2^30, a tie going to the larger, divided by 2^30, negative numbers too: the floor division by 2^30 of v + 2^29.
// (A shift to the right copies the sign, so it is that division.) The rest is v less 2^30 times the rounded number.
pub fn round(v: i64) -> Rounded
    requires { nat_abs v ≤ 2 ^ 62 }
    ensures { (result.value ≡ rounded v) × (result.rest ≡ rest_of v) }
{
    let value = (v + 536870912) >> 30;
    Rounded {
        value,
        rest: v - 1073741824 * value,
    }
}
