// The joins: the coefficients of a cosine- or sine-DFT of n samples at `at`, from those of its even samples, E, at the same place and
// those of the DCT, D, behind the result. A sum with a term that is zero for every block is not made. (The loops go by index: what they
// read and write stands in one w, from both ends.)
ghost use Rattle.std.specs.Prelude.{◌≡◌, ◌-◌, ◌/◌, pos};
ghost use Rattle.transforms.specs.Steps.{even_at, cosine_join, sine_join, JoinReady, Joined};

use counts::tally::Tally;

// (12): E(k) + D(k) at k and E(k) - D(k) at n / 2 - k. By (6) the DCT has no part in the coefficient n / 4.
pub fn join_cosine(w: &mut [i64], n: usize, at: usize, spent: Tally) -> Tally
    requires { JoinReady (n / 2) n at w.old spent }
    ensures { Joined cosine_join (n / 2) n at w.old w.new spent result }
{
    let h = n / 2;
    let b = at + h + 1;
    let mut sums = spent.sums;
    for k in 0..n / 4 {
        let e = w[at + k];
        let d = w[b + k];
        w[at + k] = e + d;
        sums += 1;
        w[at + (h - k)] = e - d;
        sums += 1;
    }
    Tally { sums, ..spent }
}

// (15): E(k) + D(n / 4 - k) at k and D(n / 4 - k) - E(k) at n / 2 - k. The coefficients 0 and n / 2 are zero, and E has no part in the
// coefficient n / 4.
pub fn join_sine(w: &mut [i64], n: usize, at: usize, spent: Tally) -> Tally
    requires { JoinReady (n / 2 - 2) n at w.old spent × (even_at at w.old 0 ≡ pos 0) × (even_at at w.old (n / 4) ≡ pos 0) }
    ensures { Joined sine_join (n / 2 - 2) n at w.old w.new spent result }
{
    let q = n / 4;
    let h = n / 2;
    let b = at + h + 1;
    let mut sums = spent.sums;
    for k in 1..q {
        let e = w[at + k];
        let d = w[b + (q - k)];
        w[at + k] = e + d;
        sums += 1;
        w[at + (h - k)] = d - e;
        sums += 1;
    }
    w[at + q] = w[b];
    w[at + h] = 0;
    Tally { sums, ..spent }
}
