// The samples of which the steps of (12) and (15) take a DCT, made of a block in pairs and put behind it. In pairs, sample 2 i + 1 and
// its mirror image are neighbours.
ghost use Rattle.std.specs.Prelude.{◌≡◌, ◌≤◌, ◌+◌, ◌*◌, ◌/◌, nat_abs};
ghost use Rattle.lengths.specs.Block.{largest_sum};
ghost use Rattle.ffct.specs.Transforms.{alternate, folded_sums, folded_differences};
ghost use Rattle.transforms.specs.Steps.{FoldReady, Folded, DifferenceReady, DifferencePut};

use counts::tally::Tally;

// x2 of (12): each odd sample and its mirror image added. (By index, here and below: the samples stand in strides of w itself.)
pub fn put_folded_sums(w: &mut [i64], n: usize, stride: usize, b: usize, spent: Tally) -> Tally
    requires { FoldReady n stride b w.old spent }
    ensures { Folded folded_sums n stride b w.old w.new spent result }
{
    let mut sums = spent.sums;
    for i in 0..n / 4 {
        let p = 2 * stride * (2 * i + 1);
        w[b + i] = w[p] + w[p - 1];
        sums += 1;
    }
    Tally { sums, ..spent }
}

// The word at x less the word at y, put at a place behind them: one difference alone. (The loop below makes n / 4, with their sign.)
#[tactic(auto, using(words::proofs::Writing::written_one))]
pub fn put_difference(w: &mut [i64], x: usize, y: usize, place: usize, spent: Tally) -> Tally
    requires { DifferenceReady x y place w.old spent }
    ensures { DifferencePut x y place w.old w.new spent result }
{
    w[place] = w[x] - w[y];
    Tally {
        sums: spent.sums + 1,
        ..spent
    }
}

// (-1)^n z.
#[tactic(auto, using(ffct::proofs::Alternate::alternate_even, ffct::proofs::Alternate::alternate_odd))]
fn alternate(n: usize, z: i64) -> i64
    requires { nat_abs z ≤ 2 * largest_sum }
    ensures { result ≡ alternate n z }
{
    if n % 2 == 0 { z } else { -z }
}

// x3 of (15): each odd sample less its mirror image, with alternating sign. One loop for both folds, with a closure for what it makes of
// two samples, would have a contract longer than the loop.
pub fn put_folded_differences(
    w: &mut [i64],
    n: usize,
    stride: usize,
    b: usize,
    spent: Tally,
) -> Tally
    requires { FoldReady n stride b w.old spent }
    ensures { Folded folded_differences n stride b w.old w.new spent result }
{
    let mut differences = 0;
    for i in 0..n / 4 {
        let p = 2 * stride * (2 * i + 1);
        w[b + i] = alternate(i, w[p] - w[p - 1]);
        differences += 1;
    }
    Tally {
        sums: spent.sums + differences,
        ..spent
    }
}
