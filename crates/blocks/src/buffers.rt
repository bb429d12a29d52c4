// Between the samples and coefficients of 32 bits and the words of 64 bits that the transforms work in.
ghost use Rattle.std.specs.Prelude.{true, ◌≡◌, ℕ, ◌+◌, ◌*◌, ◌/◌, ◌-◌, ◌≤◌, ◌<◌, nat_abs, length};
ghost use Rattle.words.specs.Words.{word, Written, TwoPut};
ghost use Rattle.lengths.specs.Block.{is_length, largest_sum};
ghost use Rattle.blocks.specs.Buffers.{in_pairs, SumReady, SumPut, PartsReady, PartsPut};

use counts::tally::Tally;

// The block at the front of w.
pub fn load(block: &[i32], w: &mut [i64])
    requires { length block.now ≤ length w.old }
    ensures { Written 0 (length block.now) (word block.now) w.old w.new }
{
    for (i, sample) in block.iter().enumerate() {
        w[i] = i64::from(*sample);
    }
}

// The samples of a block at the front of w, in pairs: each sample beside its mirror image.
pub fn load_pairs(block: &[i32], w: &mut [i64])
    requires { (is_length (length block.now) ≡ true) × (length block.now ≤ length w.old) }
    ensures { Written 0 (length block.now) (in_pairs (length block.now) (word block.now)) w.old w.new }
{
    let n = block.len();
    if n == 1 {
        w[0] = i64::from(block[0]);
        return;
    }
    // By places, which run from both ends of the block.
    for i in 0..n / 2 {
        w[2 * i] = i64::from(block[i]);
        w[2 * i + 1] = i64::from(block[n - 1 - i]);
    }
}

// The words of w at the front of a buffer.
pub fn store(w: &[i64], out: &mut [i32])
    requires in_bounds { length w.now ≤ length out.old }
    requires by_index { (k : ℕ) → k < length w.now → nat_abs (word w.now k) ≤ largest_sum + 257 }
    ensures { Written 0 (length w.now) (word w.now) out.old out.new }
{
    for (k, y) in w.iter().enumerate() {
        out[k] = *y as i32;
    }
}

// The sum of x and y at place i of a buffer, their difference at place j.
fn put_sum_and_difference(
    x: i64,
    y: i64,
    out: &mut [i32],
    i: usize,
    j: usize,
    spent: Tally,
) -> Tally
    requires { SumReady x y i j out.old spent }
    ensures { SumPut x y i j out.old out.new spent result }
{
    out[i] = (x + y) as i32;
    out[j] = (x - y) as i32;
    Tally {
        sums: spent.sums + 2,
        ..spent
    }
}

// Coefficients 0 and n / 2 of a cosine-DFT, where the sine-DFT is zero.
fn store_ends(cosine: &[i64], out: &mut [i32])
    requires in_bounds { (0 < length cosine.now) × (length cosine.now ≤ length out.old) }
    requires by_index { (k : ℕ) → k < length cosine.now → nat_abs (word cosine.now k) ≤ largest_sum + 257 }
    ensures { let half = length cosine.now - 1 in
        TwoPut 0 half (word cosine.now 0) (word cosine.now half) out.old out.new }
{
    let half = cosine.len() - 1;
    out[0] = cosine[0] as i32;
    out[half] = cosine[half] as i32;
}

// Both parts of Pair, as many coefficients as the block has samples, from the DFTs of a and b, the cosine-DFT of each before its sine-DFT:
// by (9) and (10), what is added at k is subtracted at n - k.
pub fn join_parts(dfts: &[i64], real: &mut [i32], imaginary: &mut [i32], spent: Tally) -> Tally
    requires { PartsReady (length real.old) dfts.now real.old imaginary.old spent }
    ensures { PartsPut (length real.old) dfts.now real.old imaginary.old real.new imaginary.new spent result }
{
    let n = real.len();
    let m = n / 2 + 1;
    let (of_a, of_b) = dfts.split_at(2 * m);
    let (cosine_a, sine_a) = of_a.split_at(m);
    let (cosine_b, sine_b) = of_b.split_at(m);
    let mut tally = spent;
    // By places, which run from both ends of the parts.
    for k in 1..n - n / 2 {
        let of_real = put_sum_and_difference(cosine_a[k], sine_b[k], real, k, n - k, tally);
        tally = put_sum_and_difference(cosine_b[k], sine_a[k], imaginary, n - k, k, of_real);
    }
    store_ends(cosine_a, real);
    store_ends(cosine_b, imaginary);
    tally
}
