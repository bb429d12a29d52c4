// The transforms of n samples, where the type tells n and the compiler unrolls their loops: those of two samples written out, and those of
// twice as many from those of half and of a quarter. What each finds and leaves is told at the head of the crate.
ghost use Rattle.std.specs.Prelude.{◌*◌, ◌/◌, ◌≡◌, ◌≤◌, ℕ};
ghost use Rattle.std.proofs.Common.{rules};
ghost use Rattle.ffct.specs.Transforms.{cosine_dft, sine_dft};
ghost use Rattle.transforms.specs.Steps.{DftReady, DftDone, DctReady, DctDone};

use crate::fold::{put_folded_differences, put_folded_sums};
use crate::join::{join_cosine, join_sine};
use circle::QuarterWave;
use counts::tally::Tally;
use rotation::{rotate, rotate_middle};
use std::marker::PhantomData;

pub trait Transforms {
    ghost n: { ℕ };

    // The number n of samples.
    fn length() -> usize
        requires { n ≤ 1024 }
        ensures { result ≡ n };

    fn cosine_dft(
        wave: &QuarterWave,
        w: &mut [i64],
        stride: usize,
        at: usize,
        spent: Tally,
    ) -> Tally
        requires { DftReady cosine_dft n stride at w.old spent }
        ensures { DftDone cosine_dft n stride at w.old w.new spent result };

    fn sine_dft(wave: &QuarterWave, w: &mut [i64], stride: usize, at: usize, spent: Tally) -> Tally
        requires { DftReady sine_dft n stride at w.old spent }
        ensures { DftDone sine_dft n stride at w.old w.new spent result };

    fn dct(wave: &QuarterWave, w: &mut [i64], spent: Tally) -> Tally
        requires { DctReady n w.old spent }
        ensures { DctDone n w.old w.new spent result };

    // The DCT of half as many samples, which the DFTs of twice as many take.
    fn half_dct(wave: &QuarterWave, w: &mut [i64], spent: Tally) -> Tally
        requires { DctReady (n / 2) w.old spent }
        ensures { DctDone (n / 2) w.old w.new spent result };

    ghost some: { 2 ≤ n };
}

pub struct Two;

pub struct Twice<H> {
    half: PhantomData<H>,
}

// The DFTs of two samples are their sum, which is the coefficient 0, and their difference, and zeros.
impl Transforms for Two {
    ghost n = { 2 };

    fn length() -> usize {
        2
    }

    fn cosine_dft(
        _wave: &QuarterWave,
        w: &mut [i64],
        stride: usize,
        at: usize,
        spent: Tally,
    ) -> Tally {
        let x = w[0];
        let y = w[2 * stride - 1];
        let mut sums = spent.sums;
        w[at] = x + y;
        sums += 1;
        w[at + 1] = x - y;
        sums += 1;
        Tally { sums, ..spent }
    }

    fn sine_dft(
        _wave: &QuarterWave,
        w: &mut [i64],
        _stride: usize,
        at: usize,
        spent: Tally,
    ) -> Tally {
        w[at] = 0;
        w[at + 1] = 0;
        spent
    }

    fn dct(wave: &QuarterWave, w: &mut [i64], spent: Tally) -> Tally {
        let x = w[0];
        let y = w[1];
        let mut sums = spent.sums;
        w[0] = x + y;
        sums += 1;
        let middle = rotate_middle(wave, x - y);
        sums += 1;
        w[1] = middle.value;
        Tally { sums, ..spent } + middle.made
    }

    fn half_dct(_wave: &QuarterWave, _w: &mut [i64], spent: Tally) -> Tally {
        spent
    }

    ghost some = { Prim.search rules };
}

impl<H: Transforms> Transforms for Twice<H> {
    ghost n = { 2 * H.n };

    fn length() -> usize {
        2 * H::length()
    }

    // (12).
    fn cosine_dft(
        wave: &QuarterWave,
        w: &mut [i64],
        stride: usize,
        at: usize,
        spent: Tally,
    ) -> Tally {
        let n = Self::length();
        let even = H::cosine_dft(wave, w, 2 * stride, at, spent);
        let b = at + n / 2 + 1;
        let folded = put_folded_sums(w, n, stride, b, even);
        let odd = H::half_dct(wave, &mut w[b..], folded);
        join_cosine(w, n, at, odd)
    }

    // (15). It differs from (12) in the fold and the join alone, but a trait of the two, with its laws, would be longer than this body.
    fn sine_dft(
        wave: &QuarterWave,
        w: &mut [i64],
        stride: usize,
        at: usize,
        spent: Tally,
    ) -> Tally {
        let n = Self::length();
        let even = H::sine_dft(wave, w, 2 * stride, at, spent);
        let b = at + n / 2 + 1;
        let folded = put_folded_differences(w, n, stride, b, even);
        let odd = H::half_dct(wave, &mut w[b..], folded);
        join_sine(w, n, at, odd)
    }

    // (18), (19). As the samples stand they are the block rearranged by (16), in pairs.
    fn dct(wave: &QuarterWave, w: &mut [i64], spent: Tally) -> Tally {
        let n = Self::length();
        let cosine = Self::cosine_dft(wave, w, 1, n, spent);
        let sine = Self::sine_dft(wave, w, 1, n + n / 2 + 1, cosine);
        rotate(wave, w, n, sine)
    }

    fn half_dct(wave: &QuarterWave, w: &mut [i64], spent: Tally) -> Tally {
        H::dct(wave, w, spent)
    }

    ghost some = { Prim.search rules };
}
