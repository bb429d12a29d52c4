// Blocks of up to 32 samples: the steps of the cycle at a length that the compiler knows, so that it unrolls their loops.
ghost use Rattle.std.specs.Prelude.{◌≤◌};
ghost use Rattle.ffct.specs.Transforms.{cosine_dft, sine_dft};
ghost use Rattle.transforms.specs.Steps.{DftReady, DftDone, DctReady, DctDone};

use crate::doubling::{Transforms, Twice, Two};
use circle::QuarterWave;
use counts::tally::Tally;

type Four = Twice<Two>;

type Eight = Twice<Four>;

type Sixteen = Twice<Eight>;

type ThirtyTwo = Twice<Sixteen>;

// The transform of n samples, n one of the lengths from 2 to 32.
macro_rules! of_length {
    ($n:expr, $transform:ident($($argument:expr),*)) => {
        match $n {
            2 => Two::$transform($($argument),*),
            4 => Four::$transform($($argument),*),
            8 => Eight::$transform($($argument),*),
            16 => Sixteen::$transform($($argument),*),
            _ => ThirtyTwo::$transform($($argument),*),
        }
    };
}

pub fn cosine_short(
    wave: &QuarterWave,
    w: &mut [i64],
    n: usize,
    stride: usize,
    at: usize,
    spent: Tally,
) -> Tally
    requires { DftReady cosine_dft n stride at w.old spent × (n ≤ 32) }
    ensures { DftDone cosine_dft n stride at w.old w.new spent result }
{
    if n == 1 {
        w[at] = w[0];
        return spent;
    }
    of_length!(n, cosine_dft(wave, w, stride, at, spent))
}

pub fn sine_short(
    wave: &QuarterWave,
    w: &mut [i64],
    n: usize,
    stride: usize,
    at: usize,
    spent: Tally,
) -> Tally
    requires { DftReady sine_dft n stride at w.old spent × (n ≤ 32) }
    ensures { DftDone sine_dft n stride at w.old w.new spent result }
{
    if n == 1 {
        w[at] = 0;
        return spent;
    }
    of_length!(n, sine_dft(wave, w, stride, at, spent))
}

pub fn dct_short(wave: &QuarterWave, w: &mut [i64], n: usize, spent: Tally) -> Tally
    requires { DctReady n w.old spent × (n ≤ 32) }
    ensures { DctDone n w.old w.new spent result }
{
    if n == 1 {
        return spent;
    }
    of_length!(n, dct(wave, w, spent))
}
