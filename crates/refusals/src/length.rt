// Lengths of what is lent.
ghost use Rattle.std.specs.Prelude.{◌≡◌, ◌+◌, ◌≤◌, ltb};
ghost use Rattle.refusals.specs.Refusals.{scratch_words};

// Whether start + n exceeds len; the sum itself might not fit a word.
pub fn reaches_beyond(start: usize, n: usize, len: usize) -> bool
    ensures { result ≡ ltb len (start + n) }
{
    len < n || len - n < start
}

// The words of scratch that a call on n samples asks for, and clears.
pub fn scratch_words(n: usize) -> usize
    requires { n ≤ 1024 }
    ensures { result ≡ scratch_words n }
{
    8 * n + 64
}

// Those of the longest block, 1,024 samples: `scratch_words` of it written out, since a constant's value may not call a function.
pub const MOST_SCRATCH: usize = 8 * 1024 + 64;
