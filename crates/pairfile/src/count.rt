// The number of samples of a recording in a pair file.
ghost use Rattle.std.specs.Prelude.{◌≡◌};
ghost use Rattle.pairfile.specs.File.{bad_count};

// Whether m is 0 or above 4,096.
pub fn bad_count(m: usize) -> bool
    ensures { result ≡ bad_count m }
{
    m == 0 || 4096 < m
}
