// The range of samples, and of other numbers that have a limit on either side.
ghost use Rattle.std.specs.Prelude.{◌≡◌, ◌+◌, ◌≤◌, length};
ghost use Rattle.words.specs.Words.{word};
ghost use Rattle.lengths.specs.Block.{largest_sample};
ghost use Rattle.refusals.specs.Refusals.{at_most, in_range};
ghost use Rattle.refusals.specs.Passes.{OnePass};

// A sample is at most this in size.
const LARGEST_SAMPLE: u32 = 1000000;

// What a pass over numbers finds: the place of the first beyond the limit, if any; and its looks, a look at each number up to there.
#[derive(Clone, Copy)]
pub struct Pass {
    pub place: Option<usize>,
    pub looks: usize,
}

// Whether x is at most limit in size. (By two comparisons: with `unsigned_abs` the pass over samples takes twice the time.)
fn at_most(limit: u32, x: i32) -> bool
    ensures { result ≡ at_most limit x }
{
    let high = i64::from(limit);
    -high <= i64::from(x) && i64::from(x) <= high
}

pub fn in_range(x: i32) -> bool
    ensures { result ≡ in_range x }
{
    at_most(LARGEST_SAMPLE, x)
}

// One pass over the n words from start on, up to the first that is beyond limit on either side. Each word is looked at once, low and high
// together, and each look is tallied as it is made. A place counts in all the words: with a slice each caller would add the start to it.
pub fn first_beyond(limit: u32, words: &[i32], start: usize, n: usize) -> Pass
    requires { start + n ≤ length words.now }
    ensures { OnePass limit (word words.now) start n result }
{
    let mut looks = 0;
    for (i, x) in words[start..start + n].iter().enumerate() {
        looks += 1;
        if !at_most(limit, *x) {
            return Pass {
                place: Some(start + i),
                looks,
            };
        }
    }
    Pass { place: None, looks }
}

// The pass over the n samples of a recording from start on, up to the first that is out of range.
pub fn first_out(recording: &[i32], start: usize, n: usize) -> Pass
    requires { start + n ≤ length recording.now }
    ensures { OnePass largest_sample (word recording.now) start n result }
{
    first_beyond(LARGEST_SAMPLE, recording, start, n)
}
