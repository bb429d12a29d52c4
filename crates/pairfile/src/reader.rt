// The reader of the pair file.
ghost use Rattle.std.specs.Prelude.{◌≡◌, ◌+◌, ◌*◌, ◌≤◌, ◌<◌, length};
ghost use Rattle.words.specs.Words.{Written};
ghost use Rattle.lengths.specs.Block.{largest_sample};
ghost use Rattle.refusals.specs.Passes.{OnePass};
ghost use Rattle.pairfile.specs.File.{samples_at};
ghost use Rattle.pairfile.specs.Promises.{ReadPromise};

use crate::count::bad_count;
use lengths::Length;
use little_endian::{signed_at, unsigned_at};
use refusals::range::{Pass, in_range};
use refusals::refusal::Refusal;

// The sizes of a file: m samples of each recording, in blocks of N.
#[derive(Clone, Copy)]
pub struct Sizes {
    pub samples: usize,
    pub length: usize,
}

// The samples of a recording in a file, `count` of them from byte `start` on.
#[derive(Clone, Copy)]
struct SampleArray<'a> {
    file: &'a [u8],
    start: usize,
    count: usize,
    ghost within: { start + 4 * count ≤ length file.now },
}

impl<'a> SampleArray<'a> {
    fn new(file: &'a [u8], start: usize, count: usize) -> SampleArray<'a>
        requires { start + 4 * count ≤ length file.now }
        ensures { (result.file.now ≡ file.now) × (result.start ≡ start) × (result.count ≡ count) }
    {
        SampleArray { file, start, count }
    }

    fn at(self, i: usize) -> i32
        requires { i < self.count }
        ensures { result ≡ samples_at self.entry.file.now self.entry.start i }
    {
        signed_at(self.file, self.start + 4 * i)
    }

    // The pass over the samples, up to the first that is out of range, with a look at each. (It is that over words, of bytes: one for both
    // would take what stands at each place as a closure, with a contract longer than the loop.)
    fn first_out(self) -> Pass
        ensures { OnePass largest_sample (samples_at self.entry.file.now self.entry.start) 0 self.entry.count result }
    {
        let mut looks = 0;
        for i in 0..self.count {
            looks += 1;
            if !in_range(self.at(i)) {
                return Pass {
                    place: Some(i),
                    looks,
                };
            }
        }
        Pass { place: None, looks }
    }

    // The samples, put at the front of a recording. (By index: both sides are read at it.)
    fn fill(self, recording: &mut [i32])
        requires { self.count ≤ length recording.old }
        ensures { Written 0 self.entry.count (samples_at self.entry.file.now self.entry.start) recording.old recording.new }
    {
        for i in 0..self.count {
            recording[i] = self.at(i);
        }
    }
}

// The samples of a pair file, put at the front of two lent recordings.
#[tactic(auto, using(crate::proofs::Verdicts::read_tests), unfolding(crate::specs::File::file_verdict))]
pub fn read(file: &[u8], a: &mut [i32], b: &mut [i32]) -> Result<Sizes, Refusal>
    ensures { ReadPromise file.now a.old b.old a.new b.new result }
{
    if file.len() < 8 {
        return Err(Refusal::BelowHeader);
    }
    let m = unsigned_at(file, 0) as usize;
    if bad_count(m) {
        return Err(Refusal::BadCount);
    }
    if file.len() != 8 + 8 * m {
        return Err(Refusal::BadFileLength);
    }
    let length = Length::try_from(unsigned_at(file, 4) as usize)?;
    if a.len().min(b.len()) < m {
        return Err(Refusal::ResultTooShort);
    }
    let of_a = SampleArray::new(file, 8, m);
    let of_b = SampleArray::new(file, 8 + 4 * m, m);
    if let Some(place) = of_a.first_out().place {
        return Err(Refusal::OutOfRange(place));
    }
    if let Some(place) = of_b.first_out().place {
        return Err(Refusal::OutOfRange(place));
    }
    of_a.fill(a);
    of_b.fill(b);
    Ok(Sizes {
        samples: m,
        length: length.samples,
    })
}
