#![tactic(auto)]

// What the test programs write: numbers with a blank before each, and rows of words; and samples for them.
ghost use Rattle.std.specs.Prelude.{◌≤◌, ◌<◌, nat_abs};
ghost use Rattle.lengths.specs.Block.{largest_sample};

use std::fmt::Display;
use std::io;

pub fn write_numbers<T: Display>(rt: &impl Print, numbers: &[T]) -> io::Result<()> {
    for number in numbers {
        print!(rt; " {number}")?;
    }
    Ok(())
}

const PRIME: u64 = 4294967291;

// One more word of a digest: 2^31 more than the word, modulo the prime.
pub fn digested(digest: u64, word: i32) -> u64
    ensures { result < 4294967291 }
{
    let more = (i64::from(word) + 2147483648) as u64;
    (digest % PRIME * 65599 + more) % PRIME
}

// A short row word by word, a long one as a digest.
pub fn write_words(rt: &impl Print, words: &[i32]) -> io::Result<()> {
    if words.len() <= 20 {
        return write_numbers(rt, words);
    }
    let digest = words.iter().fold(0, |digest, word| digested(digest, *word));
    print!(rt; " {digest}")
}

// A sample from a number: -1000000 to 1000000.
pub fn random_sample(state: u64) -> i32
    ensures { nat_abs result ≤ largest_sample }
{
    (state % 2000001) as i32 - 1000000
}
