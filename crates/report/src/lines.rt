// The lines of `pairspec`, put into a lent page. Each function puts its text from the place `at` on and answers the place behind it.
// (Page and place stay two parameters, as in text.)
ghost use Rattle.std.specs.Prelude.{◌≡◌, ◌+◌, ◌*◌, ◌≤◌, ◌<◌, length};
ghost use Rattle.words.specs.Words.{word};
ghost use Rattle.words.specs.Put.{Put};
ghost use Rattle.report.specs.Lines.{heading, refusal, line, lines};

use text::{put, put_decimal, put_number};

pub fn put_heading(page: &mut [u8], at: usize) -> usize
    requires { at + 14 ≤ length page.old }
    ensures { Put page.old at heading result page.new }
{
    put(b"block k re im\n", page, at)
}

// A number of 32 bits has at most 10 digits.
#[tactic(auto, using(crate::proofs::LineRuns::refusal_parts))]
pub fn put_refusal(number: u32, page: &mut [u8], at: usize) -> usize
    requires { at + 19 ≤ length page.old }
    ensures { Put page.old at (refusal number) result page.new }
{
    let behind = put(b"refused ", page, at);
    put_number(u64::from(number), b"\n", page, behind)
}

#[tactic(auto, using(crate::proofs::LineRuns::line_parts))]
fn put_line(block: u64, k: u64, re: i32, im: i32, page: &mut [u8], at: usize) -> usize
    requires { at + length (line block k re im) ≤ length page.old }
    ensures { Put page.old at (line block k re im) result page.new }
{
    let a = put_number(block, b" ", page, at);
    let b = put_number(k, b" ", page, a);
    let c = put_decimal(re, b" ", page, b);
    put_decimal(im, b"\n", page, c)
}

// The lines of one block, a line for each k. The widest has 34 bytes: two numbers of 4 digits, two of 10 with a sign, three spaces
// and the line feed.
#[tactic(auto, using(crate::proofs::LineRuns::lines_put))]
pub fn put_lines(block: u64, real: &[i32], imaginary: &[i32], page: &mut [u8], at: usize) -> usize
    requires { (block < 10000) × (length real.now ≤ 1024) × (length imaginary.now ≡ length real.now)
        × (at + 34 * length real.now ≤ length page.old) }
    ensures { Put page.old at
        (lines block (word real.now) (word imaginary.now) (length real.now)) result page.new
        × (result ≤ at + 34 * length real.now) }
{
    let mut next = at;
    // By index, since k is printed too: the zip of both slices with its count is longer.
    for k in 0..real.len() {
        next = put_line(block, k as u64, real[k], imaginary[k], page, next);
    }
    next
}
