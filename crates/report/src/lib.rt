#![tactic(auto)]

// All that `pairspec` prints, put into a lent page. The lent buffers stay parameters in a row: tried as a struct that holds the `&mut`
// slices, and its caller learns nothing of the slices afterwards.
mod lines;

ghost use Rattle.std.specs.Prelude.{◌≡◌, ◌+◌, ◌*◌, ◌/◌, ◌≤◌, ◌<◌, length};
ghost use Rattle.words.specs.Words.{Samples, word};
ghost use Rattle.lengths.specs.Block.{level};
ghost use Rattle.ffct.specs.Transforms.{pair as pair_of};
ghost use Rattle.refusals.specs.Refusals.{scratch_words};
ghost use Rattle.spectra.specs.Promises.{pair_buffers};
ghost use Rattle.report.specs.Output.{lines_at, spectra};
ghost use Rattle.report.specs.Puts.{Printable, PutFrom, OutputPut};

use crate::lines::{put_heading, put_lines, put_refusal};
use counts::counts_of;
use lengths::Length;
use pairfile::reader::{Sizes, read};
use refusals::call::Request;
use spectra::pair;

// Just Pair's products, for one block.
fn pair_products(length: Length) -> u64
    ensures { (x y : Samples) → result ≡ (pair_of (level length.samples) x y).products }
{
    counts_of(length).pair.products
}

// The lines of block number `block`.
fn put_block(
    a: &[i32],
    b: &[i32],
    block: usize,
    n: usize,
    real: &mut [i32],
    imaginary: &mut [i32],
    scratch: &mut [i64],
    page: &mut [u8],
    at: usize,
) -> usize
    requires { Printable (block * n + n) n a.now b.now (pair_buffers real.old imaginary.old scratch.old)
        × (at + 34 * n ≤ length page.old) }
    ensures { PutFrom page.old at
        (lines_at n (word a.now) (word b.now) block) (34 * n) result page.new
        (pair_buffers real.old imaginary.old scratch.old)
        (pair_buffers real.new imaginary.new scratch.new) }
{
    let request = Request {
        start: block * n,
        length: n,
        allowance: pair_products(Length { samples: n }),
    };
    let _ = pair(a, b, request, real, imaginary, scratch);
    put_lines(block as u64, &real[..n], &imaginary[..n], page, at)
}

// The heading, and the lines of every block of two recordings with the sizes of a file.
fn put_spectra(
    a: &[i32],
    b: &[i32],
    sizes: Sizes,
    real: &mut [i32],
    imaginary: &mut [i32],
    scratch: &mut [i64],
    page: &mut [u8],
) -> usize
    requires { Printable sizes.samples sizes.length a.now b.now
        (pair_buffers real.old imaginary.old scratch.old)
        × (14 + 34 * sizes.samples ≤ length page.old) }
    ensures { PutFrom page.old 0
        (spectra sizes.samples sizes.length (word a.now) (word b.now))
        (14 + 34 * sizes.samples) result page.new
        (pair_buffers real.old imaginary.old scratch.old)
        (pair_buffers real.new imaginary.new scratch.new) }
{
    let n = sizes.length;
    let mut at = put_heading(page, 0);
    for block in 0..sizes.samples / n {
        at = put_block(a, b, block, n, real, imaginary, scratch, page, at);
    }
    at
}

// The whole output for a file. The page has room for 4,096 lines of 34 bytes below the heading. What stands in the other lent words
// afterwards is the program's choice.
pub fn put_output(
    file: &[u8],
    a: &mut [i32],
    b: &mut [i32],
    real: &mut [i32],
    imaginary: &mut [i32],
    scratch: &mut [i64],
    page: &mut [u8],
) -> usize
    requires { (length a.old ≡ 4096) × (length b.old ≡ 4096)
        × (1024 ≤ length real.old) × (1024 ≤ length imaginary.old) × (scratch_words 1024 ≤ length scratch.old)
        × (139278 ≤ length page.old) }
    ensures { OutputPut file.now page.old result page.new
        a.old b.old (pair_buffers real.old imaginary.old scratch.old)
        a.new b.new (pair_buffers real.new imaginary.new scratch.new) }
{
    match read(file, a, b) {
        Err(refusal) => put_refusal(u32::from(refusal), page, 0),
        Ok(sizes) => put_spectra(a, b, sizes, real, imaginary, scratch, page),
    }
}
