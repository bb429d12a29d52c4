#![tactic(auto)]

// pairspec: reads a pair file from standard input and prints the spectra of its blocks (document 01, "The pair file"). All that it prints
// is what the library function `report::put_output` puts into the page: the definition `output` of the bytes that were read.
ghost use Rattle.std.specs.Prelude.{◌≤◌, length};

use refusals::length::MOST_SCRATCH;
use report::put_output;
use std::io::Read;

// Fills the buffer from its front, until it is full or the input ends, and gives how many bytes were put there. A read that fails counts as
// the end of the input. (A `while`, since a read says how far the next turn goes.)
fn read_full(input: &mut impl Read, buffer: &mut [u8]) -> usize
    ensures { result ≤ length buffer.new }
{
    let size = buffer.len();
    let mut rest = buffer;
    while !rest.is_empty() {
        match input.read(rest) {
            Ok(0) | Err(_) => break,
            Ok(n) => rest = &mut rest[n..],
        }
    }
    size - rest.len()
}

// What cannot be written is left out: the program ends quietly then, too.
fn main(rt: HostRuntime) {
    // Room for one byte more than the largest legal file has: a longer file is refused by its first bytes as it is by all of them.
    let mut file = [0; 32777];
    let mut a = [0; 4096];
    let mut b = [0; 4096];
    let mut real = [0; 1024];
    let mut imaginary = [0; 1024];
    let mut scratch = [0; MOST_SCRATCH];
    // Room for the heading and 4,096 lines of 34 bytes.
    let mut page = [0; 139278];
    let size = read_full(&mut rt.stdin(), &mut file);
    let end = put_output(
        &file[..size],
        &mut a,
        &mut b,
        &mut real,
        &mut imaginary,
        &mut scratch,
        &mut page,
    );
    let _ = rt.write_all(&page[..end]);
}
