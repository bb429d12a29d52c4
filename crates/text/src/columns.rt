// Numbers in columns, put into a lent page.
ghost use Rattle.std.specs.Prelude.{◌+◌, ◌≤◌, length, ◌++◌};
ghost use Rattle.words.specs.Put.{Put};
ghost use Rattle.text.specs.Decimal.{decimal};
ghost use Rattle.text.specs.Alignment.{right_aligned};

use crate::{put, put_decimal};

// The widest column.
const WIDEST: usize = 12;

// A text in a column of this width, right aligned.
fn put_right(text: &[u8], width: usize, page: &mut [u8], at: usize) -> usize
    requires { (length text.now ≤ width) × (at + width ≤ length page.old) }
    ensures { Put page.old at (right_aligned width text.now) result page.new }
{
    let behind = at + (width - text.len());
    page[at..behind].fill(b' ');
    put(text, page, behind)
}

// A number in a column of this width, right aligned, and what ends the column.
pub fn put_column(x: i32, width: usize, end: &[u8], page: &mut [u8], at: usize) -> usize
    requires { (length (decimal x) ≤ width) × (width ≤ 12) × (at + width + length end.now ≤ length page.old) }
    ensures { Put page.old at (right_aligned width (decimal x) ++ end.now) result page.new }
{
    let mut digits = [0u8; WIDEST];
    let count = put_decimal(x, b"", &mut digits, 0);
    let behind = put_right(&digits[..count], width, page, at);
    put(end, page, behind)
}
