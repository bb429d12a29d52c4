#![tactic(auto)]

// Numbers in decimal, put into a lent page. Each function puts its text from the place `at` on and answers the place behind it.
// Page and place stay two parameters: tried as a struct that holds the `&mut` page, and its caller learns nothing of the page afterwards.
pub mod columns;

ghost use Rattle.std.specs.Prelude.{◌≡◌, ◌+◌, ◌≤◌, length, ◌++◌, unsigned_abs};
ghost use Rattle.text.specs.Decimal.{number, decimal};
ghost use Rattle.words.specs.Put.{Put};

#[tactic(auto, using(crate::proofs::Runs::part_written))]
pub fn put(text: &[u8], page: &mut [u8], at: usize) -> usize
    requires { at + length text.now ≤ length page.old }
    ensures { Put page.old at text.now result page.new }
{
    let behind = at + text.len();
    page[at..behind].copy_from_slice(text);
    behind
}

// A number, and what ends it.
#[tactic(auto, using(crate::proofs::Runs::runs))]
pub fn put_number(n: u64, end: &[u8], page: &mut [u8], at: usize) -> usize
    requires { at + length (number n ++ end.now) ≤ length page.old }
    ensures { Put page.old at (number n ++ end.now) result page.new }
{
    let mut digits = [0u8; 20];
    let count = io::decimal(n, &mut digits);
    let behind = put(&digits[..count], page, at);
    put(end, page, behind)
}

// What stands before the digits of a number.
#[tactic(auto, using(crate::proofs::Spelling::decimal_negative, crate::proofs::Spelling::decimal_natural))]
fn sign_of(x: i32) -> &'static [u8]
    ensures { decimal x ≡ result.now ++ number (unsigned_abs x) }
{
    if x < 0 { b"-" } else { b"" }
}

// A number with its sign, and what ends it.
#[tactic(auto, using(crate::proofs::Runs::runs))]
pub fn put_decimal(x: i32, end: &[u8], page: &mut [u8], at: usize) -> usize
    requires { at + length (decimal x ++ end.now) ≤ length page.old }
    ensures { Put page.old at (decimal x ++ end.now) result page.new }
{
    let behind = put(sign_of(x), page, at);
    put_number(u64::from(x.unsigned_abs()), end, page, behind)
}
