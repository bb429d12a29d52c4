#![tactic(auto)]

// A page for the site binder: a stored spectrum in lines of 30 columns (document 02, (vii)). The call asks nothing of its input: it tests
// its refusals in their order, before anything is written, and promises its whole outcome (specs/Promises.antt).
// (Page and place stay two parameters: of a struct that holds the page, callers do not learn what it then holds.)
ghost use Rattle.std.specs.Prelude.{◌≡◌, ◌++◌, ◌+◌, ◌*◌, ◌≤◌, ◌<◌, length};
ghost use Rattle.words.specs.Words.{word};
ghost use Rattle.words.specs.Put.{Put};
ghost use Rattle.pages.specs.Page.{heading, line, lines};
ghost use Rattle.pages.specs.Promises.{PagePromise};

use refusals::refusal::Refusal;
use refusals::stored::test_stored;
use text::columns::put_column;
use text::put;

// The bytes of a line.
const LINE: usize = 31;

// The line of k, put from byte `at` on; the answer is the place behind it.
#[tactic(auto, using(crate::proofs::Lines::columns_put))]
fn put_line(k: usize, cosine: i32, sine: i32, page: &mut [u8], at: usize) -> usize
    requires { (k < 10000) × (at + 31 ≤ length page.old) }
    ensures { Put page.old at (line k cosine sine) result page.new }
{
    let of_cosine = put_column(k as i32, 4, b" ", page, at);
    let of_sine = put_column(cosine, 12, b" ", page, of_cosine);
    put_column(sine, 12, b"\n", page, of_sine)
}

// The heading, and a line for each k, put from byte 0 on; the answer is the number of their bytes.
fn put_page(cosine: &[i32], sine: &[i32], page: &mut [u8]) -> usize
    requires { (length cosine.now ≤ 513) × (length sine.now ≡ length cosine.now)
        × (31 * (1 + length cosine.now) ≤ length page.old) }
    ensures { Put page.old 0
        (heading ++ lines (word cosine.now) (word sine.now) (length cosine.now)) result page.new
        × (result ≡ 31 * (1 + length cosine.now)) }
{
    let mut next = put(b"   k       cosine         sine\n", page, 0);
    // By index, since k is printed too: the zip of both slices with its count is longer.
    for k in 0..cosine.len() {
        next = put_line(k, cosine[k], sine[k], page, next);
    }
    next
}

// The page of a stored spectrum of blocks of `length` samples, put at the front of a lent buffer.
#[tactic(auto, using(crate::proofs::Verdicts::page_tests), unfolding(crate::specs::Page::page_verdict))]
pub fn fill_page(
    cosine: &[i32],
    sine: &[i32],
    length: usize,
    page: &mut [u8],
) -> Result<usize, Refusal>
    ensures { PagePromise cosine.now sine.now length page.old page.new result }
{
    let yields = length / 2 + 1;
    test_stored(length, cosine.len().min(sine.len()), yields)?;
    if page.len() < LINE * (1 + yields) {
        return Err(Refusal::ResultTooShort);
    }
    Ok(put_page(&cosine[..yields], &sine[..yields], page))
}
