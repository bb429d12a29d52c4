// One party's account: the words of a month's record that are that party's (specs/Accounts.antt has their places), as a part that is lent.
ghost use Rattle.std.specs.Prelude.{false, ◌≡◌, ◌+◌, ◌/◌, ◌^◌, ◌≤◌, length as List·length};
ghost use Rattle.words.specs.Words.{word, Written};
ghost use Rattle.refusals.specs.Refusals.{at_most};
ghost use Rattle.spectra.specs.Promises.{buffers};
ghost use Rattle.months.specs.Accounts.{account_words, block_number, cosine_sum, sine_sum, full, plus, BlockAdded};
ghost use Rattle.months.specs.Promises.{given, AccountPromise};

use counts::tally::Tally;
use refusals::call::Request;
use refusals::refusal::Refusal;
use spectra::spectrum;

// The words of an account, and the places in it: of the block number, and of the sums for k = 0 of the cosine and of the sine.
pub const WORDS: usize = 1027;

pub type Account = [i64; WORDS];

const BLOCK_NUMBER: usize = 0;

const COSINE_SUMS: usize = 1;

const SINE_SUMS: usize = 514;

const MOST_BLOCKS: i64 = 50000;

// The two sums of an account for one k.
#[derive(Clone, Copy)]
pub struct Sums {
    pub cosine: i64,
    pub sine: i64,
}

// ---- reading

// The number of blocks that were added.
pub fn block_number(account: &Account) -> i64
    ensures { result ≡ block_number account.now }
{
    account[BLOCK_NUMBER]
}

// Both sums for k.
pub fn sums_at(account: &Account, k: usize) -> Sums
    requires { k ≤ 512 }
    ensures { result ≡ record { cosine = cosine_sum account.now k; sine = sine_sum account.now k } }
{
    let cosine = account[COSINE_SUMS + k];
    let sine = account[SINE_SUMS + k];
    Sums { cosine, sine }
}

// ---- adding. The account is a slice here: of an array that is lent out of another no contract of std says what is left in it

// Whether a sum is at most 2^62 in size.
fn has_room(sum: i64) -> bool
    ensures { result ≡ at_most (2 ^ 62) sum }
{
    sum.unsigned_abs() <= 1 << 62
}

// A sum with a coefficient more. Every sum of a month has room; one that has none, in words that are no month's, stays.
#[tactic(auto, unfolding(crate::specs::Accounts::plus))]
fn added(sum: i64, coefficient: i32) -> i64
    ensures { result ≡ plus sum coefficient }
{
    if has_room(sum) {
        sum + i64::from(coefficient)
    } else {
        sum
    }
}

// Coefficients added to the sums from word at on. (Word and place, since the proofs speak of the whole account.)
#[tactic(auto, using(words::proofs::Writing::ends_front))]
fn add_sums(account: &mut [i64], at: usize, coefficients: &[i32])
    requires { at + List·length coefficients.now ≤ List·length account.old }
    ensures { Written at (List·length coefficients.now) (λ k. plus (word account.old (at + k)) (word coefficients.now k))
        account.old account.new }
{
    for (k, coefficient) in coefficients.iter().enumerate() {
        account[at + k] = added(account[at + k], *coefficient);
    }
}

// A block of which Spectrum has yielded the coefficients.
#[tactic(auto, using(crate::proofs::Blocks::both_lent, crate::proofs::Blocks::block_added))]
fn add_block(account: &mut [i64], length: usize, cosine: &[i32], sine: &[i32])
    requires { (List·length account.old ≡ account_words) × (length ≤ 1024)
        × (length / 2 + 1 ≤ List·length cosine.now) × (length / 2 + 1 ≤ List·length sine.now) × (full account.old ≡ false) }
    ensures { BlockAdded length (word cosine.now) (word sine.now)
        account.old account.new }
{
    let yields = length / 2 + 1;
    add_sums(account, COSINE_SUMS, &cosine[..yields]);
    add_sums(account, SINE_SUMS, &sine[..yields]);
    account[BLOCK_NUMBER] += 1;
}

// Spectrum, and its coefficients added to the account, where it is not full. (The lent buffers stay parameters, as in `Month::add`.)
#[tactic(auto, using(crate::proofs::AccountRuns::spectrum_refused))]
pub fn add_to(
    account: &mut [i64],
    recording: &[i32],
    request: Request,
    cosine: &mut [i32],
    sine: &mut [i32],
    scratch: &mut [i64],
) -> Result<Tally, Refusal>
    requires { List·length account.old ≡ account_words }
    ensures { AccountPromise (given recording.now request.start request.length request.allowance
        (buffers cosine.old sine.old scratch.old))
        account.old account.new (buffers cosine.new sine.new scratch.new) result }
{
    if MOST_BLOCKS <= account[BLOCK_NUMBER] {
        return Err(Refusal::MonthFull);
    }
    let spent = spectrum(recording, request, cosine, sine, scratch)?;
    add_block(account, request.length, cosine, sine);
    Ok(spent)
}
