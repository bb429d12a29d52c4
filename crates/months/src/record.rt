// The record of a month in words that the caller lends (specs/Months.antt has its places). A program in C keeps its months so.
ghost use Rattle.std.specs.Prelude.{◌≡◌};
ghost use Rattle.spectra.specs.Promises.{buffers};
ghost use Rattle.months.specs.Months.{LengthTold, length_of, account};
ghost use Rattle.months.specs.Parties.{number_of};
ghost use Rattle.months.specs.Promises.{given, BeginPromise, ForParty, AddPromise, NumberPromise, SumsPromise};

use crate::account;
use crate::account::{Account, Sums};
use crate::party::Party;
use counts::tally::Tally;
use lengths::{Length, is_length};
use refusals::call::Request;
use refusals::refusal::Refusal;

// The words of a record: a mark with the length, and two accounts.
pub const WORDS: usize = 1 + 2 * account::WORDS;

pub type Record = [i64; WORDS];

const MARK: usize = 0;

// The version of the library from which on months have this layout and rule, and the mark of a month of that edition without its length.
const EDITION: i64 = 40000;

const MARKED: i64 = 65536 * EDITION;

// ---- the length and the accounts

// The length that stands with the mark; none where beginning was refused, and in words that are no month's.
#[tactic(auto, unfolding(crate::specs::Months::length_of))]
fn own_length(month: &Record) -> Option<usize>
    ensures { LengthTold month.now result }
{
    let mark = month[MARK];
    if mark < MARKED {
        return None;
    }
    let length = (mark - MARKED) as usize;
    is_length(length).then_some(length)
}

// The length for which the month is begun. 0 for none, since a program in C reads it.
pub fn length_of(month: &Record) -> usize
    ensures { result ≡ length_of month.now }
{
    own_length(month).unwrap_or(0)
}

// A party's account, to be read.
#[tactic(auto, using(crate::proofs::Parties::lent_account))]
fn account_of(month: &Record, party: Party) -> &Account
    ensures { result.now ≡ account (number_of party) month.now }
{
    let from = party.account_at();
    month[from..from + account::WORDS].try_into().unwrap()
}

// ---- beginning

// A month of no blocks, in whatever words are lent.
#[tactic(auto, using(lengths::proofs::ElevenLengths::length_le))]
pub fn begin_in(month: &mut Record, length: usize) -> Result<(), Refusal>
    ensures { BeginPromise length month.new result }
{
    *month = [0; WORDS];
    let length = Length::try_from(length)?;
    month[MARK] = MARKED + length.samples as i64;
    Ok(())
}

// ---- adding

// A block added to the account of a party, which alone is lent. (The lent buffers stay parameters, as in `Month::add`.)
fn add_for(
    month: &mut Record,
    party: Party,
    recording: &[i32],
    request: Request,
    cosine: &mut [i32],
    sine: &mut [i32],
    scratch: &mut [i64],
) -> Result<Tally, Refusal>
    ensures { ForParty (number_of party) (given recording.now request.start request.length request.allowance
        (buffers cosine.old sine.old scratch.old))
        month.old month.new (buffers cosine.new sine.new scratch.new) result }
{
    let from = party.account_at();
    account::add_to(
        &mut month[from..from + account::WORDS],
        recording,
        request,
        cosine,
        sine,
        scratch,
    )
}

// Spectrum, and its coefficients added to the account of the party.
#[tactic(auto, using(crate::proofs::Lengths::other_told))]
pub fn add_to(
    month: &mut Record,
    party: usize,
    recording: &[i32],
    request: Request,
    cosine: &mut [i32],
    sine: &mut [i32],
    scratch: &mut [i64],
) -> Result<Tally, Refusal>
    ensures { AddPromise party (given recording.now request.start request.length request.allowance
        (buffers cosine.old sine.old scratch.old))
        month.old month.new (buffers cosine.new sine.new scratch.new) result }
{
    let party = Party::try_from(party)?;
    if own_length(month) != Some(request.length) {
        return Err(Refusal::OtherLength);
    }
    add_for(month, party, recording, request, cosine, sine, scratch)
}

// ---- reading

// The number of blocks that the party has added.
pub fn block_number(month: &Record, party: usize) -> Result<i64, Refusal>
    ensures { NumberPromise party month.now result }
{
    let party = Party::try_from(party)?;
    Ok(account::block_number(account_of(month, party)))
}

// Both sums of the party for k, where Spectrum yields that k.
#[tactic(auto, using(lengths::proofs::ElevenLengths::length_le, crate::proofs::Reading::sums_told))]
pub fn sums_at(month: &Record, party: usize, k: usize) -> Result<Sums, Refusal>
    ensures { SumsPromise party month.now k result }
{
    let party = Party::try_from(party)?;
    match own_length(month) {
        Some(length) if k <= length / 2 => Ok(account::sums_at(account_of(month, party), k)),
        _ => Err(Refusal::NotYielded),
    }
}
