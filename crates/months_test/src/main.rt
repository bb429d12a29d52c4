#![tactic(auto)]

// Adds many blocks of two owners to months, one after the other, and writes the owners' block numbers and sums: a program that keeps a
// month through a loop, and relies on it that the sums of every month are small. Both owners' calls at random in one month, and each
// owner's alone in a month, lead to the same account. The file stdout beside src/ was made by tests/expect_month_sums.py, which shares
// nothing with the product.
ghost use Rattle.std.specs.Prelude.{◌<◌};

use months::Month;
use refusals::call::Request;
use refusals::length::MOST_SCRATCH;
use std::{array, io};
use test_rows::{random_sample, write_numbers};

// A party is a number here, as it is in the calls: a party that is none is one of the cases.

// ---- what is written

// In every month each number and each sum is at most this in size.
const LARGEST: u64 = 1 << 62;

// A line for k: the party's sums, or nothing behind it where Spectrum does not yield it. (The month and the party stay parameters, as
// they are in the calls that are tested.)
fn write_k(rt: &impl Print, month: &Month, party: usize, k: usize) -> io::Result<()> {
    print!(rt; " {k}")?;
    if let Ok(sums) = month.sums_at(party, k) {
        prove!(sums.cosine.unsigned_abs() <= LARGEST);
        prove!(sums.sine.unsigned_abs() <= LARGEST);
        write_numbers(rt, &[sums.cosine, sums.sine])?;
    }
    println!(rt)
}

// A party and its block number.
fn write_party(rt: &impl Print, month: &Month, party: usize) -> io::Result<()> {
    print!(rt; "party {party}")?;
    if let Ok(blocks) = month.block_number(party) {
        prove!(blocks.unsigned_abs() <= LARGEST);
        print!(rt; " {blocks}")?;
    }
    println!(rt)
}

// A party's account: its block number, then a line for each k up to one more than Spectrum yields.
fn write_account(rt: &impl Print, month: &Month, party: usize) -> io::Result<()> {
    write_party(rt, month, party)?;
    for k in 0..month.length() / 2 + 2 {
        write_k(rt, month, party, k)?;
    }
    Ok(())
}

// A month: its length and both accounts.
fn write_month(rt: &impl Print, month: &Month) -> io::Result<()> {
    let length = month.length();
    println!(rt; "month {length}")?;
    write_account(rt, month, 1)?;
    write_account(rt, month, 2)
}

// ---- blocks

// Samples of either sign, the one at place 700 out of range.
fn sample(i: usize) -> i32
    requires { i < 2100 }
{
    if i == 700 {
        1000001
    } else {
        random_sample(i as u64 * 386093)
    }
}

// ---- calls

// The owner whose turn it is, 1 or 2, in no order.
fn owner(turn: usize) -> usize {
    1 + (turn % 11 * 7 % 11 + turn % 13 * 5 % 13 + turn % 17 * 3 % 17) % 2
}

// A turn, in which the party adds the block from one of the places 0, 3, 6 .. 1,197 on; a refused block leaves the month as it was.
fn take_turn(month: &mut Month, party: usize, turn: usize, recording: &[i32], length: usize) {
    let mut cosine = [0; 2100];
    let mut sine = [0; 2100];
    let mut scratch = [0; MOST_SCRATCH];
    let request = Request {
        start: turn % 400 * 3,
        length,
        allowance: 20000,
    };
    let _ = month.add(
        party,
        recording,
        request,
        &mut cosine,
        &mut sine,
        &mut scratch,
    );
}

// The month after some turns; the caller of a turn is the party that adds a block in it, if any does.
fn filled<F: Fn(usize) -> Option<usize> + Drop>(
    mut month: Month,
    caller: F,
    count: usize,
    recording: &[i32],
    length: usize,
) -> Month
    requires { F.IsAlwaysCallable caller }
{
    for turn in 0..count {
        if let Some(party) = caller(turn) {
            take_turn(&mut month, party, turn, recording, length);
        }
    }
    month
}

// A month begun for a length, after 450 turns.
fn begun_and_filled<F: Fn(usize) -> Option<usize> + Drop>(
    caller: F,
    recording: &[i32],
    length: usize,
) -> Month
    requires { F.IsAlwaysCallable caller }
{
    filled(Month::begin(length).month, caller, 450, recording, length)
}

// ---- runs

// Both owners' blocks, of which some are refused; then some of another length, and some of a party that is none.
fn run_length(rt: &impl Print, recording: &[i32], length: usize, other: usize) -> io::Result<()> {
    let month = begun_and_filled(|turn| Some(owner(turn)), recording, length);
    let then = filled(month, |_| Some(1), 5, recording, other);
    write_month(rt, &filled(then, |_| Some(3), 5, recording, length))
}

// A month in which one owner alone adds blocks, in the turns that are its own where both do; and its account.
fn run_only(rt: &impl Print, recording: &[i32], length: usize, party: usize) -> io::Result<()> {
    let own = |turn| (owner(turn) == party).then_some(party);
    write_account(rt, &begun_and_filled(own, recording, length), party)
}

// Both owners at random, and each alone: the same accounts.
fn run_alone(rt: &impl Print, recording: &[i32], length: usize) -> io::Result<()> {
    let both = begun_and_filled(|turn| Some(owner(turn)), recording, length);
    write_account(rt, &both, 1)?;
    write_account(rt, &both, 2)?;
    run_only(rt, recording, length, 1)?;
    run_only(rt, recording, length, 2)
}

// As many blocks of one party as it may add, and one more, with every sample the same; then some of the other party.
fn run_full(rt: &impl Print, value: i32, length: usize) -> io::Result<()> {
    let samples = [value; 2100];
    let month = filled(
        Month::begin(length).month,
        |_| Some(1),
        50001,
        &samples,
        length,
    );
    write_month(rt, &filled(month, |_| Some(2), 3, &samples, length))
}

fn run_lengths(rt: &impl Print, recording: &[i32]) -> io::Result<()> {
    for level in 0..11usize {
        run_length(rt, recording, 1 << level, 2 << level)?;
    }
    Ok(())
}

fn main(rt: HostRuntime) -> io::Result<()> {
    let rt = &rt;
    let samples: [i32; 2100] = array::from_fn(sample);
    run_lengths(rt, &samples)?;
    run_length(rt, &samples, 3, 3)?;
    run_length(rt, &samples, 0, 0)?;
    run_length(rt, &samples, 2048, 1024)?;
    run_alone(rt, &samples, 1)?;
    run_alone(rt, &samples, 8)?;
    run_alone(rt, &samples, 64)?;
    run_alone(rt, &samples, 1024)?;
    run_full(rt, 1000000, 1)?;
    run_full(rt, -1000000, 2)?;
    run_full(rt, 1000000, 4)
}
