#![tactic(auto)]

// Runs Spectrum, Cosine, Pair and the count query, and writes what each answers and what then stands in its buffers. The file stdout beside
// src/ was made by tests/expect_spectra.py, which shares nothing with the product.
ghost use Rattle.std.specs.Prelude.{◌+◌, ◌≤◌};
ghost use Rattle.refusals.specs.Refusals.{scratch_words};

use counts::cost::Cost;
use counts::tally::Tally;
use refusals::call::Request;
use refusals::length::{MOST_SCRATCH, scratch_words};
use refusals::refusal::Refusal;
use spectra::{cosine, count_query, pair, spectrum};
use std::{array, io};
use test_rows::{digested, random_sample, write_numbers, write_words};

// ---- what is written

// The number; the place behind it for 6, the one refusal of these calls that has one.
fn write_refusal(rt: &impl Print, refusal: Refusal) -> io::Result<()> {
    let number = u32::from(refusal);
    print!(rt; " {number}")?;
    if let Refusal::OutOfRange(place) = refusal {
        print!(rt; " {place}")?;
    }
    Ok(())
}

fn write_answer(rt: &impl Print, answer: Result<Tally, Refusal>) -> io::Result<()> {
    match answer {
        Ok(tally) => write_numbers(rt, &[0, tally.products, tally.sums, tally.largest_rest]),
        Err(refusal) => write_refusal(rt, refusal),
    }
}

// A word of scratch is to be 0 or 90. Any other counts as -1.
fn scratch_word(word: i64) -> i32 {
    match word {
        0 => 0,
        90 => 90,
        _ => -1,
    }
}

fn write_buffers(
    rt: &impl Print,
    first: &[i32],
    second: &[i32],
    scratch: &[i64],
) -> io::Result<()> {
    write_words(rt, first)?;
    write_words(rt, second)?;
    let digest = scratch
        .iter()
        .fold(0, |digest, word| digested(digest, scratch_word(*word)));
    println!(rt; " {digest}")
}

// ---- the recordings

// A row of pseudo-random numbers below 2^31.
fn next(state: u64) -> u64 {
    (state % 2147483648 * 1103515245 + 12345) % 2147483648
}

// The last two have one rest in a block from place 3 that is not 0: that of DCT(N/2) in Cosine, one of the sine-DFT in Spectrum.
#[derive(Clone, Copy)]
enum Kind {
    Highest,
    Lowest,
    Alternating,
    OneLarge,
    TwoOnes,
    Random,
    SquareWave,
    Wave,
}

const KINDS: [Kind; 8] = [
    Kind::Highest,
    Kind::Lowest,
    Kind::Alternating,
    Kind::OneLarge,
    Kind::TwoOnes,
    Kind::Random,
    Kind::SquareWave,
    Kind::Wave,
];

impl Kind {
    // The sample at place i.
    fn sample(self, i: usize, state: u64) -> i32 {
        match self {
            Kind::Highest => 1000000,
            Kind::Lowest => -1000000,
            Kind::Alternating => if i % 2 == 0 { 1000000 } else { -1000000 },
            Kind::OneLarge => if i == 4 { 1000000 } else { 0 },
            Kind::TwoOnes => if i == 4 || i == 5 { 1 } else { 0 },
            Kind::Random => random_sample(state),
            Kind::SquareWave => if i % 4 < 2 { -524288 } else { 524288 },
            Kind::Wave => [-654321, -654321, -654321, 0, 654321, 654321, 654321, 0][i % 8],
        }
    }
}

fn recording(kind: Kind, seed: u64) -> [i32; 1040] {
    let mut state = seed;
    array::from_fn(|i| {
        state = next(state);
        kind.sample(i, state)
    })
}

// ---- a case: a call, and the words of each buffer that is lent

#[derive(Clone, Copy)]
struct Case {
    request: Request,
    first: usize,
    second: usize,
    scratch: usize,
}

// The most words of scratch that are lent: two to spare.
const MOST_LENT: usize = MOST_SCRATCH + 2;

fn run_call<F: FnOnce(&mut [i32], &mut [i32], &mut [i64]) -> Result<Tally, Refusal>>(
    rt: &impl Print,
    name: &str,
    case: Case,
    call: F,
) -> io::Result<()>
    requires room { (case.first ≤ 1040) × (case.second ≤ 1040) × (case.scratch ≤ scratch_words 1024 + 2) }
    requires callable { F.IsAlwaysCallable call }
{
    let mut firsts = [70; 1040];
    let mut seconds = [80; 1040];
    let mut words = [90; MOST_LENT];
    let first = &mut firsts[..case.first];
    let second = &mut seconds[..case.second];
    let scratch = &mut words[..case.scratch];
    print!(rt; "{name}")?;
    write_answer(rt, call(first, second, scratch))?;
    write_buffers(rt, first, second, scratch)
}

// Cosine has one result, so it is lent nothing of the second. (Here and below rt, a and b stay parameters: a struct of the recordings
// would be made where each is, for one call.)
fn run_calls(rt: &impl Print, a: &[i32], b: &[i32], case: Case) -> io::Result<()>
    requires { (case.first ≤ 1040) × (case.second ≤ 1040) × (case.scratch ≤ scratch_words 1024 + 2) }
{
    let request = case.request;
    run_call(rt, "spectrum", case, |first, second, scratch| {
        spectrum(a, request, first, second, scratch)
    })?;
    run_call(
        rt,
        "cosine",
        Case { second: 0, ..case },
        |first, _, scratch| { cosine(a, request, first, scratch) },
    )?;
    run_call(rt, "pair", case, |first, second, scratch| {
        pair(a, b, request, first, second, scratch)
    })
}

fn write_cost(rt: &impl Print, cost: Cost) -> io::Result<()> {
    write_numbers(rt, &[cost.products, cost.sums])
}

fn run_query(rt: &impl Print, length: usize) -> io::Result<()> {
    print!(rt; "counts")?;
    match count_query(length) {
        Ok(counts) => {
            write_cost(rt, counts.dct)?;
            write_cost(rt, counts.spectrum)?;
            write_cost(rt, counts.pair)?;
        }
        Err(refusal) => write_refusal(rt, refusal)?,
    }
    println!(rt)
}

// All three calls, with words to spare in every buffer.
fn run_roomy(rt: &impl Print, a: &[i32], b: &[i32], request: Request) -> io::Result<()> {
    let room = request.length.min(1024);
    let case = Case {
        request,
        first: room + 2,
        second: room + 3,
        scratch: scratch_words(room) + 2,
    };
    run_calls(rt, a, b, case)
}

// The same for a block whose products are allowed.
fn run_block(rt: &impl Print, a: &[i32], b: &[i32], start: usize, length: usize) -> io::Result<()> {
    run_roomy(
        rt,
        a,
        b,
        Request {
            start,
            length,
            allowance: 20000,
        },
    )
}

// ---- every length of every kind of block, from start 3

fn run_kind(rt: &impl Print, kind: Kind, other: Kind) -> io::Result<()> {
    let a = recording(kind, 1);
    let b = recording(other, 2);
    for level in 0..11usize {
        run_block(rt, &a, &b, 3, 1 << level)?;
    }
    Ok(())
}

fn run_kinds(rt: &impl Print) -> io::Result<()> {
    for (kind, other) in KINDS.iter().zip(KINDS.iter().rev()) {
        run_kind(rt, *kind, *other)?;
    }
    Ok(())
}

// ---- every pair of refusals that can hold together, at 8 samples from start 2. The samples before the block are out of range

// What is wrong with a call: nothing, its length, a recording, a result, scratch, the allowance, or a sample of a recording.
#[derive(Clone, Copy, PartialEq)]
enum Fault {
    Nothing,
    Length,
    A,
    B,
    First,
    Second,
    Scratch,
    Allowance,
    SampleOfA,
    SampleOfB,
}

const FAULTS: [Fault; 10] = [
    Fault::Nothing,
    Fault::Length,
    Fault::A,
    Fault::B,
    Fault::First,
    Fault::Second,
    Fault::Scratch,
    Fault::Allowance,
    Fault::SampleOfA,
    Fault::SampleOfB,
];

fn run_faults(rt: &impl Print, one: Fault, other: Fault) -> io::Result<()> {
    let holds = |fault: Fault| one == fault || other == fault;
    let x = if holds(Fault::SampleOfA) { 1000005 } else { 5 };
    let y = if holds(Fault::SampleOfB) { -1000001 } else { 6 };
    let a = [2000000, 2000000, 5, 5, x, 5, 5, 5, 5, 5];
    let b = [-2000000, -2000000, 6, y, 6, 6, 6, 6, 6, 6];
    let lent_a = if holds(Fault::A) { 7 } else { 10 };
    let lent_b = if holds(Fault::B) { 7 } else { 10 };
    let enough = scratch_words(8);
    let request = Request {
        start: 2,
        length: if holds(Fault::Length) { 6 } else { 8 },
        allowance: if holds(Fault::Allowance) { 1 } else { 100 },
    };
    let case = Case {
        request,
        first: if holds(Fault::First) { 3 } else { 8 },
        second: if holds(Fault::Second) { 3 } else { 8 },
        scratch: if holds(Fault::Scratch) {
            enough - 25
        } else {
            enough
        },
    };
    run_calls(rt, &a[..lent_a], &b[..lent_b], case)
}

// One fault with itself and with each of those behind it.
fn run_refusals_of(rt: &impl Print, one: Fault, others: &[Fault]) -> io::Result<()> {
    for other in others {
        run_faults(rt, one, *other)?;
    }
    Ok(())
}

fn run_refusals(rt: &impl Print) -> io::Result<()> {
    for (i, fault) in FAULTS.iter().enumerate() {
        run_refusals_of(rt, *fault, &FAULTS[i..])?;
    }
    Ok(())
}

// ---- document 01's blocks to try, and blocks with a tie

// A recording of 4 samples with the same one backwards.
fn run_small(rt: &impl Print, a: [i32; 4], length: usize) -> io::Result<()> {
    let mut b = a;
    b.reverse();
    run_block(rt, &a, &b, 0, length)
}

// A tie in the cosine-DFT alone, or in the sine-DFT alone.
fn run_ties(rt: &impl Print) -> io::Result<()> {
    let silence = [0; 16];
    let cosine_tie = [0, 6863, 0, 0, 0, 5998, 0, 0, 0, 0, 0, 5998, 0, 0, 0, 6863];
    let sine_tie = [0, 6863, 0, 0, 0, 5998, 0, 0, 0, 0, 0, -5998, 0, 0, 0, -6863];
    run_block(rt, &cosine_tie, &silence, 0, 16)?;
    run_block(rt, &silence, &sine_tie, 0, 16)?;
    run_block(rt, &sine_tie, &cosine_tie, 0, 16)
}

fn run_blocks_to_try(rt: &impl Print) -> io::Result<()> {
    run_small(rt, [7, 0, 0, 0], 1)?;
    run_small(rt, [1, 2, 3, 4], 4)?;
    run_small(rt, [3, 1, 0, 0], 2)?;
    run_small(rt, [0, 1, 0, 0], 2)?;
    run_small(rt, [-1, 1, 0, 0], 2)?;
    run_small(rt, [13726, 0, 11996, 0], 4)?;
    run_small(rt, [-13726, 0, -11996, 0], 4)?;
    run_small(rt, [-11996, 0, 13726, 0], 4)?;
    run_small(rt, [11996, 0, -13726, 0], 4)?;
    run_ties(rt)?;
    let mut a = recording(Kind::OneLarge, 1);
    let b = recording(Kind::Random, 2);
    run_roomy(
        rt,
        &a,
        &b,
        Request {
            start: 4,
            length: 8,
            allowance: 12,
        },
    )?;
    run_roomy(
        rt,
        &a,
        &b,
        Request {
            start: 4,
            length: 8,
            allowance: 11,
        },
    )?;
    run_block(rt, &a, &b, 3, 8)?;
    a[4] = 1000001;
    run_block(rt, &a, &b, 4, 8)
}

// ---- lengths, starts and recordings at the ends

fn run_starts(rt: &impl Print, length: usize) -> io::Result<()> {
    let a = [1; 8];
    let b = [2; 9];
    run_block(rt, &a, &b, 0, length)?;
    run_block(rt, &a, &b, 7, length)?;
    run_roomy(
        rt,
        &a,
        &b,
        Request {
            start: 8,
            length,
            allowance: 0,
        },
    )?;
    run_block(rt, &a, &b, usize::MAX, length)?;
    run_block(rt, &[], &b, 0, length)?;
    run_query(rt, length)
}

fn run_lengths(rt: &impl Print) -> io::Result<()> {
    for length in (0..10).chain([1024, 2048, usize::MAX]) {
        run_starts(rt, length)?;
    }
    Ok(())
}

// The powers of 2 up to 4,096, and the lengths below and above each.
fn run_queries(rt: &impl Print) -> io::Result<()> {
    for level in 0..13usize {
        let length = 1 << level;
        run_query(rt, length - 1)?;
        run_query(rt, length)?;
        run_query(rt, length + 1)?;
    }
    Ok(())
}

fn main(rt: HostRuntime) -> io::Result<()> {
    let rt = &rt;
    run_kinds(rt)?;
    run_refusals(rt)?;
    run_blocks_to_try(rt)?;
    run_lengths(rt)?;
    run_queries(rt)
}
