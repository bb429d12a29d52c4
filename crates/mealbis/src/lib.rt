#![tactic(auto)]

// The calls for programs in C and in Rust: plain numbers, slices as pointer and length, and the answer as the number of document 01 or 02,
// 0 where the call is accepted. What else an answer tells comes back through one lent record of words, which are written in every answer.
// No function asks anything of its input, and each promises what the call that it makes promises (specs/Promises.antt). include/mealbis.h
// is written for who calls them. Parameters stand one by one, and what is told is plain words, since C is on the other side.
pub mod version;

ghost use Rattle.std.specs.Prelude.{◌≡◌};
ghost use Rattle.refusals.specs.Refusals.{number};
ghost use Rattle.refusals.specs.Answers.{answered};
ghost use Rattle.spectra.specs.Answers.{number_of_mark};
ghost use Rattle.spectra.specs.Promises.{buffers, pair_buffers};
ghost use Rattle.months.specs.Months.{length_of};
ghost use Rattle.months.specs.Promises.{given};
ghost use Rattle.mealbis.specs.Promises.{spent_and_place, SpectrumTold, CosineTold, PairTold, MarkTold, CountsTold};
ghost use Rattle.mealbis.specs.Promises.{BeginTold, AddTold, NumberTold, SumsTold, InverseTold, PageTold, ReadTold, WriteTold};

use counts::tally::Tally;
use months::record;
use months::record::Record;
use pairfile::{reader, writer};
use refusals::call::Request;
use refusals::refusal::Refusal;
use spectra::marks;
use spectra::marks::{Mark, Marked};

// The number that is returned: that of the refusal, or 0 where the call is accepted.
fn number_told<A>(answer: &Result<A, Refusal>) -> u32
    ensures { result ≡ number (answered answer.now) }
{
    match answer {
        Ok(_) => 0,
        Err(refusal) => u32::from(*refusal),
    }
}

// What C is told of a call on recordings: products, sums, the largest rest and the place.
fn tell(answer: Result<Tally, Refusal>, told: &mut [u64; 4]) -> u32
    ensures { (result ≡ number (answered answer)) × (told.new ≡ spent_and_place answer) }
{
    *told = match answer {
        Ok(tally) => [tally.products, tally.sums, tally.largest_rest, 0],
        Err(refusal) => [0, 0, 0, refusal.place() as u64],
    };
    number_told(&answer)
}

// The mark as a number: flat 1, clipped 2, plain 3. (Only C needs it, so it is no `From` in spectra.)
fn number_of_mark(mark: Mark) -> u64
    ensures { result ≡ number_of_mark mark }
{
    match mark {
        Mark::Flat => 1,
        Mark::Clipped => 2,
        Mark::Plain => 3,
    }
}

// ---- the calls on recordings, which tell products, sums, the largest rest and the place

#[unsafe(no_mangle)]
pub extern "C" fn mealbis_spectrum(
    recording: &[i32],
    start: usize,
    length: usize,
    allowance: u64,
    cosine: &mut [i32],
    sine: &mut [i32],
    scratch: &mut [i64],
    told: &mut [u64; 4],
) -> u32
    ensures { SpectrumTold recording.now start length allowance
        (buffers cosine.old sine.old scratch.old)
        (buffers cosine.new sine.new scratch.new) told.new result }
{
    let request = Request {
        start,
        length,
        allowance,
    };
    let answer = spectra::spectrum(recording, request, cosine, sine, scratch);
    tell(answer, told)
}

#[unsafe(no_mangle)]
pub extern "C" fn mealbis_cosine(
    recording: &[i32],
    start: usize,
    length: usize,
    allowance: u64,
    coefficients: &mut [i32],
    scratch: &mut [i64],
    told: &mut [u64; 4],
) -> u32
    ensures { CosineTold recording.now start length allowance coefficients.old scratch.old
        coefficients.new scratch.new told.new result }
{
    let request = Request {
        start,
        length,
        allowance,
    };
    let answer = spectra::cosine(recording, request, coefficients, scratch);
    tell(answer, told)
}

#[unsafe(no_mangle)]
pub extern "C" fn mealbis_pair(
    a: &[i32],
    b: &[i32],
    start: usize,
    length: usize,
    allowance: u64,
    real: &mut [i32],
    imaginary: &mut [i32],
    scratch: &mut [i64],
    told: &mut [u64; 4],
) -> u32
    ensures { PairTold a.now b.now start length allowance
        (pair_buffers real.old imaginary.old scratch.old)
        (pair_buffers real.new imaginary.new scratch.new) told.new result }
{
    let request = Request {
        start,
        length,
        allowance,
    };
    let answer = spectra::pair(a, b, request, real, imaginary, scratch);
    tell(answer, told)
}

// Spectrum, and the mark of its block by the owner's two figures; its number stands behind the place.
#[unsafe(no_mangle)]
pub extern "C" fn mealbis_mark(
    recording: &[i32],
    start: usize,
    length: usize,
    allowance: u64,
    flat_limit: i32,
    clip_level: i32,
    cosine: &mut [i32],
    sine: &mut [i32],
    scratch: &mut [i64],
    told: &mut [u64; 5],
) -> u32
    ensures { MarkTold recording.now start length allowance flat_limit clip_level
        (buffers cosine.old sine.old scratch.old)
        (buffers cosine.new sine.new scratch.new) told.new result }
{
    let request = Request {
        start,
        length,
        allowance,
    };
    let answer = marks::mark_block(
        recording, request, flat_limit, clip_level, cosine, sine, scratch,
    );
    *told = match answer {
        Ok(Marked { mark, spent }) => [
            spent.products,
            spent.sums,
            spent.largest_rest,
            0,
            number_of_mark(mark),
        ],
        Err(refusal) => [0, 0, 0, refusal.place() as u64, 0],
    };
    number_told(&answer)
}

// ---- months, in lent words

// A month for one length, of no blocks of either party.
#[unsafe(no_mangle)]
pub extern "C" fn mealbis_month_begin(month: &mut Record, length: usize) -> u32
    ensures { BeginTold length month.new result }
{
    number_told(&record::begin_in(month, length))
}

// Spectrum, and its coefficients added to a month for the party; it tells what Spectrum tells.
#[unsafe(no_mangle)]
pub extern "C" fn mealbis_month_add(
    month: &mut Record,
    party: usize,
    recording: &[i32],
    start: usize,
    length: usize,
    allowance: u64,
    cosine: &mut [i32],
    sine: &mut [i32],
    scratch: &mut [i64],
    told: &mut [u64; 4],
) -> u32
    ensures { AddTold party (given recording.now start length allowance
        (buffers cosine.old sine.old scratch.old))
        month.old month.new (buffers cosine.new sine.new scratch.new)
        told.new result }
{
    let request = Request {
        start,
        length,
        allowance,
    };
    let answer = record::add_to(month, party, recording, request, cosine, sine, scratch);
    tell(answer, told)
}

// The length for which a month is begun.
#[unsafe(no_mangle)]
pub extern "C" fn mealbis_month_length(month: &Record) -> usize
    ensures { result ≡ length_of month.now }
{
    record::length_of(month)
}

// The number of blocks that the party has added to a month.
#[unsafe(no_mangle)]
pub extern "C" fn mealbis_month_blocks(month: &Record, party: usize, told: &mut [i64; 1]) -> u32
    ensures { NumberTold party month.now told.new result }
{
    let answer = record::block_number(month, party);
    *told = [answer.unwrap_or(0)];
    number_told(&answer)
}

// Both sums of the party for k, of the cosine and of the sine.
#[unsafe(no_mangle)]
pub extern "C" fn mealbis_month_sums(
    month: &Record,
    party: usize,
    k: usize,
    told: &mut [i64; 2],
) -> u32
    ensures { SumsTold party month.now k told.new result }
{
    let answer = record::sums_at(month, party, k);
    *told = match answer {
        Ok(sums) => [sums.cosine, sums.sine],
        Err(_) => [0, 0],
    };
    number_told(&answer)
}

// ---- the other calls

// All six counts of a length: products and sums of the DCT, of Spectrum and of Pair.
#[unsafe(no_mangle)]
pub extern "C" fn mealbis_counts(length: usize, told: &mut [u64; 6]) -> u32
    ensures { CountsTold length told.new result }
{
    let answer = spectra::count_query(length);
    *told = match answer {
        Ok(counts) => [
            counts.dct.products,
            counts.dct.sums,
            counts.spectrum.products,
            counts.spectrum.sums,
            counts.pair.products,
            counts.pair.sums,
        ],
        Err(_) => [0; 6],
    };
    number_told(&answer)
}

// Strain back from a stored cosine block; it tells the place.
#[unsafe(no_mangle)]
pub extern "C" fn mealbis_inverse_dct(
    coefficients: &[i32],
    length: usize,
    values: &mut [i32],
    told: &mut [u64; 1],
) -> u32
    ensures { InverseTold coefficients.now length values.old values.new told.new result }
{
    let answer = inverse::inverse_dct(coefficients, length, values);
    *told = match answer {
        Ok(()) => [0],
        Err(refusal) => [refusal.place() as u64],
    };
    number_told(&answer)
}

// The page of a stored spectrum, into a lent buffer; it tells its bytes.
#[unsafe(no_mangle)]
pub extern "C" fn mealbis_page(
    cosine: &[i32],
    sine: &[i32],
    length: usize,
    page: &mut [u8],
    told: &mut [u64; 1],
) -> u32
    ensures { PageTold cosine.now sine.now length page.old page.new
        told.new result }
{
    let answer = pages::fill_page(cosine, sine, length, page);
    *told = [answer.unwrap_or(0) as u64];
    number_told(&answer)
}

// A pair file, to two recordings; it tells the samples of each, the length of a block and the place.
#[unsafe(no_mangle)]
pub extern "C" fn mealbis_read(
    file: &[u8],
    a: &mut [i32],
    b: &mut [i32],
    told: &mut [u64; 3],
) -> u32
    ensures { ReadTold file.now a.old b.old a.new b.new
        told.new result }
{
    let answer = reader::read(file, a, b);
    *told = match answer {
        Ok(sizes) => [sizes.samples as u64, sizes.length as u64, 0],
        Err(refusal) => [0, 0, refusal.place() as u64],
    };
    number_told(&answer)
}

// The pair file of two recordings, into a lent buffer; it tells its bytes and the place.
#[unsafe(no_mangle)]
pub extern "C" fn mealbis_write(
    a: &[i32],
    b: &[i32],
    length: usize,
    file: &mut [u8],
    told: &mut [u64; 2],
) -> u32
    ensures { WriteTold a.now b.now length file.old file.new
        told.new result }
{
    let answer = writer::write(a, b, length, file);
    *told = match answer {
        Ok(bytes) => [bytes as u64, 0],
        Err(refusal) => [0, refusal.place() as u64],
    };
    number_told(&answer)
}
