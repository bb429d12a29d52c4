#![tactic(auto)]

// Month sums beside the blocks, of two parties (document 02, (vi) and (viii)). A month is a value that only `begin` and `add` make: its
// words are private, and in each party's account they hold some history. A refusal leaves the month as it was.
mod account;
mod party;
pub mod record;

ghost use Rattle.months.specs.Months.{HoldsHistories};

use account::Sums;
use counts::tally::Tally;
use record::Record;
use refusals::call::Request;
use refusals::refusal::Refusal;

#[derive(Clone, Copy)]
pub struct Month {
    words: Record,
    ghost held: { ∥ HoldsHistories words ∥₁ },
}

// What beginning gives back is a struct, since a refusal gives a month, too.
#[derive(Drop)]
pub struct Begun {
    pub month: Month,
    pub answer: Result<(), Refusal>,
}

impl Month {
    ghost use Rattle.std.specs.Prelude.{◌≡◌, ◌≤◌, nat_abs, IfOk};
    ghost use Rattle.spectra.specs.Promises.{buffers};
    ghost use Rattle.months.specs.Accounts.{most_blocks};
    ghost use Rattle.months.specs.Months.{length_of};
    ghost use Rattle.months.specs.Answers.{SmallSums};
    ghost use Rattle.months.specs.Promises.{given, Beginning, Adding, NumberPromise, SumsPromise};

    // A month for one length; where the length is refused, one to which no block can be added.
    pub fn begin(length: usize) -> Begun
        ensures { Beginning length result }
    {
        let mut words = [0; record::WORDS];
        let answer = record::begin_in(&mut words, length);
        Begun {
            month: Month { words },
            answer,
        }
    }

    // Spectrum, and its coefficients added for the party. A refusal leaves the month as it was.
    // The lent buffers stay parameters, here and below: no clause can say what is left in a struct that holds them.
    pub fn add(
        &mut self,
        party: usize,
        recording: &[i32],
        request: Request,
        cosine: &mut [i32],
        sine: &mut [i32],
        scratch: &mut [i64],
    ) -> Result<Tally, Refusal>
        ensures { Adding party (given recording.now request.start request.length request.allowance
            (buffers cosine.old sine.old scratch.old)) self.old self.new
            (buffers cosine.new sine.new scratch.new) result }
    {
        record::add_to(
            &mut self.words,
            party,
            recording,
            request,
            cosine,
            sine,
            scratch,
        )
    }

    // ---- for the desk

    // The length for which a month is begun; 0 where beginning was refused, as C is told.
    pub fn length(&self) -> usize
        ensures { result ≡ length_of self.now.words }
    {
        record::length_of(&self.words)
    }

    // The number of blocks that the party has added.
    pub fn block_number(&self, party: usize) -> Result<i64, Refusal>
        ensures promise { NumberPromise party self.now.words result }
        ensures small { IfOk result (λ n. nat_abs n ≤ most_blocks) }
    {
        record::block_number(&self.words, party)
    }

    // Both sums of the party for k, where Spectrum yields that k.
    #[tactic(auto, using(crate::proofs::Held::both_small))]
    pub fn sums_at(&self, party: usize, k: usize) -> Result<Sums, Refusal>
        ensures promise { SumsPromise party self.now.words k result }
        ensures small { IfOk result SmallSums }
    {
        record::sums_at(&self.words, party, k)
    }
}
