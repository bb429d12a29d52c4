// The refusals of documents 01 and 02.
ghost use Rattle.std.specs.Prelude.{◌≡◌};
ghost use Rattle.refusals.specs.Refusals.{number, place};
ghost use Rattle.refusals.specs.Answers.{verdict_of};

use lengths::NoLength;

// A case for each number, 1 to 16; 6 and 10 with the place of what they refuse.
#[derive(Clone, Copy)]
pub enum Refusal {
    BadLength,
    InputTooShort,
    ResultTooShort,
    ScratchTooShort,
    AllowanceTooSmall,
    OutOfRange(usize),
    BelowHeader,
    BadCount,
    BadFileLength,
    BeyondLimit(usize),
    RecordingsDiffer,
    BadFigures,
    OtherLength,
    MonthFull,
    UnknownParty,
    NotYielded,
}

impl Refusal {
    // The place of the first sample out of range, or of the first coefficient beyond its limit; 0 in every other refusal.
    pub fn place(self) -> usize
        ensures { result ≡ place (verdict_of self) }
    {
        match self {
            Refusal::OutOfRange(place) | Refusal::BeyondLimit(place) => place,
            _ => 0,
        }
    }
}

// The number of a refusal in documents 01 and 02.
impl From<Refusal> for u32 {
    ghost from_gives = { λ refusal n. n ≡ number (verdict_of refusal) };

    fn from(refusal: Refusal) -> u32 {
        match refusal {
            Refusal::BadLength => 1,
            Refusal::InputTooShort => 2,
            Refusal::ResultTooShort => 3,
            Refusal::ScratchTooShort => 4,
            Refusal::AllowanceTooSmall => 5,
            Refusal::OutOfRange(_) => 6,
            Refusal::BelowHeader => 7,
            Refusal::BadCount => 8,
            Refusal::BadFileLength => 9,
            Refusal::BeyondLimit(_) => 10,
            Refusal::RecordingsDiffer => 11,
            Refusal::BadFigures => 12,
            Refusal::OtherLength => 13,
            Refusal::MonthFull => 14,
            Refusal::UnknownParty => 15,
            Refusal::NotYielded => 16,
        }
    }
}

// A number that is none of the eleven lengths, told as a refusal.
impl From<NoLength> for Refusal {
    ghost use Rattle.refusals.specs.declared.refusal.Refusal.TheVariants.{BadLength};

    ghost from_gives = { λ none refusal. refusal ≡ BadLength };

    fn from(_none: NoLength) -> Self {
        Self::BadLength
    }
}
