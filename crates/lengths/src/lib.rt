#![tactic(auto)]

// The eleven lengths of a block.
ghost use Rattle.std.specs.Prelude.{true, ◌≡◌};
ghost use Rattle.lengths.specs.Block.{is_length};

// Whether n is one of the eleven lengths 1, 2, 4 .. 1,024. (By count_ones and not is_power_of_two: document 01 names this form.)
#[tactic(auto, using(crate::proofs::ElevenLengths::length_digit, crate::proofs::ElevenLengths::too_long))]
pub fn is_length(n: usize) -> bool
    ensures { result ≡ is_length n }
{
    n <= 1024 && n.count_ones() == 1
}

// The length of a block: a number of samples that is one of the eleven.
#[derive(Clone, Copy)]
pub struct Length {
    pub samples: usize,
    pub ghost is_length: { is_length samples ≡ true },
}

// What is told of a number that is none of the eleven.
#[derive(Clone, Copy)]
pub struct NoLength;

impl TryFrom<usize> for Length {
    type Error = NoLength;

    ghost use Rattle.lengths.specs.Lengths.{LengthOf};

    ghost try_from_gives = { LengthOf };

    fn try_from(n: usize) -> Result<Length, NoLength> {
        if is_length(n) {
            Ok(Length { samples: n })
        } else {
            Err(NoLength)
        }
    }
}
