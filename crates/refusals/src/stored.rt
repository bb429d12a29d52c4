// The tests of a call on a stored block, which every such call makes before it writes anything.
ghost use Rattle.std.specs.Prelude.{[], ◌∷◌};
ghost use Rattle.refusals.specs.Calls.{stored_tests};
ghost use Rattle.refusals.specs.Tests.{Tells};

use crate::refusal::Refusal;
use lengths::Length;

// The tests 1 and 2, of a block of which `needed` coefficients are read. Of several kinds of coefficients the fewest that are stored are
// given.
#[tactic(auto, unfolding(crate::specs::Calls::stored_tests))]
pub fn test_stored(length: usize, stored: usize, needed: usize) -> Result<(), Refusal>
    ensures { Tells (stored_tests length needed (stored ∷ [])) result }
{
    Length::try_from(length)?;
    if stored < needed {
        return Err(Refusal::InputTooShort);
    }
    Ok(())
}
