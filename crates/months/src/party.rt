// The two parties of a month. (A caller gives a number, since any other than 1 and 2 is answered with 15.)
ghost use Rattle.std.specs.Prelude.{◌≡◌};
ghost use Rattle.months.specs.Months.{account_at};
ghost use Rattle.months.specs.Parties.{number_of, PartyOf};

use crate::account;
use refusals::refusal::Refusal;

#[derive(Clone, Copy)]
pub enum Party {
    First,
    Second,
}

impl TryFrom<usize> for Party {
    type Error = Refusal;

    ghost try_from_gives = { PartyOf };

    fn try_from(party: usize) -> Result<Party, Refusal> {
        match party {
            1 => Ok(Party::First),
            2 => Ok(Party::Second),
            _ => Err(Refusal::UnknownParty),
        }
    }
}

impl Party {
    // The place of the party's account in a month's record.
    pub fn account_at(self) -> usize
        ensures { result ≡ account_at (number_of self) }
    {
        match self {
            Party::First => 1,
            Party::Second => 1 + account::WORDS,
        }
    }
}
