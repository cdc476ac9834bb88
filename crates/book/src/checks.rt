// The checks of a roll's records against each other.
ghost use Rattle.std.specs.Prelude.{◌≡◌, ◌<◌, length, IfSome};
ghost use Rattle.roll.specs.Standing.{standing};
ghost use Rattle.book.specs.Faults.{check_number};
ghost use Rattle.book.specs.Checks.{first_used, first_place};

use roll::{Coded, Roll, with_code};

// The most that one participant's accounts hold together.
const PARTICIPANT_LIMIT: u64 = 9_000_000_000;

// The checks, in their order. An enum and no closures: a fault carries the check that a record failed, and callers compare it.
#[derive(Clone, Copy, Debug, PartialEq, Eq)]
pub enum RollCheck {
    // A participant's code was used by an earlier participant.
    ParticipantTwice,
    // An account's code was used by an earlier account.
    AccountTwice,
    // An account's owner is not in the roll.
    OwnerUnknown,
    // A participant's accounts hold more than the limit together.
    AboveLimit,
}

// The first record of a row whose code an earlier one has.
fn first_twice<C: Coded>(row: &[C]) -> Option<usize>
    ensures first { result ≡ first_used C.called row.now }
    ensures within { IfSome result (λ place. place < length row.now) }
{
    row.iter().enumerate().position(|(place, record)| with_code(record.code(), &row[..place]) > 0)
}

impl RollCheck {
    // The place of the first record that fails it.
    fn place(self, roll: &Roll) -> Option<usize>
        ensures first { result ≡ first_place self (standing roll.now) }
        ensures within { IfSome result (λ place. place < 128) }
    {
        let participants = roll.participants();
        let accounts = roll.accounts();
        match self {
            RollCheck::ParticipantTwice => first_twice(participants),
            RollCheck::AccountTwice => first_twice(accounts),
            RollCheck::OwnerUnknown => accounts
                .iter()
                .position(|a| with_code(a.owner, participants) == 0),
            RollCheck::AboveLimit => participants
                .iter()
                .position(|p| roll.money_of(p.code) > PARTICIPANT_LIMIT),
        }
    }

    // The number by which a record that fails it is told. Two checks share one, so it is no discriminant.
    pub(crate) fn number(self) -> u8
        ensures { result ≡ check_number self }
    {
        match self {
            RollCheck::ParticipantTwice | RollCheck::AccountTwice => 15,
            RollCheck::OwnerUnknown => 16,
            RollCheck::AboveLimit => 17,
        }
    }

    // The first record that fails it. A byte tells which, since no table has more than 128.
    pub fn first_failing(self, roll: &Roll) -> Option<u8>
        ensures is_the_first_record_that_fails { result ≡ first_place self (standing roll.now) }
    {
        self.place(roll).map(|place| place as u8)
    }
}
