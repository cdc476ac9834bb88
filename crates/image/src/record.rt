// The records of an image, as they are written there.
ghost use Rattle.image.specs.Layout.{participant_at, account_at};

use crate::stored::{Stored, Wide};

// A participant as its bytes give it: the scope may be any byte, and there is no mark of default. So the roll's `Participant` is
// another type on purpose.
#[derive(Clone, Copy, Debug, PartialEq, Eq)]
pub struct ParticipantRecord {
    pub code: u32,
    pub futures: u32,
    pub otc: u32,
    pub margin: u32,
    pub adjusted: u32,
    pub scope: u8,
}

impl ParticipantRecord {
    // What stands in a table's place before a record is written there. No derived `Default`: the constant is public and stands,
    // so that a `Default` would be a second blank beside it.
    pub const BLANK: ParticipantRecord = ParticipantRecord {
        code: 0,
        futures: 0,
        otc: 0,
        margin: 0,
        adjusted: 0,
        scope: 0,
    };
}

impl Wide for ParticipantRecord {
    ghost WIDTH = { 21 };

    const WIDTH: usize = 21;
}

impl Stored for ParticipantRecord {
    ghost stored_at = { participant_at };

    fn read_at(bytes: &[u8], at: usize) -> ParticipantRecord {
        ParticipantRecord {
            code: u32::read_at(bytes, at),
            futures: u32::read_at(bytes, at + 4),
            otc: u32::read_at(bytes, at + 8),
            margin: u32::read_at(bytes, at + 12),
            adjusted: u32::read_at(bytes, at + 16),
            scope: u8::read_at(bytes, at + 20),
        }
    }
}

// An account as its bytes give it, with any sums. So the roll's `Account`, whose sums are within their limits, is another type on
// purpose.
#[derive(Clone, Copy, Debug, PartialEq, Eq)]
pub struct AccountRecord {
    pub code: u32,
    pub owner: u32,
    pub funds: u64,
    pub overnight: u64,
}

impl AccountRecord {
    // What stands in a table's place before a record is written there. A `Default` beside it would be a second blank.
    pub const BLANK: AccountRecord = AccountRecord {
        code: 0,
        owner: 0,
        funds: 0,
        overnight: 0,
    };
}

impl Wide for AccountRecord {
    ghost WIDTH = { 24 };

    const WIDTH: usize = 24;
}

impl Stored for AccountRecord {
    ghost stored_at = { account_at };

    fn read_at(bytes: &[u8], at: usize) -> AccountRecord {
        AccountRecord {
            code: u32::read_at(bytes, at),
            owner: u32::read_at(bytes, at + 4),
            funds: u64::read_at(bytes, at + 8),
            overnight: u64::read_at(bytes, at + 16),
        }
    }
}
