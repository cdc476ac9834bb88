// The limits of an image's fields.
ghost use Rattle.std.specs.Prelude.{◌≡◌, ℕ, Option as Maybe};
ghost use Rattle.roll.specs.Fields.{unless_outside};
ghost use Rattle.roll.specs.Limits.{no_code, participant_fault, account_fault};

use crate::field::{FieldFault, unless};
use image::{AccountRecord, ParticipantRecord, Wide};

// The highest code.
const LAST_CODE: u32 = 999_999;
// The largest sum of a participant.
const SUM_LIMIT: u32 = 4_000_000_000;
// The largest funds and the largest overnight money of an account.
const MONEY_LIMIT: u64 = 9_000_000_000;

// Is this no code?
fn is_no_code(code: u32) -> bool
    ensures { result ≡ no_code code }
{
    !(1..=LAST_CODE).contains(&code)
}

// A record whose fields have limits.
pub(crate) trait Limited: Wide + Copy {
    // Its first field outside its limits, by the byte of the record where it begins.
    ghost faulty: { Self → Maybe ℕ };

    // Tests its fields, in their order.
    fn tested(&self) -> Result<(), FieldFault>
        ensures tells_its_first_fault { result ≡ unless_outside (faulty self.now) };
}

impl Limited for ParticipantRecord {
    ghost faulty = { participant_fault };

    fn tested(&self) -> Result<(), FieldFault> {
        unless(is_no_code(self.code), 0)?;
        unless(self.futures > SUM_LIMIT, 4)?;
        unless(self.otc > SUM_LIMIT, 8)?;
        unless(self.margin > SUM_LIMIT, 12)?;
        unless(self.adjusted > SUM_LIMIT, 16)?;
        unless(self.scope > 1, 20)
    }
}

impl Limited for AccountRecord {
    ghost faulty = { account_fault };

    fn tested(&self) -> Result<(), FieldFault> {
        unless(is_no_code(self.code), 0)?;
        unless(is_no_code(self.owner), 4)?;
        unless(self.funds > MONEY_LIMIT, 8)?;
        unless(self.overnight > MONEY_LIMIT, 16)
    }
}
