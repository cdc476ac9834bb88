// A participant as it stands in the roll.
ghost use Rattle.std.specs.Prelude.{◌≡◌};
ghost use Rattle.roll.specs.Limits.{Gives, enrolled, participant_fault};
ghost use Rattle.roll.specs.Marks.{marked};

use crate::field::FieldFault;
use crate::limits::Limited;
use image::ParticipantRecord;

// Another type than the image's `ParticipantRecord` on purpose: there the scope may be any byte, and nobody is marked as in default.
#[derive(Clone, Copy, Debug, PartialEq, Eq)]
pub struct Participant {
    pub code: u32,
    pub futures: u32,
    pub otc: u32,
    pub margin: u32,
    pub adjusted: u32,
    // told to pay overnight money
    pub in_scope: bool,
    // for the life of the book
    pub in_default: bool,
}

impl Participant {
    // What stands in a table's place before a participant is written there. No derived `Default`: the constant is public and
    // stands, so that a `Default` would be a second blank beside it.
    pub const BLANK: Participant = Participant {
        code: 0,
        futures: 0,
        otc: 0,
        margin: 0,
        adjusted: 0,
        in_scope: false,
        in_default: false,
    };

    // Marks it as in default.
    pub fn mark(&mut self)
        ensures is_in_default_and_else_as_before { self.new ≡ marked self.old }
    {
        self.in_default = true;
    }
}

// Nobody is in default who is enrolled; a record with a field outside its limits enrols nobody, but tells the byte where the field
// begins.
impl TryFrom<ParticipantRecord> for Participant {
    type Error = FieldFault;

    ghost try_from_gives = { Gives participant_fault (λ p. p) enrolled };

    fn try_from(source: ParticipantRecord) -> Result<Participant, FieldFault> {
        source.tested()?;
        Ok(Participant {
            code: source.code,
            futures: source.futures,
            otc: source.otc,
            margin: source.margin,
            adjusted: source.adjusted,
            in_scope: source.scope == 1,
            in_default: false,
        })
    }
}
