// Opening a book, and the check of an image.
ghost use Rattle.std.specs.Prelude.{◌≡◌, IfOk, OnErr, OnOk};
ghost use Rattle.std.specs.Result.{result_map_both};
ghost use Rattle.roll.specs.Holdable.{Holdable};
ghost use Rattle.roll.specs.Limits.{roll_bytes};
ghost use Rattle.roll.specs.Standing.{standing};
ghost use Rattle.book.specs.After.{model_after};
ghost use Rattle.book.specs.Model.{model, fresh, empty_roll, standing_of};
ghost use Rattle.book.specs.Opening.{passed, checked as checked_as_defined, opening, check_value, Tells};

use crate::checks::RollCheck;
use crate::fault::OpenFault;
use crate::parts::{Outstanding, Period, Termination};
use crate::state::Book;
use basis::Basis;
use image::{MOST_ACCOUNTS, MOST_PARTICIPANTS};
use roll::Roll;

// One check, over its whole table.
#[tactic(auto, unfolding(crate::specs::Opening::passed))]
fn pass(check: RollCheck, roll: &Roll) -> Result<(), OpenFault>
    ensures { result ≡ passed check (standing roll.now) }
{
    check
        .first_failing(roll)
        .map_or(Ok(()), |place| Err(OpenFault::Record(check, place)))
}

// The checks of the records against each other, in their order. Four calls, and no loop: the order is read here as the
// definition has it, and a list of the checks would be one more thing to keep beside the enum.
fn checked(roll: &Roll) -> Result<(), OpenFault>
    ensures { result ≡ checked_as_defined (standing roll.now) }
{
    pass(RollCheck::ParticipantTwice, roll)?;
    pass(RollCheck::AccountTwice, roll)?;
    pass(RollCheck::OwnerUnknown, roll)?;
    pass(RollCheck::AboveLimit, roll)
}

// A roll that a book is opened with: one that a book can hold, with nobody counted as defaulted.
#[derive(Clone, Copy)]
struct FreshRoll {
    roll: Roll,
    ghost holdable: { Holdable (standing roll) },
    ghost undefaulted: { (standing roll).defaults ≡ 0 },
}

// The roll that an image opens a book with, or the first fault: what both the opening and the check go by.
fn admitted(image: &[u8]) -> Result<FreshRoll, OpenFault>
    ensures decides { result_map_both (λ admitted. standing admitted.roll) (λ fault. fault) result ≡ opening image.now }
    ensures exact { IfOk result (λ admitted. roll_bytes (standing admitted.roll) ≡ image.now) }
{
    let roll = roll::read(image)?;
    checked(&roll)?;
    Ok(FreshRoll { roll })
}

// A book on a roll, with nothing told yet.
fn fresh_book<B: Basis>(basis: B, admitted: FreshRoll) -> Book<B>
    ensures stands { model result ≡ fresh basis (standing admitted.roll) }
    ensures same { result.roll ≡ admitted.roll }
{
    Book {
        basis,
        roll: admitted.roll,
        period: Period::Closed,
        owed: [0; MOST_PARTICIPANTS],
        outstanding: [Outstanding::NONE; MOST_ACCOUNTS],
        declarations: 0,
        termination: Termination::Partial,
        entries: 0,
        lines: 0,
    }
}

impl<B: Basis> Book<B> {
    // A book before its first opening: no participants and no accounts.
    pub fn new(basis: B) -> Book<B>
        ensures is_empty { model result ≡ fresh basis empty_roll }
    {
        let roll = Roll::empty();
        fresh_book(basis, FreshRoll { roll })
    }

    // Opens the book afresh, on the basis and the image that are given.
    #[tactic(auto, using(crate::proofs::Modelling::modelled))]
    pub fn open(&mut self, basis: B, image: &[u8]) -> Result<(), OpenFault>
        ensures answers_as_defined { result ≡ result_map_both (λ _. tt) (λ fault. fault) (opening image.now) }
        ensures stands_as_defined { model self.new ≡ model_after (opening image.now) basis (model self.old) }
        ensures refused_leaves_every_field { OnErr result (self.new ≡ self.old) }
        ensures records_have_the_bytes_read { OnOk result (roll_bytes (standing_of (model self.new)) ≡ image.now) }
    {
        *self = fresh_book(basis, admitted(image)?);
        Ok(())
    }

    // The roll as it stands. Every book's roll is one that a book can hold.
    #[tactic(auto, using(crate::proofs::Modelling::modelled))]
    pub fn roll(&self) -> &Roll
        ensures stands_as_the_book_does { standing result.now ≡ standing_of (model self.now) }
        ensures is_one_that_a_book_can_hold { Holdable (standing result.now) }
    {
        &self.roll
    }

    // The basis on which it was opened.
    #[tactic(auto, unfolding(crate::specs::Model::model))]
    pub fn basis(&self) -> B
        ensures is_the_books_basis { result ≡ (model self.now).basis }
    {
        self.basis
    }
}

// For the margin system, which is written in C and takes one number: the refusal that opening from these bytes would give, as
// 10,000 × its number + its place, or 0.
#[tactic(auto, using(crate::proofs::Telling::tells))]
pub fn allocation_book_check(image: &[u8]) -> u32
    ensures tells_what_opening_would_answer { result ≡ check_value (opening image.now) }
    ensures number_and_place_can_be_read_off { Tells result (opening image.now) }
{
    match admitted(image) {
        Ok(_) => 0,
        Err(fault) => 10_000 * u32::from(fault.number()) + u32::from(fault.place()),
    }
}
