// Records that have a code.
ghost use Rattle.std.specs.Prelude.{◌≡◌, ℕ, count_by, nat_eq};

use crate::account::Account;
use crate::participant::Participant;
use rows::count_where;

// A record that has a code.
pub trait Coded {
    // The code that it is called by.
    ghost called: { Self → ℕ };

    fn code(&self) -> u32
        ensures is_its_code { result ≡ called self.now };
}

// A code is a field of either kind: an impl of a line each is plainer than a common part of both.
impl Coded for Participant {
    ghost called = { λ p. p.code };

    fn code(&self) -> u32 {
        self.code
    }
}

impl Coded for Account {
    ghost called = { λ a. a.code };

    fn code(&self) -> u32 {
        self.code
    }
}

// How many of the row have this code. The splitting counts its bearers by a trait of its own, which a record need not have.
pub fn with_code<C: Coded>(code: u32, row: &[C]) -> usize
    ensures counts_those_with_the_code { result ≡ count_by (λ x. nat_eq (C.called x) code) row.now }
{
    count_where(row, |record| record.code() == code)
}
