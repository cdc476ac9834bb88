// One bearer's division, every bearer's, and which of two comes first for an odd dollar.
ghost use Rattle.std.specs.Prelude.{◌≡◌, ◌≤◌, ◌++◌, map, length, drop, sum_by};
ghost use Rattle.split.specs.Refusals.{too_heavy};
ghost use Rattle.split.specs.Shares.{precedes as comes_first, divide as division_of, rank as rank_of};

use crate::bearer::Bearer;
use rows::{count_where, fill};
use std::cmp::Reverse;

// What sum x weight / all weights comes to for one bearer.
#[derive(Clone, Copy, Debug, PartialEq, Eq)]
pub struct Division {
    pub code: u32,
    pub weight: u64,
    // the quotient, rounded down
    pub whole: u64,
    // what the division leaves
    pub remainder: u64,
}

impl Division {
    // What stands in a table's place before a division is written there. A Default beside it would be a second blank.
    pub const BLANK: Division = Division {
        code: 0,
        weight: 0,
        whole: 0,
        remainder: 0,
    };

    // The larger remainder comes first; between equal remainders the lower code.
    pub fn precedes(&self, other: &Division) -> bool
        ensures larger_remainder_then_lower_code { result ≡ comes_first self.now other.now }
    {
        (Reverse(self.remainder), self.code) < (Reverse(other.remainder), other.code)
    }

    // How many of the row come first.
    #[tactic(auto, unfolding(crate::specs::Shares::rank))]
    pub fn rank(&self, row: &[Division]) -> usize
        ensures counts_those_before { result ≡ rank_of row.now self.now }
    {
        count_where(row, |other| other.precedes(self))
    }
}

// One bearer's division. Where there is no weight at all the sum is 0, and so are both parts.
fn divide<B: Bearer>(sum: u64, total: u64, bearer: &B) -> Division
    requires small { sum ≤ 1000000000 }
    requires light { (B.bears bearer.now).weight ≤ 9000000000 }
    ensures { result ≡ division_of sum total (B.bears bearer.now) }
{
    let code = bearer.code();
    let weight = bearer.weight();
    let product = sum * weight;
    Division {
        code,
        weight,
        whole: product.checked_div(total).unwrap_or(0),
        remainder: product.checked_rem(total).unwrap_or(product),
    }
}

// Every bearer's division, one for each place from the first on; spare places stay. The places are lent, as everywhere: a table
// that is made here and handed out is copied on its way, which takes longer than the divisions of a few bearers.
pub(crate) fn divide_all<B: Bearer>(sum: u64, total: u64, bearers: &[B], table: &mut [Division])
    requires small { sum ≤ 1000000000 }
    requires light { too_heavy (map B.bears bearers.now) ≡ 0 }
    requires room { length bearers.now ≤ length table.old }
    ensures { table.new ≡ map (division_of sum total) (map B.bears bearers.now) ++ drop (length bearers.now) table.old }
{
    fill(bearers, table, |bearer| divide(sum, total, bearer));
}

// All the whole parts of a row together.
pub(crate) fn whole_parts(row: &[Division]) -> u64
    requires { sum_by (λ d. d.whole) row.now ≤ 1000000000 }
    ensures { result ≡ sum_by (λ d. d.whole) row.now }
{
    row.iter().map(|division| division.whole).sum()
}
