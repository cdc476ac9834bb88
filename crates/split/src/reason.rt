// Why a bearer gets its share: every number that the rule looks at.
ghost use Rattle.std.specs.Prelude.{◌≡◌, ◌≤◌};
ghost use Rattle.split.specs.Reasons.{reckon};

use crate::division::Division;

// One bearer's share with the numbers that it follows from.
#[derive(Clone, Copy, Debug, PartialEq, Eq)]
pub struct Reason {
    // sum x weight / all weights: the bearer's code, weight, whole part and remainder
    pub division: Division,
    // all the weights of the row together
    pub total: u64,
    // how many odd dollars the whole parts leave
    pub odd: u64,
    // how many bearers come before this one for an odd dollar
    pub rank: usize,
    // whether it gets an odd dollar: its rank is below the number of odd dollars
    pub extra: bool,
    // the whole part, and one more where it gets an odd dollar
    pub share: u64,
}

impl Reason {
    // What stands in a table's place before a reason is written there. A Default beside it would be a second blank.
    pub const BLANK: Reason = Reason {
        division: Division::BLANK,
        total: 0,
        odd: 0,
        rank: 0,
        extra: false,
        share: 0,
    };
}

// The reason of one division of the row.
pub(crate) fn reckoned(total: u64, odd: u64, row: &[Division], division: Division) -> Reason
    requires { division.whole ≤ 1000000000 }
    ensures { result ≡ reckon total odd row.now division }
{
    let rank = division.rank(row);
    let extra = (rank as u64) < odd;
    let share = division.whole + u64::from(extra);
    Reason {
        division,
        total,
        odd,
        rank,
        extra,
        share,
    }
}
