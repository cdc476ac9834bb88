// An account as it stands in the roll.
ghost use Rattle.std.specs.Prelude.{◌≤◌};

// Neither of its sums is ever above its limit, so that sums over accounts fit wherever they are reckoned. Another type than the
// image's `AccountRecord` on purpose: that may have any sums, as its bytes give them.
#[derive(Clone, Copy, Debug, PartialEq, Eq)]
pub struct Account {
    pub code: u32,
    pub owner: u32,
    pub funds: u64,
    pub overnight: u64,
    ghost funds_within: { funds ≤ 9000000000 },
    ghost overnight_within: { overnight ≤ 9000000000 },
}

impl Account {
    // What stands in a table's place before an account is written there. A constant, as of the other kinds of record: a `Default`
    // of this kind alone would be no plainer.
    pub(crate) const BLANK: Account = Account {
        code: 0,
        owner: 0,
        funds: 0,
        overnight: 0,
    };
}
