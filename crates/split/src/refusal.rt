// Why a split is refused.
ghost use Rattle.std.specs.Prelude.{◌≡◌};
ghost use Rattle.split.specs.Refusals.{number_of};

// Each with the number by which it is told.
#[derive(Clone, Copy, Debug, PartialEq, Eq)]
pub enum Refusal {
    // The sum, a weight or the number of bearers is above its limit, or there are fewer places than bearers.
    Limit = 1,
    // A code stands twice in the row.
    CodeTwice = 15,
    // There is a sum to bear and no weight to bear it.
    NoWeight = 6,
}

impl Refusal {
    // The number by which the refusal is told.
    pub fn number(self) -> u8
        ensures is_the_listed_number { result ≡ number_of self }
    {
        self as u8
    }
}
