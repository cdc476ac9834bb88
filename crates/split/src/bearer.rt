// Who bears part of a sum: a code, which decides between equals, and a weight.
ghost use Rattle.std.specs.Prelude.{◌≡◌};
ghost use Rattle.split.specs.declared.bearer.Stake.{Stake};

// A bearer's code and its weight, nothing else.
#[derive(Clone, Copy, Debug, PartialEq, Eq)]
pub struct Stake {
    pub code: u32,
    pub weight: u64,
}

// Anything that can bear part of a sum: a participant, an account, a clearing house, a tranche.
pub trait Bearer {
    // What it bears: the code and the weight that its methods answer.
    ghost bears: { Self → Stake };

    // The number that tells it from every other bearer of its row.
    fn code(&self) -> u32
        ensures is_the_code_it_bears { result ≡ (bears self.now).code };

    // What it weighs against the others.
    fn weight(&self) -> u64
        ensures is_the_weight_it_bears { result ≡ (bears self.now).weight };
}

// A stake bears itself.
impl Bearer for Stake {
    ghost bears = { λ x. x };

    fn code(&self) -> u32 {
        self.code
    }

    fn weight(&self) -> u64 {
        self.weight
    }
}
