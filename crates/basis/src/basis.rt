// What every basis answers and owes.
ghost use Rattle.std.specs.Prelude.{◌≡◌, ℕ, Bool};
ghost use Rattle.roll.specs.declared.participant.Participant.{Participant as Member};
ghost use Rattle.roll.specs.Standing.{Standing, standing};
ghost use Rattle.basis.specs.Meanings.{at_place, Within, SameInAnyOrder, OneAnswer};

use roll::Roll;

// A basis reads the roll as it stands and never refuses. A place beyond the roll has weight 0 and ceiling 0.
pub trait Basis: Copy {
    // Its meaning: what a participant weighs, what its ceiling is, and whether overnight losses are carried.
    ghost weighs: { Self → Standing → Member → ℕ };

    ghost capped: { Self → Standing → Member → ℕ };

    ghost carried: { Self → Standing → Bool };

    // What the participant at a place weighs.
    fn weight(&self, roll: &Roll, place: usize) -> u64
        ensures is_the_weight_it_means { result ≡ at_place (weighs self.now) (standing roll.now) place };

    // The ceiling of the participant at a place.
    fn ceiling(&self, roll: &Roll, place: usize) -> u64
        ensures is_the_ceiling_it_means { result ≡ at_place (capped self.now) (standing roll.now) place };

    // Whether overnight losses are carried.
    fn carries(&self, roll: &Roll) -> bool
        ensures is_the_answer_it_means { result ≡ carried self.now (standing roll.now) };

    // On a roll that a book can hold, a weight is at most 9,000,000,000 and a ceiling at most 24,000,000,000.
    ghost weight_within_limit: { (b : Self) → Within (weighs b) 9000000000 };

    ghost ceiling_within_limit: { (b : Self) → Within (capped b) 24000000000 };

    // Rolls that are alike but for the order of their records have the same weights, ceilings and answer.
    ghost same_weight_in_any_order: { (b : Self) → SameInAnyOrder (weighs b) };

    ghost same_ceiling_in_any_order: { (b : Self) → SameInAnyOrder (capped b) };

    ghost one_answer_in_any_order: { (b : Self) → OneAnswer (carried b) };
}
