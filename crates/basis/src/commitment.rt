// The commitment basis.
ghost use Rattle.std.specs.Prelude.{◌≡◌, ◌^◌, ◌<◌, true};
ghost use Rattle.std.proofs.Common.{ap, arith, rules};
ghost use Rattle.basis.specs.Rules.{commitment, ceiling_at, commitment_ceiling};
ghost use Rattle.roll.proofs.Members.{member_within};
ghost use Rattle.basis.specs.CommitmentBasisLemmas.{small};
ghost use Rattle.std.proofs.lemmas.Bool.Decides.{nat_tests};

use crate::basis::Basis;
use roll::{Participant, Roll};

// Futures and OTC commitment together.
fn committed(participant: &Participant) -> u64
    ensures value { result ≡ commitment participant.now }
    ensures small { result < 2 ^ 33 }
{
    u64::from(participant.futures) + u64::from(participant.otc)
}

// Once the commitment, or three times it while more than one participant has defaulted.
fn committed_at_most(defaults: usize, participant: &Participant) -> u64
    ensures { result ≡ ceiling_at defaults participant.now }
{
    let once = committed(participant);
    if defaults > 1 { 3 * once } else { once }
}

// A participant weighs its commitment; the ceiling is once that, or three times while more than one defaulted this period.
#[derive(Clone, Copy, Debug)]
pub struct Commitment;

impl Basis for Commitment {
    ghost weighs = { λ _ _. commitment };

    ghost capped = { λ _. commitment_ceiling };

    ghost carried = { λ _ _. true };

    ghost weight_within_limit = { λ b s held p in'. omega (arith, small p (member_within s held p in')) };

    ghost ceiling_within_limit = { λ b s held p in'. let h = small p (member_within s held p in') in Prim.grind (arith, nat_tests) };

    ghost same_weight_in_any_order = { Prim.search rules };

    ghost same_ceiling_in_any_order = { λ b s t held kept alike p in'. ap (λ n. ceiling_at n p) alike.same_defaults };

    ghost one_answer_in_any_order = { Prim.search rules };

    fn weight(&self, roll: &Roll, place: usize) -> u64 {
        roll.participants().get(place).map_or(0, committed)
    }

    fn ceiling(&self, roll: &Roll, place: usize) -> u64 {
        roll.participants()
            .get(place)
            .map_or(0, |p| committed_at_most(roll.defaults(), p))
    }

    fn carries(&self, _roll: &Roll) -> bool {
        true
    }
}
