// The splitting itself: shares, or the reasons for them, written into lent places.
ghost use Rattle.std.specs.Prelude.{◌≡◌, map, length, OnOk};
ghost use Rattle.split.specs.Laws.{FairShares, SameInAnyOrder};
ghost use Rattle.split.specs.Reasons.{reasons as reasons_of};
ghost use Rattle.split.specs.Refusals.{answer, placed};
ghost use Rattle.split.specs.Shares.{shares as shares_of};

use crate::bearer::Bearer;
use crate::division::{Division, divide_all, whole_parts};
use crate::limits::{MOST_BEARERS, tested};
use crate::reason::{Reason, reckoned};
use crate::refusal::Refusal;
use rows::fill;

// Why each bearer gets its share of the sum. Refused as `split` is, by the number of places that are lent.
// The places stand beside the bearers, and in no row with them: there is no heap, so they are the caller's.
#[tactic(auto, using(crate::proofs::Reckoning::shares_are, crate::proofs::Accepting::accepted, crate::proofs::Accepting::as_many))]
pub fn explain<B: Bearer>(sum: u64, bearers: &[B], reasons: &mut [Reason]) -> Result<(), Refusal>
    ensures answers_as_defined { result ≡ answer sum (length reasons.old) (map B.bears bearers.now) }
    ensures places_as_defined { reasons.new ≡ placed result (reasons_of sum (map B.bears bearers.now)) reasons.old }
    ensures reasons_end_in_the_shares { map (λ reason. reason.share) (reasons_of sum (map B.bears bearers.now)) ≡ shares_of sum (map B.bears bearers.now) }
    ensures fair_shares { OnOk result (FairShares sum (map B.bears bearers.now) (map (λ reason. reason.share) reasons.new)) }
    ensures same_in_any_order { SameInAnyOrder sum (length reasons.old) (map B.bears bearers.now) }
{
    let total = tested(sum, reasons.len(), bearers)?;
    let mut table = [Division::BLANK; MOST_BEARERS];
    divide_all(sum, total, bearers, &mut table);
    let row = &table[..bearers.len()];
    let odd = sum - whole_parts(row);
    fill(
        row,
        reasons,
        |division| reckoned(total, odd, row, *division),
    );
    Ok(())
}

// Splits the sum among the bearers in proportion to their weights, one share for each place from the first on.
// The places are the caller's, as of `explain`.
#[tactic(auto, using(crate::proofs::Promises::same_in_any_order, crate::proofs::Accepting::as_many, crate::proofs::Accepting::too_few_places, crate::proofs::Accepting::enough_places))]
pub fn split<B: Bearer>(sum: u64, bearers: &[B], shares: &mut [u64]) -> Result<(), Refusal>
    ensures answers_as_defined { result ≡ answer sum (length shares.old) (map B.bears bearers.now) }
    ensures places_as_defined { shares.new ≡ placed result (shares_of sum (map B.bears bearers.now)) shares.old }
    ensures fair_shares { OnOk result (FairShares sum (map B.bears bearers.now) shares.new) }
    ensures same_in_any_order { SameInAnyOrder sum (length shares.old) (map B.bears bearers.now) }
{
    if shares.len() < bearers.len() {
        return Err(Refusal::Limit);
    }
    let mut reasons = [Reason::BLANK; MOST_BEARERS];
    explain(sum, bearers, &mut reasons)?;
    fill(&reasons[..bearers.len()], shares, |reason| reason.share);
    Ok(())
}
