// What is tested before a split: limits, codes, weight.
ghost use Rattle.std.specs.Prelude.{◌≡◌, ◌≤◌, map, IfOk};
ghost use Rattle.std.specs.Result.{result_map_both as told};
ghost use Rattle.split.specs.Refusals.{answer, too_heavy, with_code, shares_code, repeated as repeats};
ghost use Rattle.split.specs.Shares.{all_weights};

use crate::bearer::Bearer;
use crate::refusal::Refusal;
use rows::count_where;

// The largest sum that is split.
const SUM_LIMIT: u64 = 1_000_000_000;
// The largest weight of one bearer.
const WEIGHT_LIMIT: u64 = 9_000_000_000;
// The most bearers of one row.
pub const MOST_BEARERS: usize = 128;

// How many bearers weigh more than the limit.
fn heavy<B: Bearer>(bearers: &[B]) -> usize
    ensures { result ≡ too_heavy (map B.bears bearers.now) }
{
    count_where(bearers, |bearer| bearer.weight() > WEIGHT_LIMIT)
}

// How many bearers have this code. The roll counts its records by a trait of its own, which a bearer need not have.
fn bearing<B: Bearer>(code: u32, bearers: &[B]) -> usize
    ensures { result ≡ with_code code (map B.bears bearers.now) }
{
    count_where(bearers, |bearer| bearer.code() == code)
}

// Does another bearer of the row have its code? Its own counts as one.
#[tactic(auto, unfolding(crate::specs::Refusals::shares_code))]
fn shares_its_code<B: Bearer>(bearer: &B, row: &[B]) -> bool
    ensures { result ≡ shares_code (map B.bears row.now) (B.bears bearer.now) }
{
    bearing(bearer.code(), row) > 1
}

// How many bearers share their code with another.
fn repeated<B: Bearer>(bearers: &[B]) -> usize
    ensures { result ≡ repeats (map B.bears bearers.now) }
{
    count_where(bearers, |bearer| shares_its_code(bearer, bearers))
}

// All the weights together, where they are known to be few and small.
fn weigh<B: Bearer>(bearers: &[B]) -> u64
    requires { all_weights (map B.bears bearers.now) ≤ 1152000000000 }
    ensures { result ≡ all_weights (map B.bears bearers.now) }
{
    bearers.iter().map(|bearer| bearer.weight()).sum()
}

// Tests what a split asks, in the order of the refusals, and answers all the weights together.
#[tactic(auto, unfolding(crate::specs::Refusals::answer), using(crate::proofs::Accepting::as_many, crate::proofs::Accepting::weights_fit))]
pub(crate) fn tested<B: Bearer>(sum: u64, places: usize, bearers: &[B]) -> Result<u64, Refusal>
    ensures answers { told (λ _. tt) (λ e. e) result ≡ answer sum places (map B.bears bearers.now) }
    ensures weighs { IfOk result (λ total. total ≡ all_weights (map B.bears bearers.now)) }
{
    if sum > SUM_LIMIT {
        return Err(Refusal::Limit);
    }
    if bearers.len() > MOST_BEARERS {
        return Err(Refusal::Limit);
    }
    if places < bearers.len() {
        return Err(Refusal::Limit);
    }
    if heavy(bearers) > 0 {
        return Err(Refusal::Limit);
    }
    if repeated(bearers) > 0 {
        return Err(Refusal::CodeTwice);
    }
    let total = weigh(bearers);
    if sum > 0 && total == 0 {
        return Err(Refusal::NoWeight);
    }
    Ok(total)
}
