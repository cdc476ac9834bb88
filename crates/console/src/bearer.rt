// Bearers as they are told: CODE:WEIGHT.
ghost use Rattle.std.specs.Prelude.{◌≡◌, map, vec_items};
ghost use Rattle.console.specs.Bearers.{bearer_of, bearers_of};
ghost use Rattle.console.specs.Readings.{Tells, NotCounted};

use crate::error::ReadError;
use crate::numeral::number;
use crate::word::place_of;
use split::Stake;
use std::alloc::Global;

// The bearer that a word is: a code before its first colon, a weight after it. An `Option`, as of a verb.
fn bearer(word: &[u8]) -> Option<Stake>
    ensures { result ≡ bearer_of word.now }
{
    let at = place_of(b':', word)?;
    let code = number(&word[..at], u64::from(u32::MAX))?;
    let weight = number(&word[at + 1..], u64::MAX)?;
    Some(Stake {
        code: code as u32,
        weight,
    })
}

// The bearers that words are, in their order. No word may be no bearer.
pub(crate) fn bearers(heap: Global, words: &[Vec<u8>]) -> Result<Vec<Stake>, ReadError>
    ensures { Tells (λ found. Some (vec_items found)) NotCounted result (bearers_of (map vec_items words.now)) }
{
    let mut found = Vec::new(heap);
    for word in words {
        let stake = bearer(word.as_slice()).ok_or(ReadError::BadNumber)?;
        found.push(stake)?;
    }
    Ok(found)
}
