// Bytes told by pairs of hexadecimal digits.
ghost use Rattle.std.specs.Prelude.{◌≡◌, vec_items};
ghost use Rattle.console.specs.Readings.{Tells, NotCounted};
ghost use Rattle.commands.specs.Hex.{digit_value, byte_of, bytes_of};

use console::ReadError;
use std::alloc::Global;

// The value of a digit, in either case.
fn digit(byte: u8) -> Option<u8>
    ensures { result ≡ digit_value byte }
{
    char::from(byte).to_digit(16).map(|value| value as u8)
}

// The byte of two digits.
fn pair(first: u8, second: u8) -> Option<u8>
    ensures { result ≡ byte_of (digit_value first) (digit_value second) }
{
    let high = digit(first)?;
    let low = digit(second)?;
    Some(high * 16 + low)
}

// The bytes that a word is, a pair of digits each. A word with a digit over is none, however long it is, before any is read.
// The library's `hex::decode` is no plainer: its errors name a digit and its place, which no answer prints, so that each would
// be mapped away and memory told apart, and what it gives is defined with those errors, which a proof would have to carry over.
pub(crate) fn hex(heap: Global, word: &[u8]) -> Result<Vec<u8>, ReadError>
    ensures { Tells (λ found. Some (vec_items found)) NotCounted result (bytes_of word.now) }
{
    if word.len() % 2 != 0 {
        return Err(ReadError::BadNumber);
    }
    let mut found = Vec::new(heap);
    let mut digits = word;
    while let [first, second, rest @ ..] = digits {
        let byte = pair(*first, *second).ok_or(ReadError::BadNumber)?;
        found.push(byte)?;
        digits = rest;
    }
    Ok(found)
}
