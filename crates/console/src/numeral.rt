// Decimal numbers.
ghost use Rattle.std.specs.Prelude.{◌≡◌};
ghost use Rattle.console.specs.Numerals.{longer, after_plus, number_of};

// The number so far with one more digit, or none where the byte is no digit or the number passes the largest.
fn with_digit(value: u64, byte: u8, largest: u64) -> Option<u64>
    ensures { result ≡ longer largest value byte }
{
    let digit = char::from(byte).to_digit(10)?;
    let next = value.checked_mul(10)?.checked_add(u64::from(digit))?;
    Some(next).filter(|n| *n <= largest)
}

// The word without a leading `+`.
fn unsigned(word: &[u8]) -> &[u8]
    ensures { result.now ≡ after_plus word.now }
{
    match word {
        [b'+', digits @ ..] => digits,
        _ => word,
    }
}

// The number that a word is, if it is one and at most the largest. An `Option`, as its public clause says.
pub fn number(word: &[u8], largest: u64) -> Option<u64>
    ensures is_the_number_of_the_word { result ≡ number_of largest word.now }
{
    let digits = unsigned(word);
    if digits.is_empty() {
        return None;
    }
    digits
        .iter()
        .try_fold(0, |value, b| with_digit(value, *b, largest))
}
