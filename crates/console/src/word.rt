// The words of a line.
ghost use Rattle.std.specs.Prelude.{◌≡◌, ◌==◌, ◌||◌, ◌<◌, [], ◌∷◌, length, map, not, position, IfOk, IfSome, MatchOption, vec_items};
ghost use Rattle.console.specs.Words.{blank, words_of};

use std::alloc::{AllocError, Global};

// A space, a tab, a carriage return or a form feed.
fn is_blank(byte: u8) -> bool
    ensures { result ≡ blank byte }
{
    matches!(byte, b' ' | b'\t' | b'\r' | b'\x0c')
}

// Where a byte first stands among others, if it does.
pub(crate) fn place_of(byte: u8, bytes: &[u8]) -> Option<usize>
    ensures { result ≡ position (λ b. b == byte) bytes.now }
{
    bytes.iter().position(|b| *b == byte)
}

// Does a word end at this byte? It does at a blank, and at the `#` that ends the line.
fn ends_word(byte: u8) -> bool
    ensures { result ≡ (blank byte || byte == 35) }
{
    is_blank(byte) || byte == b'#'
}

// Where the first byte stands that is no blank.
fn word_start(line: &[u8]) -> Option<usize>
    ensures { result ≡ position (λ b. not (blank b)) line.now }
{
    line.iter().position(|b| !is_blank(*b))
}

// Where the word ends that stands at the front of bytes, if it ends before they do.
fn word_end(bytes: &[u8]) -> Option<usize>
    ensures { result ≡ position (λ b. blank b || b == 35) bytes.now }
{
    bytes.iter().position(|b| ends_word(*b))
}

// The first word of a line and what stands behind it, if a word stands before the first `#`. Both of its ends are looked for:
// the library's `split` would come back for each blank of a row of them.
fn first_word(line: &[u8]) -> Option<(&[u8], &[u8])>
    ensures first { MatchOption result (words_of line.now ≡ []) (λ cut. words_of line.now ≡ cut.0.now ∷ words_of cut.1.now) }
    ensures leaves_less { IfSome result (λ cut. length cut.1.now < length line.now) }
{
    let told = &line[word_start(line)?..];
    let (word, behind) = told.split_at(word_end(told).unwrap_or(told.len()));
    if word.is_empty() {
        None
    } else {
        Some((word, behind))
    }
}

// The words of a line: what stands between blanks, up to the first `#`.
pub fn words(heap: Global, line: &[u8]) -> Result<Vec<Vec<u8>>, AllocError>
    ensures gives_the_words_of_the_line { IfOk result (λ v. map vec_items v.items ≡ words_of line.now) }
{
    let mut found = Vec::new(heap);
    let mut rest = line;
    while let Some((word, behind)) = first_word(rest) {
        found.push(Vec::from_slice(heap, word)?)?;
        rest = behind;
    }
    Ok(found)
}
