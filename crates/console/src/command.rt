// What a line tells.
ghost use Rattle.std.specs.Prelude.{◌≡◌, map, vec_items};
ghost use Rattle.std.specs.Option.{option_map};
ghost use Rattle.console.specs.Readings.{order, meaning, Tells, Fails, only as the_only, explain_told, split_told, told, reading_of};

use crate::bearer::bearers;
use crate::error::ReadError;
use crate::numeral::number;
use crate::verb::{Verb, switch, verb_named};
use crate::word::words;
use split::Stake;
use std::alloc::Global;

// What the book is told to do.
#[derive(Drop)]
pub enum Command {
    // From now on explanations are printed, or not.
    Explain { on: bool },
    // The sum is split among the bearers.
    Split { sum: u64, bearers: Vec<Stake> },
}

// The word of a command that takes just one.
pub fn only(words: &[Vec<u8>]) -> Option<&[u8]>
    ensures gives_the_word_that_stands_alone { option_map (λ word. word.now) result ≡ the_only (map vec_items words.now) }
{
    match words {
        [word] => Some(word.as_slice()),
        _ => None,
    }
}

// `explain on` and `explain off`.
fn read_explain(arguments: &[Vec<u8>]) -> Result<Command, ReadError>
    ensures { Tells order Fails result (explain_told (map vec_items arguments.now)) }
{
    let word = only(arguments).ok_or(ReadError::BadCommand)?;
    let on = switch(word).ok_or(ReadError::BadCommand)?;
    Ok(Command::Explain { on })
}

// `split SUM CODE:WEIGHT ..`.
fn read_split(heap: Global, arguments: &[Vec<u8>]) -> Result<Command, ReadError>
    ensures { Tells order Fails result (split_told (map vec_items arguments.now)) }
{
    let (first, rest) = arguments.split_first().ok_or(ReadError::BadCommand)?;
    let sum = number(first.as_slice(), u64::MAX).ok_or(ReadError::BadNumber)?;
    let bearers = bearers(heap, rest)?;
    Ok(Command::Split { sum, bearers })
}

// What the words of a line tell: nothing where there are none, else a command.
pub fn read_words(heap: Global, words: &[Vec<u8>]) -> Result<Option<Command>, ReadError>
    ensures means_what_the_words_tell { Tells meaning Fails result (told (map vec_items words.now)) }
{
    let Some((first, arguments)) = words.split_first() else {
        return Ok(None);
    };
    let verb = verb_named(first.as_slice()).ok_or(ReadError::BadCommand)?;
    // A match, since the verb is what the line says, and each arm reads other words.
    let command = match verb {
        Verb::Explain => read_explain(arguments)?,
        Verb::Split => read_split(heap, arguments)?,
    };
    Ok(Some(command))
}

// What a line tells: nothing where it has no words, else a command.
pub fn read(heap: Global, line: &[u8]) -> Result<Option<Command>, ReadError>
    ensures means_what_the_line_tells { Tells meaning Fails result (reading_of line.now) }
{
    let found = words(heap, line)?;
    read_words(heap, found.as_slice())
}
