// Reading of a line.
ghost use Rattle.std.specs.Prelude.{map, vec_items};
ghost use Rattle.console.specs.Readings.{Tells};
ghost use Rattle.commands.specs.Meanings.{ordered, meaning, Fails};
ghost use Rattle.commands.specs.Readings.{basis_told, journal_told, image_told, roll_told, funds_told, told, reading_of};

use crate::command::Command;
use crate::error::ReadError;
use crate::hex::hex;
use crate::verb::{Verb, basis_named, verb_named};
use console::ReadError::{BadCommand, BadNumber};
use console::{number, only, words};
use std::alloc::Global;

// The most places of the journal that calls may use.
const MOST_PLACES: u64 = 1_000_000;

// `basis NAME`.
fn read_basis(arguments: &[Vec<u8>]) -> Result<Command, ReadError>
    ensures { Tells ordered Fails result (basis_told (map vec_items arguments.now)) }
{
    let word = only(arguments).ok_or(BadCommand)?;
    let name = basis_named(word).ok_or(BadCommand)?;
    Ok(Command::Basis { name })
}

// `journal N`.
fn read_journal(arguments: &[Vec<u8>]) -> Result<Command, ReadError>
    ensures { Tells ordered Fails result (journal_told (map vec_items arguments.now)) }
{
    let word = only(arguments).ok_or(BadCommand)?;
    let places = number(word, MOST_PLACES).ok_or(BadNumber)?;
    Ok(Command::Journal {
        places: places as usize,
    })
}

// `image HEX`.
fn read_image(heap: Global, arguments: &[Vec<u8>]) -> Result<Command, ReadError>
    ensures { Tells ordered Fails result (image_told (map vec_items arguments.now)) }
{
    let word = only(arguments).ok_or(BadCommand)?;
    let bytes = hex(heap, word)?;
    Ok(Command::Image { bytes })
}

// `roll PATH`.
fn read_roll(heap: Global, arguments: &[Vec<u8>]) -> Result<Command, ReadError>
    ensures { Tells ordered Fails result (roll_told (map vec_items arguments.now)) }
{
    let word = only(arguments).ok_or(BadCommand)?;
    let path = Vec::from_slice(heap, word)?;
    Ok(Command::Roll { path })
}

// `funds`.
fn read_funds(has_book: bool, arguments: &[Vec<u8>]) -> Result<Command, ReadError>
    ensures { Tells ordered Fails result (funds_told has_book (map vec_items arguments.now)) }
{
    if !arguments.is_empty() {
        return Err(ReadError::Line(BadCommand));
    }
    if !has_book {
        return Err(ReadError::NoBook);
    }
    Ok(Command::Funds)
}

// What the words of a line tell. What is not about books, the console that splits reads.
fn read_words(heap: Global, has_book: bool, words: &[Vec<u8>]) -> Result<Option<Command>, ReadError>
    ensures { Tells meaning Fails result (told has_book (map vec_items words.now)) }
{
    let Some((first, arguments)) = words.split_first() else {
        return Ok(None);
    };
    // A match, since the verb is what the line says, and each arm reads other words.
    let command = match verb_named(first.as_slice()) {
        Some(Verb::Basis) => read_basis(arguments)?,
        Some(Verb::Journal) => read_journal(arguments)?,
        Some(Verb::Image) => read_image(heap, arguments)?,
        Some(Verb::Roll) => read_roll(heap, arguments)?,
        Some(Verb::Funds) => read_funds(has_book, arguments)?,
        None => return Ok(console::read_words(heap, words)?.map(Command::Split)),
    };
    Ok(Some(command))
}

// What a line tells, where a book is there or not: nothing where it has no words, else a command.
pub fn read(heap: Global, has_book: bool, line: &[u8]) -> Result<Option<Command>, ReadError>
    ensures means_what_the_line_tells { Tells meaning Fails result (reading_of has_book line.now) }
{
    let found = words(heap, line)?;
    read_words(heap, has_book, found.as_slice())
}
