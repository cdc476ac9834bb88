// The console: it takes the lines one after another.
ghost use Rattle.std.specs.Prelude.{◌≡◌, IsErr, vec_items, string_bytes};
ghost use Rattle.std.specs.Option.{option_map};
ghost use Rattle.console.specs.Readings.{Tells};
ghost use Rattle.console.specs.Texts.{Appends, Keeps};
ghost use Rattle.commands.specs.Meanings.{order as order_of, meaning, read_as, OutOfMemory, Fails};
ghost use Rattle.commands.specs.Readings.{reading_of};
ghost use Rattle.book_console.specs.Answers.{opening_text, funds_text, order_text, text_of};
ghost use Rattle.book_console.specs.Desk.{starting, has_book, kept_open, kept_by, kept_after};

use crate::funds::print_funds;
use crate::opening::{Opening, opened_book};
use basis::Commitment;
use book::Book;
use commands::{BasisName, Command, ReadError};
use std::alloc::{AllocError, Global};
use std::marker::Model;

// What the console keeps from line to line.
#[derive(Drop)]
pub struct Console {
    // what the console that splits keeps: whether explanations are printed
    splits: console::Console,
    // the basis on which the next book is opened
    basis: BasisName,
    // how many places of the journal calls may use
    places: usize,
    // the book, from its first accepted opening on
    book: Option<Book<Commitment>>,
}

// A contract sees a console as what it keeps.
impl Model for Console {
    ghost use Rattle.book_console.specs.Desk.{Desk};

    ghost Value = { Desk };

    ghost use Rattle.book_console.specs.Views.{desk_of};

    ghost view = { desk_of };
}

impl Console {
    // A console that was told nothing yet.
    pub fn new() -> Console
        ensures starts_as_defined { result ≡ starting }
    {
        Console {
            splits: console::Console::new(),
            basis: BasisName::Commitment,
            places: 4096,
            book: None,
        }
    }

    // Whether there is a book.
    pub fn has_book(&self) -> bool
        ensures is_whether_a_book_is_kept { result ≡ has_book self.now }
    {
        self.book.is_some()
    }

    // What a line tells, given whether there is a book: nothing where it has no words, else a command.
    pub fn read(&self, heap: Global, line: &[u8]) -> Result<Option<Command>, ReadError>
        ensures means_what_the_line_tells { Tells meaning Fails result (reading_of (has_book self.now) line.now) }
    {
        commands::read(heap, self.has_book(), line)
    }

    // Opens a book from the bytes, and appends the text that answers it. The text comes first, so that nothing is kept of
    // a call that fails.
    fn open(&mut self, image: &[u8], out: &mut String) -> Result<(), AllocError>
        ensures keeps { Keeps result self.old self.new (kept_open image.now self.old) }
        ensures answers { Appends result (string_bytes out.old) (string_bytes out.new) (opening_text image.now) }
    {
        let outcome = opened_book(self.basis, image);
        let said = Opening {
            outcome: &outcome,
            image,
        };
        write!(out, "{said}")?;
        if let Ok(book) = outcome {
            self.book = Some(book);
        }
        Ok(())
    }

    // Lists the funds of the book.
    fn list_funds(&self, out: &mut String) -> Result<(), AllocError>
        ensures { Appends result (string_bytes out.old) (string_bytes out.new) (funds_text self.now.book) }
    {
        match &self.book {
            Some(book) => print_funds(book.roll().accounts(), out),
            None => writeln!(out, "no book"),
        }
    }

    // Does what a command orders, and appends the text that answers it.
    fn obey(
        &mut self,
        heap: Global,
        command: Command,
        file: Option<Vec<u8>>,
        out: &mut String,
    ) -> Result<(), AllocError>
        ensures keeps { Keeps result self.old self.new (kept_by (order_of command) (option_map vec_items file) self.old) }
        ensures answers { Appends result (string_bytes out.old) (string_bytes out.new) (order_text (order_of command) (option_map vec_items file) self.old) }
    {
        match command {
            Command::Split(told) => self.splits.obey(heap, told, out),
            Command::Basis { name } => {
                self.basis = name;
                Ok(())
            }
            Command::Journal { places } => {
                self.places = places;
                Ok(())
            }
            Command::Image { bytes } => self.open(bytes.as_slice(), out),
            Command::Roll { .. } => match file {
                Some(bytes) => self.open(bytes.as_slice(), out),
                None => writeln!(out, "bad file"),
            },
            Command::Funds => self.list_funds(out),
        }
    }

    // Does what an answer of `read` tells, given the bytes of the file that it names, if it names one that can be read;
    // and appends the text that answers it. Where the call fails, for want of memory then or when the line was read, what
    // is kept is as it was.
    pub fn tell(
        &mut self,
        heap: Global,
        reading: Result<Option<Command>, ReadError>,
        file: Option<Vec<u8>>,
        out: &mut String,
    ) -> Result<(), AllocError>
        ensures keeps_as_told { Keeps result self.old self.new (kept_after (read_as reading) (option_map vec_items file) self.old) }
        ensures answers_as_defined { Appends result (string_bytes out.old) (string_bytes out.new) (text_of (read_as reading) (option_map vec_items file) self.old) }
        ensures fails_where_reading_ran_out { OutOfMemory reading → IsErr result }
    {
        match reading {
            Ok(None) => Ok(()),
            Ok(Some(command)) => self.obey(heap, command, file, out),
            Err(ReadError::Line(console::ReadError::Memory(error))) => Err(error),
            Err(error) => writeln!(out, "{error}"),
        }
    }
}
