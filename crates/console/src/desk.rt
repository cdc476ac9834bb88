// The console: it takes the lines one after another.
ghost use Rattle.std.specs.Prelude.{◌≡◌, Bool, false, string_bytes};
ghost use Rattle.console.specs.Answers.{text_of};
ghost use Rattle.console.specs.Readings.{order, reading_of, explaining_after};
ghost use Rattle.console.specs.Texts.{Appends, Keeps};

use crate::answer::answer_split;
use crate::command::{Command, read};
use crate::error::ReadError;
use std::alloc::{AllocError, Global};
use std::marker::Model;

// What the console keeps from line to line: whether explanations are printed.
#[derive(Clone, Copy, Debug)]
pub struct Console {
    explaining: bool,
}

// A contract sees a console as whether explanations are printed.
impl Model for Console {
    ghost Value = { Bool };

    ghost view = { λ console. console.explaining };

    ghost inverse = { λ explaining. record { explaining = explaining } };
}

impl Console {
    // A console that prints no explanations.
    pub fn new() -> Console
        ensures explains_nothing_yet { result ≡ false }
    {
        Console { explaining: false }
    }

    // Does what a command orders, and appends the text that answers it. Where the call fails, for want of memory, the
    // console is as it was. The heap and the text are the caller's, and go on as they come: a struct of both would be made
    // anew for every line.
    pub fn obey(
        &mut self,
        heap: Global,
        command: Command,
        out: &mut String,
    ) -> Result<(), AllocError>
        ensures explains_as_ordered { Keeps result self.old self.new (explaining_after (order command) self.old) }
        ensures answers_as_ordered { Appends result (string_bytes out.old) (string_bytes out.new) (text_of self.old (order command)) }
    {
        match command {
            Command::Explain { on } => {
                self.explaining = on;
                Ok(())
            }
            Command::Split { sum, bearers } => {
                answer_split(heap, self.explaining, sum, bearers.as_slice(), out)
            }
        }
    }

    // Does what a line tells, and appends the text that answers it. Where the call fails, for want of memory, the
    // console is as it was.
    pub fn tell(&mut self, heap: Global, line: &[u8], out: &mut String) -> Result<(), AllocError>
        ensures explains_as_told { Keeps result self.old self.new (explaining_after (reading_of line.now) self.old) }
        ensures answers_as_defined { Appends result (string_bytes out.old) (string_bytes out.new) (text_of self.old (reading_of line.now)) }
    {
        match read(heap, line) {
            Ok(None) => Ok(()),
            Ok(Some(command)) => self.obey(heap, command, out),
            Err(ReadError::Memory(error)) => Err(error),
            Err(error) => writeln!(out, "{error}"),
        }
    }
}
