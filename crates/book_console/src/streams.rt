// The console at standard input and output. No contract can say what is read and printed: the programs over it are run,
// and what they write is compared.
use crate::desk::Console;
use commands::{Command, ReadError};
use console::serve_with;
use std::{fs, io};

// The bytes of the file that a command names, if it names one that can be read.
fn fetch(rt: &HostRuntime, reading: &Result<Option<Command>, ReadError>) -> Option<Vec<u8>> {
    let Ok(Some(Command::Roll { path })) = reading else {
        return None;
    };
    let text = std::str::from_utf8(path.as_slice()).ok()?;
    fs::read(rt, text).ok()
}

// Reads commands from standard input, one a line, and answers each on standard output, until the input ends.
pub fn serve(rt: &HostRuntime) -> io::Result<()> {
    let heap = rt.alloc();
    let mut desk = Console::new();
    serve_with(rt, |line, out| {
        let reading = desk.read(heap, line);
        let file = fetch(rt, &reading);
        Ok(desk.tell(heap, reading, file, out)?)
    })
}
