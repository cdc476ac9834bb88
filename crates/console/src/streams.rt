// The console at standard input and output. No contract can say what is read and printed: the programs over it are run,
// and what they write is compared.
ghost use Rattle.std.specs.Prelude.{◌≡◌};
ghost use Rattle.console.specs.Words.{unended};

use crate::desk::Console;
use std::io;
use std::io::{BufRead, BufReader, BufWriter, Write};

// A line without the byte that ends it, which the last may lack.
fn without_end(line: &[u8]) -> &[u8]
    ensures { result.now ≡ unended line.now }
{
    match line {
        [told @ .., b'\n'] => told,
        _ => line,
    }
}

// Reads lines from standard input, has each answered, and writes the answers on standard output, until the input ends.
// What answers is given a line without its end, and appends the text that answers it.
pub fn serve_with<F: FnMut(&[u8], &mut String) -> io::Result<()> + Drop>(
    rt: &HostRuntime,
    mut answer: F,
) -> io::Result<()>
    requires can_always_answer { F.IsAlwaysCallable answer }
{
    let heap = rt.alloc();
    let mut input = BufReader::new(heap, rt.stdin())?;
    let mut output = BufWriter::new(heap, rt.stdout())?;
    let mut line = Vec::new(heap);
    let mut text = String::new(heap);
    // Nothing says that an input ends, so the lines are counted.
    for _ in 0..u64::MAX {
        if input.read_until(b'\n', &mut line)? == 0 {
            break;
        }
        answer(without_end(line.as_slice()), &mut text)?;
        // A line without words, or one that only sets something, is answered by nothing.
        if !text.is_empty() {
            output.write_all(text.as_bytes())?;
        }
        // Where no more input waits, what is answered so far goes out.
        if input.buffer().is_empty() {
            output.flush()?;
        }
        line.clear();
        text.clear();
    }
    output.flush()
}

// Reads commands from standard input, one a line, and answers each on standard output, until the input ends.
pub fn serve(rt: &HostRuntime) -> io::Result<()> {
    let heap = rt.alloc();
    let mut console = Console::new();
    serve_with(rt, |line, out| Ok(console.tell(heap, line, out)?))
}
