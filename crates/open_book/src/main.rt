// The allocation book with its opening: it reads commands from standard input, one a line, and answers each on standard
// output. A program is a crate with its own input and output, so that its main of one line stands in each.
#![tactic(auto)]

use std::io;

fn main(rt: HostRuntime) -> io::Result<()> {
    book_console::serve(&rt)
}
