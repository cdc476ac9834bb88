// The allocation book over thousands of commands about images, whose answers came from the second program. A program is a
// crate with its own input and output, so that its main of one line stands in each.
#![tactic(auto)]

use std::io;

fn main(rt: HostRuntime) -> io::Result<()> {
    book_console::serve(&rt)
}
