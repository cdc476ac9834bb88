// Lines that a console is told, and what it answers.
use book_console::Console;
use std::alloc::{AllocError, Global};
use std::test::Fail;

// What a new console answers to the lines. The console that splits is told a line in one call, this one in two, so that a
// common part of both examples would have nothing but the loop.
fn answers(heap: Global, lines: &[&[u8]]) -> Result<String, AllocError> {
    let mut console = Console::new();
    let mut out = String::new(heap);
    for line in lines {
        let reading = console.read(heap, line);
        console.tell(heap, reading, None, &mut out)?;
    }
    Ok(out)
}

// An image of one participant, 101, and its account, 2001.
const GOOD: &[u8] = b"image 01000000340101\
    000000650000000100000002000000030000000400\
    000007d1000000650000000003d523e000000000000f4240";

// The same, but the account's owner is 102, who takes no part.
const DAMAGED: &[u8] = b"image 01000000340101\
    000000650000000100000002000000030000000400\
    000007d1000000660000000003d523e000000000000f4240";

#[test]
fn a_refused_opening_leaves_the_book(rt: HostRuntime) -> Result<(), Fail> {
    let lines: [&[u8]; 5] = [b"funds", GOOD, b"funds", DAMAGED, b"funds"];
    let text = answers(rt.alloc(), &lines)?;
    assert_eq!(rt;
        text.as_str(),
        "no book\n\
        open ok\ncheck 0\n\
        2001 64300000 1000000\n\
        refused 16 place 0 layer book\ncheck 160000\n\
        2001 64300000 1000000\n"
    );
    Ok(())
}
