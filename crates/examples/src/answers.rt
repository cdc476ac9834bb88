// Lines that a console is told, and what it answers.
use console::{Console, ReadError, read_words, words};
use std::alloc::{AllocError, Global};
use std::test::Fail;

// What a new console answers to the lines.
fn answers(heap: Global, lines: &[&[u8]]) -> Result<String, AllocError> {
    let mut console = Console::new();
    let mut out = String::new(heap);
    for line in lines {
        console.tell(heap, line, &mut out)?;
    }
    Ok(out)
}

#[test]
fn explains_while_it_is_on(rt: HostRuntime) -> Result<(), Fail> {
    let lines: [&[u8]; 4] = [
        b"split 5 3:1",
        b"explain on",
        b"split 5 4:1",
        b"explain off",
    ];
    let text = answers(rt.alloc(), &lines)?;
    assert_eq!(rt;
        text.as_str(),
        "share 3 5\nshare 4 5\n# 4: 5 x 1 / 1 = 5, remainder 0; rank 0, odd dollars 0: gets none\n"
    );
    Ok(())
}

#[test]
fn refuses_by_number(rt: HostRuntime) -> Result<(), Fail> {
    let lines: [&[u8]; 3] = [b"split 1000000001 1:1", b"split 1 1:1 1:1", b"split 1 1:0"];
    let text = answers(rt.alloc(), &lines)?;
    assert_eq!(rt; text.as_str(), "refused 1\nrefused 15\nrefused 6\n");
    Ok(())
}

// A line of a million bytes, a number of 4,000 digits, bytes that are no text.
#[test]
fn answers_whatever_comes(rt: HostRuntime) -> Result<(), Fail> {
    let heap = rt.alloc();
    let long = vec![in heap; b'x'; 1_000_000]?;
    let mut number = Vec::from_slice(heap, b"split ")?;
    number.extend_from_slice(vec![in heap; b'9'; 4_000]?.as_slice())?;
    let lines: [&[u8]; 4] = [
        long.as_slice(),
        number.as_slice(),
        b"split 1 \xff:1",
        b" \t\r",
    ];
    let text = answers(heap, &lines)?;
    assert_eq!(rt; text.as_str(), "bad command\nbad number\nbad number\n");
    Ok(())
}

// Words may be cut and read apart from the console that is to obey them.
#[test]
fn obeys_what_the_words_tell(rt: HostRuntime) -> Result<(), Fail> {
    let heap = rt.alloc();
    let mut console = Console::new();
    let mut out = String::new(heap);
    let found = words(heap, b"split 7 1:1 2:1 # seven dollars")?;
    let command = read_words(heap, found.as_slice())?.ok_or("no command")?;
    console.obey(heap, command, &mut out)?;
    assert_eq!(rt; out.as_str(), "share 1 4\nshare 2 3\n");
    Ok(())
}

#[test]
fn says_why_words_tell_nothing(rt: HostRuntime) -> Result<(), Fail> {
    let heap = rt.alloc();
    let found = words(heap, b"split 7 1:1 2:-1")?;
    assert!(rt;
        matches!(
            read_words(heap, found.as_slice()),
            Err(ReadError::BadNumber)
        )
    );
    Ok(())
}
