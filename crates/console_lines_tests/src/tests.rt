use console_lines::{Command, Reply, parse};
use input_lines::{Lines, next_line, number_of};
use std::process::Abort;
use std::test::Fail;

fn plans(rt: &impl Abort, line: &[u8], hill: u32, fallback: u32) {
    assert!(rt; parse(line) == Some(Command::Plan { hill, fallback }));
}

#[test]
fn commands(rt: HostRuntime) {
    assert!(rt; parse(b"S") == Some(Command::Step));
    assert!(rt; parse(b"X") == Some(Command::Skip));
    plans(&rt, b"P 10 10", 10, 10);
    plans(&rt, b"P 0 0", 0, 0);
    plans(&rt, b"P 1 23", 1, 23);
    // Leading zeros, and seven digits.
    plans(&rt, b"P 0000000 0000017", 0, 17);
    plans(&rt, b"P 9999999 1000001", 9999999, 1000001);
}

#[test]
fn other_lines(rt: HostRuntime) {
    let lines: [&[u8]; 40] = [
        b"",
        b" ",
        b"s",
        b"x",
        b"p 1 2",
        b"Q",
        b"SX",
        b"S ",
        b" S",
        b"X 1",
        b"S\r",
        b"X\0",
        b"\0",
        b"P",
        b"P ",
        b"P  ",
        b"P 1",
        b"P 1 ",
        b"P  2",
        b"P1 2",
        b"P 12",
        b"P 1  2",
        b"P  1 2",
        b"P 1 2 ",
        b"P 1 2 3",
        b" P 1 2",
        b"P\t1 2",
        b"P 1\t2",
        b"P 1 2\r",
        b"P 1 2\0",
        b"P +1 2",
        b"P -1 2",
        b"P 1 x",
        b"P 1a 2",
        b"P 1,000 2",
        b"P 12345678 1",
        b"P 1 00000000",
        b"P \xd9\xa1 2",
        b"\xc3\x9f",
        b"\xff",
    ];
    for line in lines {
        assert!(rt; parse(line) == None);
    }
}

// However long a line is, it is no command, and so is a command with anything behind it.
#[test]
fn long_lines(rt: HostRuntime) {
    assert!(rt; parse(&[b'S'; 32]) == None);
    assert!(rt; parse(&[b'S'; 33]) == None);
    assert!(rt; parse(b"P 0000000000000000000000000001 1") == None);
    assert!(rt; parse(b"P 00000000000000000000000000001 1") == None);
    assert!(rt; parse(&[b'1'; 300]) == None);
}

fn says(rt: &(impl Abort + AllocGlobal), reply: Reply, text: &str) -> Result<(), Fail> {
    let said = reply.to_string(rt.alloc())?;
    assert!(rt; said.as_str() == text);
    Ok(())
}

#[test]
fn replies(rt: HostRuntime) -> Result<(), Fail> {
    let (hill, fallback) = (3, 1000000);
    says(
        &rt,
        Reply::Plan {
            length: 4095,
            hill,
            fallback,
        },
        "plan 4095 3 1000000",
    )?;
    says(&rt, Reply::NoPlan { hill, fallback }, "none 3 1000000")?;
    says(&rt, Reply::Spent { hill, fallback }, "spent 3 1000000")?;
    says(&rt, Reply::Full { hill, fallback }, "full 3 1000000")?;
    says(&rt, Reply::Did { action: 511 }, "did 511")?;
    says(&rt, Reply::NotDone { action: 0 }, "not 0")?;
    says(&rt, Reply::Idle, "idle")?;
    says(&rt, Reply::Refused { number: 9 }, "refused 9")?;
    says(&rt, Reply::Bad, "bad")?;
    says(
        &rt,
        Reply::Task {
            cause: 2,
            record: 0,
        },
        "task 2 0",
    )
}

// The first line, and what is left.
fn begins(rt: &impl Abort, input: &[u8], line: &[u8], rest: &[u8]) {
    match next_line(input) {
        Some((l, r)) => {
            assert!(rt; l == line);
            assert!(rt; r == rest);
        }
        None => assert!(rt; false),
    }
}

#[test]
fn lines(rt: HostRuntime) {
    begins(&rt, b"S\nX", b"S", b"X");
    begins(&rt, b"S", b"S", b"");
    begins(&rt, b"S\n", b"S", b"");
    begins(&rt, b"\nS", b"", b"S");
    begins(&rt, b"\n\n", b"", b"\n");
    begins(&rt, b"S\r\n", b"S\r", b"");
    assert!(rt; next_line(b"").is_none());
}

#[test]
fn all_lines(rt: HostRuntime) {
    let mut lines = Lines(b"S\n\nX");
    assert!(rt; lines.next() == Some(b"S"));
    assert!(rt; lines.next() == Some(b""));
    assert!(rt; lines.next() == Some(b"X"));
    assert!(rt; lines.next() == None);
    assert!(rt; Lines(b"S\n").count() == 1);
}

#[test]
fn numbers(rt: HostRuntime) {
    assert!(rt; number_of::<3>(b"007") == Some(7));
    assert!(rt; number_of::<3>(b"1000") == None);
    assert!(rt; number_of::<9>(b"999999999") == Some(999999999));
    assert!(rt; number_of::<20>(b"1000000000") == None);
    assert!(rt; number_of::<3>(b"") == None);
    assert!(rt; number_of::<3>(b"1a") == None);
}
