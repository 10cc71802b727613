//! The engine of the program, over text in memory and over readers and writers that fail.
use amqp_lines::run;
use fe2o3_amqp_types::codec::Error;
use std::alloc::Global;
use std::io;
use std::io::{ErrorKind, Read, Write};
use std::test::Fail;

// How the engine ends over the reader, if this is what it answers, and nothing else.
fn ending<R: Read + Drop>(reader: R, wanted: &str, alloc: Global) -> Option<Result<bool, Error>> {
    let mut output = Vec::new(alloc);
    let ended = run(reader, &mut output, alloc);
    if output.as_slice() == wanted.as_bytes() {
        Some(ended)
    } else {
        None
    }
}

// Whether this is answered, and whether every line is `ok`.
fn is_answered(input: &str, wanted: &str, all_ok: bool, alloc: Global) -> bool {
    ending(input.as_bytes(), wanted, alloc) == Some(Ok(all_ok))
}

// Each input is answered so.
fn check_answers(rows: &[(&str, &str)], alloc: Global) -> Result<(), Fail> {
    for (input, wanted) in rows {
        let Some(Ok(_)) = ending(input.as_bytes(), *wanted, alloc) else {
            return Err(Fail::new(format_args!("{input} is answered otherwise")));
        };
    }
    Ok(())
}

// Each input is one line of another form.
fn check_other_forms(inputs: &[&str], alloc: Global) -> Result<(), Fail> {
    for input in inputs {
        if !is_answered(*input, "no 0 Line\n", false, alloc) {
            return Err(Fail::new(format_args!("{input} is answered otherwise")));
        }
    }
    Ok(())
}

#[test]
fn lines_are_answered_in_order(rt: HostRuntime) {
    let input =
        "accepted 005324c00000\nreceived 005323c005025209530dff\ndelivery-state 005323c005025209530d";
    let wanted = "ok 00532445 0\nok 005323c005025209530d 1\nok 005323c005025209530d 0\n";
    assert!(rt; is_answered(input, wanted, true, rt.alloc()));
}

#[test]
fn lines_of_another_form(rt: HostRuntime) -> Result<(), Fail> {
    check_other_forms(
        &[
            "bogus 00",
            "accepted 0",
            "accepted",
            "\n",
            "accepted zz\n",
            "accepted ",
            "accepted  00532445",
            "accepted 00532445 ",
            " accepted 00532445",
            "accepted 00532445\r\n",
            "Accepted 00532445",
            "accepted --",
        ],
        rt.alloc(),
    )
}

#[test]
fn digits_and_line_ends(rt: HostRuntime) -> Result<(), Fail> {
    check_answers(
        &[
            ("", ""),
            ("accepted -\n", "no 1 Cut\n"),
            ("accepted 005324C00000\n", "ok 00532445 0\n"),
            (
                "accepted 00532400532445\n\n",
                "no 27 WrongType\nno 0 Line\n",
            ),
            (
                "delivery-state 00532845\naccepted 00532445",
                "no 9 WrongDescriptor\nok 00532445 0\n",
            ),
        ],
        rt.alloc(),
    )
}

#[test]
fn sections_in_a_row(rt: HostRuntime) -> Result<(), Fail> {
    check_answers(
        &[
            ("batch-data -\n", "ok - 0\n"),
            (
                "batch-data 005375a00161005378c10100\n",
                "ok 005375a00161 6\n",
            ),
            (
                "message 0053734500537045\nstrict-message 0053734500537045\n",
                "ok 005370450053734500537740 0\nno 30 Misplaced\n",
            ),
            (
                "strict-message 0053704500537345\nmessage-data 0053704500537345\n",
                "ok 005370450053734500537740 0\nno 19 EmptyBody\n",
            ),
        ],
        rt.alloc(),
    )
}

#[test]
fn limits_hold_for_the_lines_behind(rt: HostRuntime) {
    let input = "limits 128 4 100\naccepted 00532445\naccepted 005324c00000\n\
        limits 1 100 100\nreceived 005323c005025209530d\n\
        limits 2 100 3\nreceived 005323c005025209530d\n\
        limits 2 100 2\nreceived 005323c005025209530d\nlimits 129 1 1";
    let wanted = "limits 128 4 100\nok 00532445 0\nno 31 Limit\nlimits 1 100 100\nno 31 Limit\n\
        limits 2 100 3\nok 005323c005025209530d 0\nlimits 2 100 2\nno 31 Limit\nno 0 Line\n";
    assert!(rt; is_answered(input, wanted, false, rt.alloc()));
}

#[test]
fn a_line_that_sets_limits_is_ok(rt: HostRuntime) -> Result<(), Fail> {
    let input = "accepted 00532445\nlimits 0 1 1\nboolean 41";
    let wanted = "ok 00532445 0\nlimits 0 1 1\nok 41 0\n";
    assert!(rt; is_answered(input, wanted, true, rt.alloc()));
    assert!(rt; is_answered("limits 0 1 1", "limits 0 1 1\n", true, rt.alloc()));
    check_other_forms(
        &[
            "limits 00 1 1",
            "limits 129 1 1",
            "limits 1  1 1\n",
            "limits 1 1",
        ],
        rt.alloc(),
    )
}

// Gives one byte a call, and fails once it was called so often.
#[derive(Drop)]
struct OneByOne<'a> {
    bytes: &'a [u8],
    calls: usize,
}

impl Read for OneByOne<'_> {
    fn read(&mut self, buffer: &mut [u8]) -> io::Result<usize> {
        if self.calls == 0 {
            return Err(io::Error::from(ErrorKind::Interrupted));
        }
        self.calls -= 1;
        if buffer.is_empty() {
            return Ok(0);
        }
        let Some((first, rest)) = self.bytes.split_first() else {
            return Ok(0);
        };
        buffer[0] = *first;
        self.bytes = rest;
        Ok(1)
    }
}

// Takes so many bytes, and then fails.
#[derive(Drop)]
struct Narrow {
    room: usize,
}

impl Write for Narrow {
    fn write(&mut self, bytes: &[u8]) -> io::Result<usize> {
        if self.room == 0 {
            return Err(io::Error::from(ErrorKind::Interrupted));
        }
        let n = bytes.len().min(self.room).min(3);
        self.room -= n;
        Ok(n)
    }

    fn flush(&mut self) -> io::Result<()> {
        Ok(())
    }
}

/// What a reader or a writer that fails leads to.
const FAILED: Result<bool, Error> = Err(Error::Read(ErrorKind::Interrupted));

// How the engine ends if the writer takes so many bytes of the answer to one line.
fn ending_within(room: usize, alloc: Global) -> Result<bool, Error> {
    run(b"accepted 00532445".as_slice(), &mut Narrow { room }, alloc)
}

#[test]
fn failing_ends(rt: HostRuntime) {
    let alloc = rt.alloc();
    let reader = OneByOne {
        bytes: b"accepted 00532445\nacc",
        calls: 21,
    };
    assert_eq!(rt; ending(reader, "ok 00532445 0\n", alloc), Some(FAILED));
    assert_eq!(rt; ending_within(13, alloc), FAILED);
    assert_eq!(rt; ending_within(14, alloc), Ok(true));
}

/// Lines, some of which are refused.
const LINES: &str = "accepted 005324c00000\n\
    received 005323c005025209530dff\n\
    accepted 005324c0020140\n\
    batch-data -\n\
    bogus 00";

/// The answers to them.
const ANSWERS: &str = "ok 00532445 0\n\
    ok 005323c005025209530d 1\n\
    no 7 Surplus\n\
    ok - 0\n\
    no 0 Line\n";

// The lines, from a reader that fails after so many calls.
fn lines_within(calls: usize) -> OneByOne<'static> {
    OneByOne {
        bytes: LINES.as_bytes(),
        calls,
    }
}

// How the engine ends over the lines if the reader fails after so many calls.
fn ending_after(calls: usize, alloc: Global) -> Result<bool, Error> {
    run(lines_within(calls), &mut Vec::new(alloc), alloc)
}

// Over a reader that gives one byte a call the lines are answered as text in memory is, and each call that fails ends them.
#[test]
fn lines_of_a_reader(rt: HostRuntime) {
    let alloc = rt.alloc();
    for calls in 0..=LINES.len() {
        assert_eq!(rt; ending_after(calls, alloc), FAILED);
    }
    assert_eq!(rt; ending(lines_within(1000), ANSWERS, alloc), Some(Ok(false)));
}
