use licence_tool::{Words, tool};
use outside::{MemFile, MemFiles, MemSink};
use std::alloc::{AllocError, Global};
use std::io;
use std::io::ErrorKind;
use std::process::Abort;
use std::test::Fail;

/// A file by its name, and what it holds.
type Held<'a> = (&'a str, &'a [u8]);

/// A command, and how it is to end.
#[derive(Clone, Copy)]
struct Row<'a> {
    words: &'a [&'a str],
    held: &'a [Held<'a>],
    /// The reads and the writes that fail, by their numbers from 0.
    reads: &'a [u64],
    writes: &'a [u64],
    /// The status, and what is written to standard output and to standard error.
    code: u8,
    out: &'a [u8],
    err: &'a [u8],
}

/// A licence of one pool with two licences, an options file of one line, a script of three lines, and a log that is no
/// run.
const HELD: [Held<'static>; 4] = [
    ("licence", b"FEATURE edit acme 2.0 permanent 2 SIGN=00AB\n"),
    ("options", b"LINGER edit 60\n"),
    (
        "script",
        b"100 0 ann h1 d1 p1 CHECKOUT edit 1.0\n100 1 bob h2 d2 p2 CHECKOUT edit 1.0\n\
        100 1 bob h2 d2 p2 CHECKIN edit\n",
    ),
    (
        "denying",
        b"ENTRY 0 #0 0 0 ann h1 d1 p1 CHECKOUT GRANTED OPEN\n\
        ENTRY 0 #1 0 1 bob h2 d2 p2 CHECKOUT NOSEAT TAKEN 2 OF 2\n",
    ),
];

/// A command that ends well and writes nothing, where nothing fails.
const PLAIN: Row<'static> = Row {
    words: &[],
    held: &HELD,
    reads: &[],
    writes: &[],
    code: 0,
    out: b"",
    err: b"",
};

const REPLAY: Row<'static> = Row {
    words: &["replay", "licence", "options", "script"],
    out: b"GRANTED OPEN #0\nGRANTED OPEN #1\nLINGERING UNTIL 160 #2\n",
    ..PLAIN
};

fn words_of(alloc: Global, words: &[&str]) -> Result<Words, AllocError> {
    let mut made = Vec::new(alloc);
    for word in words {
        made.push(String::from_str(alloc, word)?)?;
    }
    Ok(Words::Text(made))
}

fn files_of(alloc: Global, held: &[Held<'_>], failing: &[u64]) -> Result<MemFiles, AllocError> {
    let mut files = Vec::new(alloc);
    for (name, bytes) in held {
        files.push(MemFile {
            name: String::from_str(alloc, name)?,
            bytes: Vec::from_slice(alloc, bytes)?,
        })?;
    }
    let failing = Vec::from_slice(alloc, failing)?;
    Ok(MemFiles::make(alloc, files, failing))
}

/// A sink of which the writes of these numbers fail.
fn sink(alloc: Global, failing: &[u64]) -> Result<MemSink, AllocError> {
    MemSink::make(alloc, 4096, Vec::from_slice(alloc, failing)?)
}

/// Runs the command of these words, and compares how it ends.
fn run_words(rt: &(impl Abort + AllocGlobal), words: &Words, row: &Row<'_>) -> Result<(), Fail> {
    let mut files = files_of(rt.alloc(), row.held, row.reads)?;
    let mut out = sink(rt.alloc(), row.writes)?;
    let mut err = sink(rt.alloc(), &[])?;
    let status = tool(rt.alloc(), words, &mut files, &mut out, &mut err);
    assert_eq!(rt; status.code(), row.code);
    assert!(rt; out.bytes.as_slice() == row.out);
    assert!(rt; err.bytes.as_slice() == row.err);
    Ok(())
}

/// Runs a command, and compares how it ends.
fn run(rt: &(impl Abort + AllocGlobal), row: &Row<'_>) -> Result<(), Fail> {
    let words = words_of(rt.alloc(), row.words)?;
    run_words(rt, &words, row)
}

/// Words that aren't there, as the reason for which they could not be read has it.
fn run_unread(
    rt: &(impl Abort + AllocGlobal),
    reason: ErrorKind,
    row: &Row<'_>,
) -> Result<(), Fail> {
    let words = licence_tool::words_of(rt.alloc(), Err(io::Error::from(reason)));
    run_words(rt, &words, row)
}

#[test]
fn words_that_could_not_be_read(rt: HostRuntime) -> Result<(), Fail> {
    const USAGE_ERROR: Row<'static> = Row {
        code: 2,
        err: b"usage\n",
        ..PLAIN
    };
    const NO_MEMORY: Row<'static> = Row {
        code: 8,
        err: b"no memory\n",
        ..PLAIN
    };
    run_unread(&rt, ErrorKind::InvalidData, &USAGE_ERROR)?;
    run_unread(&rt, ErrorKind::OutOfMemory, &NO_MEMORY)
}

/// What the line of a file says where the file of this number, from 0, isn't read.
const READ_FAULTS: [&[u8]; 6] = [
    b"licence: read fault\n",
    b"options: read fault\n",
    b"script: read fault\n",
    b"options 1: read fault\n",
    b"options 2: read fault\n",
    b"options 3: read fault\n",
];

/// The files of a replay with three further options files.
const SIX: [Held<'static>; 6] = [
    ("licence", b"FEATURE edit acme 2.0 permanent 2 SIGN=00AB\n"),
    ("options", b""),
    ("script", b""),
    ("more1", b""),
    ("more2", b""),
    ("more3", b""),
];

/// The first file that is absent, or whose reading fails, is told.
#[test]
fn a_file_that_is_not_read_is_a_read_fault(rt: HostRuntime) -> Result<(), Fail> {
    const HALF: Row<'static> = Row {
        words: &["check", "licence", "options"],
        held: &[("licence", b"FEATURE edit acme 2.0 permanent 2 SIGN=00AB\n")],
        code: 6,
        err: b"options: read fault\n",
        ..PLAIN
    };
    for (number, err) in READ_FAULTS.iter().enumerate() {
        let failing = [number as u64];
        let absent = Row {
            words: &[
                "replay", "licence", "options", "script", "more1", "more2", "more3",
            ],
            held: &SIX[..number],
            code: 6,
            err,
            ..PLAIN
        };
        run(&rt, &absent)?;
        let unread = Row {
            held: &SIX,
            reads: &failing,
            ..absent
        };
        run(&rt, &unread)?;
    }
    run(&rt, &HALF)
}

/// The one write of a command fails, also of one that would end by a log that is no run. A write that isn't made fails
/// nothing.
#[test]
fn a_write_that_fails_is_a_write_fault(rt: HostRuntime) -> Result<(), Fail> {
    const NONE: Row<'static> = Row {
        writes: &[0],
        code: 7,
        err: b"write fault\n",
        ..PLAIN
    };
    const ROWS: &[Row<'static>] = &[
        Row {
            words: &["check", "licence", "options"],
            ..NONE
        },
        Row {
            words: &["replay", "licence", "options", "script"],
            ..NONE
        },
        Row {
            words: &["audit", "licence", "options", "denying"],
            ..NONE
        },
        Row {
            writes: &[1],
            ..REPLAY
        },
    ];
    for row in ROWS {
        run(&rt, row)?;
    }
    Ok(())
}
