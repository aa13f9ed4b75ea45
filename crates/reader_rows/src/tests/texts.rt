ghost use Rattle.std.specs.Prelude.{◌^◌, ◌<◌, length};

use lic_text::*;
use std::alloc::Global;
use std::test::Fail;

/// A line as `3:EXCLUDE,edit;`, a fault as `too long 3` or `open 3`.
fn rendered(alloc: Global, file: &[u8]) -> Result<Vec<u8>, Fail>
    requires { length file.now < 2 ^ 32 }
{
    let mut text = Vec::new(alloc);
    for line in lines(file) {
        match line {
            Ok(line) => render_line(alloc, &mut text, &line)?,
            Err(fault) => render_fault(alloc, &mut text, fault)?,
        }
    }
    Ok(text)
}

fn render_line(alloc: Global, text: &mut Vec<u8>, line: &Line) -> Result<(), Fail> {
    let number = format!(in alloc; "{}:", line.first())?;
    text.extend_from_slice(number.as_bytes())?;
    for word in line.words() {
        text.extend_from_slice(word)?;
        text.extend_from_slice(b",")?;
    }
    text.extend_from_slice(b";")?;
    Ok(())
}

fn render_fault(alloc: Global, text: &mut Vec<u8>, fault: TextFault) -> Result<(), Fail> {
    let fault = match fault {
        TextFault::LineTooLong(first) => format!(in alloc; "too long {first}")?,
        TextFault::OpenContinuation(first) => format!(in alloc; "open {first}")?,
    };
    text.extend_from_slice(fault.as_bytes())?;
    Ok(())
}

/// Files, each with its lines as they are rendered.
const FILES: &[(&[u8], &[u8])] = &[
    // An empty file, and lines without words.
    (b"", b""),
    (b"\n\n", b""),
    (b" \t \r\n\t", b""),
    // With and without a last LF; tabs.
    (b"a b\nc\n", b"1:a,b,;2:c,;"),
    (b"a b\nc", b"1:a,b,;2:c,;"),
    (b"\ta\t \tb \n\n c", b"1:a,b,;3:c,;"),
    // CR LF endings, a CR at the end of the file, and every other CR.
    (b"a\r\nb c\r\n", b"1:a,;2:b,c,;"),
    (b"a\r", b"1:a,;"),
    (b"a\r\r\nb\rc d\r e", b"1:a\r,;2:b\rc,d\r,e,;"),
    // Comments, one of which ends in a backslash.
    (b"# a\nb", b"2:b,;"),
    (b" \t#a\\\nb", b"2:b,;"),
    (b"#\\\r\n#\\", b""),
    (b"a #b\nc#", b"1:a,#b,;2:c#,;"),
    // Continued lines, also by one that begins with `#`, by one of CR LF, and by an empty one.
    (b"a\\\nb\nc", b"1:a,b,;3:c,;"),
    (b"a\\\n#b c\\\r\n\td\n#e\nf", b"1:a,#b,c,d,;5:f,;"),
    (b"x\n\na \\\\\n\nb", b"1:x,;3:a,\\,;5:b,;"),
    (b"a\\b \\ c\\\nd", b"1:a\\b,\\,c,d,;"),
    (b"\\\n\\\na", b"1:a,;"),
    (b"\\\n#a", b"1:#a,;"),
    (b"\\\n\n#a\nb", b"4:b,;"),
    (b"a\\ \nb", b"1:a\\,;2:b,;"),
    (b"a\\\r\rb", b"1:a\\\r\rb,;"),
    // A file that ends in a continued line.
    (b"a\\", b"open 1"),
    (b"a\\\n", b"open 1"),
    (b"a\\\n\r", b"1:a,;"),
    (b"a\n#b\nc\\\r\nd\\\r\n", b"1:a,;open 3"),
    (b"\n\\", b"open 2"),
    (b"a\n \\\n\\\n", b"1:a,;open 2"),
];

#[test]
fn lines_and_words(rt: HostRuntime) -> Result<(), Fail> {
    for &(file, wanted) in FILES {
        assert!(rt; file.len() < 100);
        let text = rendered(rt.alloc(), file)?;
        assert_eq!(rt; text.as_slice(), wanted, "of {file:?}");
    }
    Ok(())
}

/// A text of runs: each byte so many times.
fn text_of(alloc: Global, runs: &[(u8, usize)]) -> Result<Vec<u8>, Fail> {
    let mut text = Vec::new(alloc);
    for (byte, count) in runs {
        let run = vec![in alloc; *byte; *count]?;
        text.extend_from_slice(run.as_slice())?;
    }
    Ok(text)
}

/// A line as `3;`, a fault as `too long 3` or `open 3`.
fn outline(alloc: Global, file: &[u8]) -> Result<Vec<u8>, Fail>
    requires { length file.now < 2 ^ 32 }
{
    let mut text = Vec::new(alloc);
    for line in lines(file) {
        match line {
            Ok(line) => {
                let number = format!(in alloc; "{};", line.first())?;
                text.extend_from_slice(number.as_bytes())?;
            }
            Err(fault) => render_fault(alloc, &mut text, fault)?,
        }
    }
    Ok(text)
}

/// The runs of bytes of a file, each with its lines in outline.
const LENGTHS: &[(&[(u8, usize)], &[u8])] = &[
    (&[(b'a', 8192)], b"1;"),
    (&[(b'a', 8193)], b"too long 1"),
    // CR and LF don't count.
    (&[(b'a', 8192), (b'\r', 1), (b'\n', 1)], b"1;"),
    (&[(b'a', 8192), (b'\r', 2), (b'\n', 1)], b"too long 1"),
    // A joining space counts, in the place of its backslash.
    (&[(b'a', 4096), (b'\\', 1), (b'\n', 1), (b'b', 4095)], b"1;"),
    (
        &[
            (b'a', 4096),
            (b'\\', 1),
            (b'\r', 1),
            (b'\n', 1),
            (b'b', 4095),
        ],
        b"1;",
    ),
    (
        &[(b'a', 4096), (b'\\', 1), (b'\n', 1), (b'b', 4096)],
        b"too long 1",
    ),
    // The fault names the first physical line, and nothing follows it.
    (
        &[
            (b'a', 1),
            (b'\n', 2),
            (b'a', 4096),
            (b'\\', 1),
            (b'\n', 1),
            (b'b', 4096),
            (b'\n', 1),
            (b'c', 1),
        ],
        b"1;too long 3",
    ),
    // At the end of the file the length is tested first.
    (&[(b'a', 8191), (b'\\', 1)], b"open 1"),
    (&[(b'a', 8192), (b'\\', 1)], b"too long 1"),
    // Blanks count.
    (&[(b' ', 8192), (b'\n', 1), (b'a', 1)], b"2;"),
    (&[(b' ', 8193), (b'\n', 1), (b'a', 1)], b"too long 1"),
    // Comments have no limit, and a line that continues another is none.
    (&[(b'#', 1), (b'a', 9999), (b'\n', 1), (b'b', 1)], b"2;"),
    (
        &[(b'#', 1), (b'a', 9998), (b'\\', 1), (b'\n', 1), (b'b', 1)],
        b"2;",
    ),
    (
        &[(b'a', 1), (b'\\', 1), (b'\n', 1), (b'#', 1), (b'a', 8189)],
        b"1;",
    ),
    (
        &[(b'a', 1), (b'\\', 1), (b'\n', 1), (b'#', 1), (b'a', 8190)],
        b"too long 1",
    ),
];

#[test]
fn limit_of_a_line(rt: HostRuntime) -> Result<(), Fail> {
    for &(runs, wanted) in LENGTHS {
        let file = text_of(rt.alloc(), runs)?;
        assert!(rt; file.len() < 1 << 32);
        let text = outline(rt.alloc(), file.as_slice())?;
        assert_eq!(rt; text.as_slice(), wanted, "of {runs:?}");
    }
    Ok(())
}
