use outside::{
    FileFault, Files, MemFile, MemFiles, MemSink, RealFiles, RealSink, Sink, WriteFailed, read_all,
};
use std::alloc::{AllocError, Global};
use std::io::{Read, Write};
use std::test::Fail;
use std::{fs, io};

fn file(alloc: Global, name: &str, bytes: &[u8]) -> Result<MemFile, AllocError> {
    Ok(MemFile {
        name: String::from_str(alloc, name)?,
        bytes: Vec::from_slice(alloc, bytes)?,
    })
}

#[test]
fn files_in_memory_are_read_whole_or_refused(rt: HostRuntime) -> Result<(), Fail> {
    let mut held = Vec::new(rt.alloc());
    held.push(file(rt.alloc(), "licence", b"FEATURE")?)?;
    held.push(file(rt.alloc(), "options", b"")?)?;
    let failing = [5].to_vec(rt.alloc())?;
    let mut files = MemFiles::make(rt.alloc(), held, failing);
    assert!(rt; files.read(rt.alloc(), "licence", 7)?.as_slice() == b"FEATURE".as_slice());
    assert_eq!(rt; files.read(rt.alloc(), "options", 0)?.len(), 0);
    assert!(rt; files.read(rt.alloc(), "licence", 6) == Err(FileFault::TooLong));
    assert_eq!(rt; files.asked.failed.len(), 0);
    assert!(rt; files.read(rt.alloc(), "script", 7) == Err(FileFault::Failed));
    assert_eq!(rt; files.asked.failed.len(), 1);
    assert!(rt; files.read(rt.alloc(), "licence", 7).is_ok());
    assert!(rt; files.read(rt.alloc(), "licence", 7) == Err(FileFault::Failed));
    assert_eq!(rt; files.asked.names.len(), 6);
    assert_eq!(rt; files.asked.failed.len(), 2);
    Ok(())
}

#[test]
fn a_sink_in_memory_takes_whole_pieces(rt: HostRuntime) -> Result<(), Fail> {
    let failing = [1].to_vec(rt.alloc())?;
    let mut sink = MemSink::make(rt.alloc(), 5, failing)?;
    assert_eq!(rt; sink.write(b"abc"), Ok(()));
    assert_eq!(rt; sink.write(b"d"), Err(WriteFailed));
    assert_eq!(rt; sink.write(b"de"), Ok(()));
    assert_eq!(rt; sink.write(b""), Ok(()));
    assert!(rt; sink.bytes.as_slice() == b"abcde".as_slice());
    assert_eq!(rt; sink.faults, 1);
    Ok(())
}

#[test]
fn real_files_hold_what_a_real_sink_took(rt: HostRuntime) -> Result<(), Fail> {
    let name = "outside_real_files.txt";
    let mut text = Vec::new(rt.alloc());
    for number in 0..10_000u32 {
        text.push((number % 251) as u8)?;
    }
    let mut sink = RealSink::of(fs::create(&rt, name)?);
    assert_eq!(rt; sink.write(text.as_slice()), Ok(()));
    drop(sink);
    let mut files = RealFiles::of(rt.alloc(), &rt);
    let held = files.read(rt.alloc(), name, 10_000)?;
    assert!(rt; held.as_slice() == text.as_slice());
    assert!(rt; files.read(rt.alloc(), name, 9_999) == Err(FileFault::TooLong));
    fs::remove_file(&rt, name)?;
    assert!(rt; files.read(rt.alloc(), name, 10_000) == Err(FileFault::Failed));
    Ok(())
}

/// A reader that gives five bytes, and then fails.
#[derive(Drop)]
struct Breaking {
    has_given: bool,
}

impl Read for Breaking {
    fn read(&mut self, room: &mut [u8]) -> io::Result<usize> {
        if self.has_given || room.len() < 5 {
            return Err(io::Error::from(io::ErrorKind::Other));
        }
        self.has_given = true;
        room[..5].copy_from_slice(b"MAX 1");
        Ok(5)
    }
}

#[test]
fn a_read_that_fails_in_mid_file_is_a_fault(rt: HostRuntime) {
    let mut reader = Breaking { has_given: false };
    assert!(rt; read_all(rt.alloc(), &mut reader, 100) == Err(FileFault::Failed));
}

/// A writer that takes two bytes at a time, until it has as many as it can take.
#[derive(Drop)]
struct Narrow {
    left: usize,
}

impl Write for Narrow {
    fn write(&mut self, piece: &[u8]) -> io::Result<usize> {
        let count = piece.len().min(2).min(self.left);
        self.left -= count;
        Ok(count)
    }

    fn flush(&mut self) -> io::Result<()> {
        Ok(())
    }
}

#[test]
fn a_piece_that_is_taken_in_part_is_a_fault(rt: HostRuntime) {
    let mut sink = RealSink::of(Narrow { left: 7 });
    assert_eq!(rt; sink.write(b"abcde"), Ok(()));
    assert_eq!(rt; sink.write(b""), Ok(()));
    assert_eq!(rt; sink.write(b"fgh"), Err(WriteFailed));
}
