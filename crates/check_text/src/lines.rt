ghost use Rattle.std.specs.Prelude.{◌≡◌, ◌∷◌, ◌++◌, OnOk, codes, decimal};
ghost use Rattle.std.specs.List.{flat_map};
ghost use Rattle.check_text.specs.Check.{cut_line, cut_lines, expiry_text, note_line, note_text, pool_line, pool_lines};

use feature_lines::Pool;
use itoa::Buffer;
use lic_types::{Expiry, NoMemory, Note, NoteKind};
use options_machine::Cut;
use options_text::Options;
use policy::cuts_at;
use std::alloc::Global;

fn put_number(text: &mut Vec<u8>, number: u64) -> Result<(), NoMemory>
    ensures { OnOk result (text.new.items ≡ text.old.items ++ decimal number) }
{
    let mut buffer = Buffer::new();
    text.extend_from_slice(buffer.format(number).as_bytes())?;
    Ok(())
}

/// Writes a text and a number behind it.
fn put_numbered(text: &mut Vec<u8>, front: &[u8], number: u64) -> Result<(), NoMemory>
    ensures { OnOk result (text.new.items ≡ text.old.items ++ front.now ++ decimal number) }
{
    text.extend_from_slice(front)?;
    put_number(text, number)
}

/// Writes a word behind a space.
fn put_word(text: &mut Vec<u8>, word: &[u8]) -> Result<(), NoMemory>
    ensures { OnOk result (text.new.items ≡ text.old.items ++ 32 ∷ word.now) }
{
    text.push(b' ')?;
    text.extend_from_slice(word)?;
    Ok(())
}

/// Writes how long a pool is good.
fn put_expiry(text: &mut Vec<u8>, expiry: &Expiry) -> Result<(), NoMemory>
    ensures { OnOk result (text.new.items ≡ text.old.items ++ expiry_text expiry.now) }
{
    match expiry {
        Expiry::Never => text.extend_from_slice(b"never")?,
        Expiry::On(day) => {
            let mut room = [0; 16];
            let length = day.put(&mut room);
            text.extend_from_slice(&room[..length])?;
        }
    }
    Ok(())
}

/// Writes the line of the pool of this number.
fn put_pool(text: &mut Vec<u8>, at: usize, pool: &Pool) -> Result<(), NoMemory>
    ensures { OnOk result (text.new.items ≡ text.old.items ++ pool_line at pool.now) }
{
    put_numbered(text, b"POOL ", at as u64)?;
    put_word(text, pool.name.bytes())?;
    put_word(text, pool.version_text.bytes())?;
    put_numbered(text, b" COUNT ", u64::from(pool.count))?;
    text.extend_from_slice(b" EXPIRES ")?;
    put_expiry(text, &pool.expiry)?;
    text.push(b'\n')?;
    Ok(())
}

/// Writes the lines of the pools, which are numbered from 0.
pub(crate) fn put_pools(text: &mut Vec<u8>, pools: &[Pool]) -> Result<(), NoMemory>
    ensures { OnOk result (text.new.items ≡ text.old.items ++ pool_lines 0 pools.now) }
{
    for (at, pool) in pools.iter().enumerate() {
        put_pool(text, at, pool)?;
    }
    Ok(())
}

fn note_text(kind: &NoteKind) -> &'static [u8]
    ensures { result.now ≡ note_text kind.now }
{
    match kind {
        NoteKind::SecondFeature => b"SECONDFEATURE",
        NoteKind::NodeLocked => b"NODELOCKED",
        NoteKind::NotServed => b"NOTSERVED",
        NoteKind::NotActed => b"NOTACTED",
    }
}

fn put_note(text: &mut Vec<u8>, of_file: &[u8], note: &Note) -> Result<(), NoMemory>
    ensures { OnOk result (text.new.items ≡ text.old.items ++ note_line of_file.now note.now) }
{
    put_numbered(text, of_file, u64::from(note.line))?;
    put_word(text, note_text(&note.kind))?;
    text.push(b'\n')?;
    Ok(())
}

/// Writes the lines of notes, each of which begins with what file they are of.
pub(crate) fn put_notes(text: &mut Vec<u8>, of_file: &[u8], notes: &[Note]) -> Result<(), NoMemory>
    ensures { OnOk result (text.new.items ≡ text.old.items ++ flat_map (note_line of_file.now) notes.now) }
{
    for note in notes {
        put_note(text, of_file, note)?;
    }
    Ok(())
}

/// Writes the line of a cut at the pool of this number.
fn put_cut(text: &mut Vec<u8>, at: usize, cut: &Cut) -> Result<(), NoMemory>
    ensures { OnOk result (text.new.items ≡ text.old.items ++ cut_line at cut.now) }
{
    put_numbered(text, b"CUT ", at as u64)?;
    put_numbered(text, b" LINE ", u64::from(cut.line))?;
    put_numbered(text, b" TO ", u64::from(cut.to))?;
    text.push(b'\n')?;
    Ok(())
}

/// Writes the lines of the cuts at the pool of this number.
fn put_cuts(text: &mut Vec<u8>, at: usize, cuts: &[Cut]) -> Result<(), NoMemory>
    ensures { OnOk result (text.new.items ≡ text.old.items ++ flat_map (cut_line at) cuts.now) }
{
    for cut in cuts {
        put_cut(text, at, cut)?;
    }
    Ok(())
}

/// Writes the lines of the cuts at the pools, which are numbered from 0.
pub(crate) fn put_cuts_of_pools(
    alloc: Global,
    text: &mut Vec<u8>,
    options: &Options,
    pools: &[Pool],
) -> Result<(), NoMemory>
    ensures { OnOk result (text.new.items ≡ text.old.items ++ cut_lines options.now 0 pools.now) }
{
    for (at, pool) in pools.iter().enumerate() {
        let cuts = cuts_at(alloc, options, pool)?;
        put_cuts(text, at, cuts.as_slice())?;
    }
    Ok(())
}
