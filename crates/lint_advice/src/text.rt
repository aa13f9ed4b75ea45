//! Advice as text.
ghost use Rattle.std.specs.Prelude.{◌≡◌, ◌++◌, IfOk, OnOk, codes, decimal};
ghost use Rattle.lic_types.specs.Days.{day_text};
ghost use Rattle.lint_advice.specs.Text.{advice_line, cut_said, file_of, group_said, line_of, said, text_of};

use crate::advice::Advice;
use itoa::Buffer;
use lic_types::{Day, Name, NoMemory};
use std::alloc::Global;

/// The file of whose line the advice is.
fn file_of(advice: &Advice) -> &'static [u8]
    ensures { result.now ≡ file_of advice.now }
{
    match advice {
        Advice::Expires { .. } => b"licence",
        _ => b"options",
    }
}

/// The line of which the advice is.
fn line_of(advice: &Advice) -> u32
    ensures { result ≡ line_of advice.now }
{
    match advice {
        Advice::NoRule { line, .. } => *line,
        Advice::NoPool { line, .. } => *line,
        Advice::Cut { line, .. } => *line,
        Advice::IdleMax { line, .. } => *line,
        Advice::ShutOut { line, .. } => *line,
        Advice::NeverRead { line, .. } => *line,
        Advice::ShortTimeout { line, .. } => *line,
        Advice::Expires { line, .. } => *line,
    }
}

/// Writes a text, and a word behind it.
fn put_word(text: &mut Vec<u8>, front: &[u8], word: &[u8]) -> Result<(), NoMemory>
    ensures { OnOk result (text.new.items ≡ text.old.items ++ (front.now ++ word.now)) }
{
    text.extend_from_slice(front)?;
    text.extend_from_slice(word)?;
    Ok(())
}

/// Writes a number.
fn put_decimal(text: &mut Vec<u8>, number: u64) -> Result<(), NoMemory>
    ensures { OnOk result (text.new.items ≡ text.old.items ++ decimal number) }
{
    let mut buffer = Buffer::new();
    text.extend_from_slice(buffer.format(number).as_bytes())?;
    Ok(())
}

/// Writes a number between two texts.
fn put_number(text: &mut Vec<u8>, front: &[u8], number: u64, back: &[u8]) -> Result<(), NoMemory>
    ensures { OnOk result (text.new.items ≡ text.old.items ++ (front.now ++ decimal number ++ back.now)) }
{
    text.extend_from_slice(front)?;
    put_decimal(text, number)?;
    text.extend_from_slice(back)?;
    Ok(())
}

/// Writes that no rule names a group.
fn put_group(text: &mut Vec<u8>, of_hosts: bool, name: &Name) -> Result<(), NoMemory>
    ensures { OnOk result (text.new.items ≡ text.old.items ++ group_said of_hosts name.now) }
{
    if of_hosts {
        put_word(text, b"no rule names the host group ", name.bytes())
    } else {
        put_word(text, b"no rule names the group ", name.bytes())
    }
}

/// Writes that a line is cut.
fn put_cut(text: &mut Vec<u8>, to: u32, pool: usize) -> Result<(), NoMemory>
    ensures { OnOk result (text.new.items ≡ text.old.items ++ cut_said to pool) }
{
    put_number(text, b"RESERVE is cut to ", u64::from(to), b" at pool ")?;
    put_decimal(text, pool as u64)?;
    Ok(())
}

/// Writes that a pool expires.
fn put_expiry(text: &mut Vec<u8>, name: &[u8], day: &Day) -> Result<(), NoMemory>
    ensures { OnOk result (text.new.items ≡ text.old.items ++ (name.now ++ codes " is good to " ++ day_text day.now)) }
{
    let mut room = [0; 16];
    let length = day.put(&mut room);
    put_word(text, name, b" is good to ")?;
    text.extend_from_slice(&room[..length])?;
    Ok(())
}

/// Writes what a piece of advice says, without its line.
fn put_said(text: &mut Vec<u8>, advice: &Advice) -> Result<(), NoMemory>
    ensures { OnOk result (text.new.items ≡ text.old.items ++ said advice.now) }
{
    match advice {
        Advice::NoRule { of_hosts, name, .. } => put_group(text, *of_hosts, name),
        Advice::NoPool { feature, .. } => {
            put_word(text, b"no pool has the feature ", feature.bytes())
        }
        Advice::Cut { pool, to, .. } => put_cut(text, *to, *pool),
        Advice::IdleMax { number, .. } => {
            put_number(text, b"MAX ", u64::from(*number), b" limits nobody")
        }
        Advice::ShutOut { by, .. } => put_number(
            text,
            b"EXCLUDEALL at line ",
            u64::from(*by),
            b" shuts them out already",
        ),
        Advice::NeverRead { first, .. } => {
            put_number(text, b"never read: line ", u64::from(*first), b" holds")
        }
        Advice::ShortTimeout { seconds, .. } => {
            put_number(text, b"a timeout of ", *seconds, b" counts as 900")
        }
        Advice::Expires { name, day, .. } => put_expiry(text, name.bytes(), day),
    }
}

/// Writes the line of a piece of advice.
fn put_advice(text: &mut Vec<u8>, advice: &Advice) -> Result<(), NoMemory>
    ensures { OnOk result (text.new.items ≡ text.old.items ++ advice_line advice.now) }
{
    text.extend_from_slice(file_of(advice))?;
    put_number(text, b": line ", u64::from(line_of(advice)), b": ")?;
    put_said(text, advice)?;
    text.push(b'\n')?;
    Ok(())
}

/// The text of advice: a line for each piece, with the file and the physical line of which it is. The form is this
/// project's own. The one error is want of memory.
pub fn advice_text(alloc: Global, advice: &[Advice]) -> Result<Vec<u8>, NoMemory>
    ensures { IfOk result (λ text. text.items ≡ text_of advice.now) }
{
    let mut text = Vec::new(alloc);
    for piece in advice {
        put_advice(&mut text, piece)?;
    }
    Ok(text)
}
