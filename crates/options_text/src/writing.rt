ghost use Rattle.std.specs.Prelude.{◌≡◌, ◌+◌, ◌-◌, ◌<◌, ◌≤◌, ◌++◌, ◌∷◌, [], IfOk, OnOk, MatchOption, length, replicate};
ghost use Rattle.options_text.specs.Canonical.{canonical, line_text};
ghost use Rattle.options_text.specs.Merging.{IsRising, Writes, comes_before, entries_in_order, file_left, first_line, next_in, next_of};
ghost use Rattle.options_text.specs.declared.writing.Next.TheVariants.{OfGroup, OfRule, OfNote};

use crate::keyword::LogKeyword;
use crate::text::{group_text, log_name, rule_text};
use lic_types::{Group, Name, NoMemory, Note, RuleLine};
use std::alloc::Global;

/// What is left to write of options.
#[derive(Clone, Copy)]
pub struct Left<'a> {
    pub groups: &'a [Group],
    pub lines: &'a [RuleLine],
    pub notes: &'a [Note],
    pub logs: &'a [LogKeyword],
}

/// What the next line to write is of.
#[derive(Clone, Copy)]
pub enum Next {
    OfGroup,
    OfRule,
    OfNote,
    OfNone,
}

/// Writes empty lines from one number up to another.
fn fill(alloc: Global, text: &mut Vec<u8>, from: u64, to: u64) -> Result<(), NoMemory>
    ensures { OnOk result (text.new.items ≡ text.old.items ++ replicate (to - from) 10) }
{
    let feeds = vec![in alloc; b'\n'; to.saturating_sub(from) as usize]?;
    text.extend_from_slice(feeds.as_slice())?;
    Ok(())
}

/// Writes a line of this number, where `at` is the number of the next line.
fn put_line(
    alloc: Global,
    text: &mut Vec<u8>,
    at: u64,
    line: u32,
    words: &[u8],
) -> Result<(), NoMemory>
    ensures { OnOk result (text.new.items ≡ text.old.items ++ line_text at line words.now) }
{
    fill(alloc, text, at, u64::from(line))?;
    text.extend_from_slice(words)?;
    text.push(b'\n')?;
    Ok(())
}

fn group_line(groups: &[Group]) -> Option<u32>
    ensures { result ≡ first_line (λ g. g.line) groups.now }
{
    match groups {
        [] => None,
        [group, ..] => Some(group.line()),
    }
}

fn rule_line(rules: &[RuleLine]) -> Option<u32>
    ensures { result ≡ first_line (λ l. l.line) rules.now }
{
    match rules {
        [] => None,
        [rule, ..] => Some(rule.line),
    }
}

fn note_line(notes: &[Note]) -> Option<u32>
    ensures { result ≡ first_line (λ n. n.line) notes.now }
{
    match notes {
        [] => None,
        [note, ..] => Some(note.line),
    }
}

/// Whether there is a line, and no earlier one there.
fn comes_before(line: Option<u32>, other: Option<u32>) -> bool
    ensures { result ≡ comes_before line other }
{
    match (line, other) {
        (None, _) => false,
        (Some(_), None) => true,
        (Some(line), Some(other)) => line <= other,
    }
}

/// What the next line is of, by the first lines of the groups, rules and notes.
fn next_of(group: Option<u32>, rule: Option<u32>, note: Option<u32>) -> Next
    ensures { result ≡ next_of group rule note }
{
    if comes_before(group, rule) && comes_before(group, note) {
        Next::OfGroup
    } else if comes_before(rule, note) {
        Next::OfRule
    } else if note.is_some() {
        Next::OfNote
    } else {
        Next::OfNone
    }
}

/// What the next line is of.
fn next_in(left: &Left) -> Next
    ensures { result ≡ next_in (file_left left.now) }
{
    next_of(
        group_line(left.groups),
        rule_line(left.lines),
        note_line(left.notes),
    )
}

/// Writes the next line, which is of a group, and gives the number of the line behind it.
fn write_group(
    alloc: Global,
    text: &mut Vec<u8>,
    at: u64,
    left: &mut Left<'_>,
) -> Result<u64, NoMemory>
    requires next { next_in (file_left left.old) ≡ OfGroup }
    requires rising { IsRising (file_left left.old) }
    ensures { IfOk result (λ next. Writes text.old.items text.new.items at next (file_left left.old) (file_left left.new)) }
{
    let Some((group, others)) = left.groups.split_first() else {
        unreachable!()
    };
    let line = group.line();
    let words = group_text(alloc, group)?;
    put_line(alloc, text, at, line, words.as_slice())?;
    left.groups = others;
    Ok(u64::from(line) + 1)
}

/// Writes the next line, which is of a rule, and gives the number of the line behind it.
fn write_rule(
    alloc: Global,
    text: &mut Vec<u8>,
    at: u64,
    left: &mut Left<'_>,
) -> Result<u64, NoMemory>
    requires next { next_in (file_left left.old) ≡ OfRule }
    requires rising { IsRising (file_left left.old) }
    ensures { IfOk result (λ next. Writes text.old.items text.new.items at next (file_left left.old) (file_left left.new)) }
{
    let Some((rule, others)) = left.lines.split_first() else {
        unreachable!()
    };
    let words = rule_text(alloc, rule)?;
    put_line(alloc, text, at, rule.line, words.as_slice())?;
    left.lines = others;
    Ok(u64::from(rule.line) + 1)
}

/// Writes the next line, which is of a note, and gives the number of the line behind it.
fn write_note(
    alloc: Global,
    text: &mut Vec<u8>,
    at: u64,
    left: &mut Left<'_>,
) -> Result<u64, NoMemory>
    requires next { next_in (file_left left.old) ≡ OfNote }
    requires rising { IsRising (file_left left.old) }
    ensures { IfOk result (λ next. Writes text.old.items text.new.items at next (file_left left.old) (file_left left.new)) }
{
    let Some((note, notes)) = left.notes.split_first() else {
        unreachable!()
    };
    let Some((log, logs)) = left.logs.split_first() else {
        unreachable!()
    };
    put_line(alloc, text, at, note.line, log_name(log))?;
    left.notes = notes;
    left.logs = logs;
    Ok(u64::from(note.line) + 1)
}

/// Writes the next line, if there is one, and gives the number of the line behind it.
fn write_next(
    alloc: Global,
    text: &mut Vec<u8>,
    at: u64,
    left: &mut Left<'_>,
) -> Result<Option<u64>, NoMemory>
    requires { IsRising (file_left left.old) }
    ensures { IfOk result (λ next. MatchOption next
        ((entries_in_order (file_left left.old) ≡ []) × (text.new.items ≡ text.old.items))
        (λ next. Writes text.old.items text.new.items at next (file_left left.old) (file_left left.new))) }
{
    match next_in(left) {
        Next::OfGroup => Ok(Some(write_group(alloc, text, at, left)?)),
        Next::OfRule => Ok(Some(write_rule(alloc, text, at, left)?)),
        Next::OfNote => Ok(Some(write_note(alloc, text, at, left)?)),
        Next::OfNone => Ok(None),
    }
}

/// The canonical text of what is left to write of options.
#[tactic(auto, unfolding(crate::specs::Canonical::canonical))]
pub fn write_left(alloc: Global, left: Left<'_>) -> Result<Vec<u8>, NoMemory>
    requires { IsRising (file_left left) }
    ensures { IfOk result (λ text. text.items ≡ canonical (file_left left.entry)) }
{
    let mut left = left;
    let mut text = Vec::new(alloc);
    let mut at = 1;
    while let Some(next) = write_next(alloc, &mut text, at, &mut left)? {
        at = next;
    }
    Ok(text)
}
