ghost use Rattle.std.specs.Prelude.{◌≡◌, ◌+◌, ◌<◌, ◌≤◌, ◌^◌, [], length, IfOk, true};
ghost use Rattle.std.specs.List.{list_all};
ghost use Rattle.lic_text.specs.Left.{words_left};
ghost use Rattle.lic_text.specs.Lines.{lines_of};
ghost use Rattle.lic_text.specs.LinesLeft.{item_view};
ghost use Rattle.options_text.specs.Answers.{IsAnswer};
ghost use Rattle.options_text.specs.Entries.{entries_after, entry_behind, entry_next, is_fit, line_of, members_in};
ghost use Rattle.options_text.specs.Forms.{entry_of, form_of};

use crate::entry::Entry;
use crate::fault::OptionsFault;
use crate::form::{
    read_admits, read_admits_all, read_group, read_shares, read_times, read_times_all,
};
use crate::keyword::{Keyword, read_keyword};
use lic_text::{Line, TextFault, Words, lines};
use lic_types::{Note, NoteKind};
use std::alloc::Global;

/// The most lines with words that an options file may have.
const LINE_LIMIT: usize = 4096;

/// The most members that the group lines of an options file may list together.
const MEMBER_LIMIT: usize = 65_536;

impl Entry {
    /// The line that says it.
    fn line(&self) -> u32
        ensures { result ≡ line_of self.now }
    {
        match self {
            Entry::Lists(group) => group.line(),
            Entry::Rules(rule) => rule.line,
            Entry::Passes(note, _) => note.line,
        }
    }

    /// How many members it lists.
    fn members(&self) -> usize
        ensures { result ≡ members_in self.now }
    {
        match self {
            Entry::Lists(group) => group.members().len(),
            Entry::Rules(_) => 0,
            Entry::Passes(_, _) => 0,
        }
    }
}

/// What the words behind a keyword say.
fn read_form(
    alloc: Global,
    line: u32,
    keyword: Keyword,
    words: Words<'_>,
) -> Result<Entry, OptionsFault>
    ensures entry { IsAnswer (λ entry. entry) result (form_of line keyword (words_left words.entry)) }
    ensures fit { IfOk result (λ entry. is_fit entry ≡ true) }
{
    match keyword {
        Keyword::Lists { of_hosts } => {
            Ok(Entry::Lists(read_group(alloc, line, of_hosts, words)?))
        }
        Keyword::Admits(access) => Ok(Entry::Rules(read_admits(line, access, words)?)),
        Keyword::AdmitsAll(access) => Ok(Entry::Rules(read_admits_all(line, access, words)?)),
        Keyword::Shares(share) => Ok(Entry::Rules(read_shares(line, share, words)?)),
        Keyword::Times(span) => Ok(Entry::Rules(read_times(line, span, words)?)),
        Keyword::TimesAll => Ok(Entry::Rules(read_times_all(line, words)?)),
        Keyword::Logs(log) => Ok(Entry::Passes(
            Note {
                line,
                kind: NoteKind::NotActed,
            },
            log,
        )),
    }
}

/// What the words of a line say.
#[tactic(auto, unfolding(crate::specs::Forms::entry_of))]
fn read_entry(alloc: Global, line: u32, words: Words<'_>) -> Result<Entry, OptionsFault>
    ensures entry { IsAnswer (λ entry. entry) result (entry_of line (words_left words.entry)) }
    ensures fit { IfOk result (λ entry. is_fit entry ≡ true) }
{
    let mut words = words;
    let unknown = OptionsFault::UnknownKeyword(line);
    let keyword = words.next().ok_or(unknown)?;
    let keyword = read_keyword(keyword).ok_or(unknown)?;
    read_form(alloc, line, keyword, words)
}

/// What a line says that so many lines stand before.
fn read_line(
    alloc: Global,
    before: usize,
    line: Result<Line<'_>, TextFault>,
) -> Result<Entry, OptionsFault>
    ensures entry { IsAnswer (λ entry. entry) result (entry_behind before (item_view line.entry)) }
    ensures fit { IfOk result (λ entry. is_fit entry ≡ true) }
{
    match line {
        Err(fault) => Err(OptionsFault::Line(fault)),
        Ok(line) => {
            if before >= LINE_LIMIT {
                Err(OptionsFault::TooMany(line.first()))
            } else {
                read_entry(alloc, line.first(), line.words())
            }
        }
    }
}

/// What a line says that so many lines, with so many members, stand before.
fn read_next(
    alloc: Global,
    before: usize,
    members: usize,
    line: Result<Line<'_>, TextFault>,
) -> Result<Entry, OptionsFault>
    requires { members ≤ MEMBER_LIMIT }
    ensures entry { IsAnswer (λ entry. entry) result (entry_next before members (item_view line.entry)) }
    ensures fit { IfOk result (λ entry. is_fit entry ≡ true) }
    ensures few { IfOk result (λ entry. members + members_in entry ≤ MEMBER_LIMIT) }
{
    let entry = read_line(alloc, before, line)?;
    if entry.members() > MEMBER_LIMIT - members {
        return Err(OptionsFault::TooMany(entry.line()));
    }
    Ok(entry)
}

/// What the lines of a file say.
pub fn read_entries(alloc: Global, file: &[u8]) -> Result<Vec<Entry>, OptionsFault>
    requires { length file.now < 2 ^ 32 }
    ensures entries { IsAnswer (λ entries. entries.items) result (entries_after [] (lines_of file.now)) }
    ensures fit { IfOk result (λ entries. list_all is_fit entries.items ≡ true) }
{
    let mut entries = Vec::new(alloc);
    let mut members = 0;
    for line in lines(file) {
        let entry = read_next(alloc, entries.len(), members, line)?;
        members += entry.members();
        entries.push(entry)?;
    }
    Ok(entries)
}
