ghost use Rattle.std.specs.Prelude.{◌≡◌, IfOk, OnOk};
ghost use Rattle.options_text.specs.Options.{options_among, with_entry};
ghost use Rattle.options_text.specs.Parts.{file_of};

use crate::entry::Entry;
use crate::keyword::LogKeyword;
use lic_types::{Group, Name, NoMemory, Note, RuleLine};
use std::alloc::Global;

/// The groups, rules and notes of entries, and the keyword of each note.
#[derive(Drop)]
pub struct Parts {
    pub groups: Vec<Group>,
    pub lines: Vec<RuleLine>,
    pub notes: Vec<Note>,
    pub logs: Vec<LogKeyword>,
}

/// Adds what an entry says.
fn add(parts: &mut Parts, entry: Entry) -> Result<(), NoMemory>
    ensures { OnOk result (file_of parts.new ≡ with_entry (file_of parts.old) entry) }
{
    match entry {
        Entry::Lists(group) => parts.groups.push(group)?,
        Entry::Rules(rule) => parts.lines.push(rule)?,
        Entry::Passes(note, log) => {
            parts.notes.push(note)?;
            parts.logs.push(log)?;
        }
    }
    Ok(())
}

/// Sorts entries into groups, rules and notes.
#[tactic(auto, using(crate::proofs::Sorts::sorted_more))]
pub fn sort(alloc: Global, entries: Vec<Entry>) -> Result<Parts, NoMemory>
    ensures { IfOk result (λ parts. file_of parts ≡ options_among entries.items) }
{
    let mut parts = Parts {
        groups: Vec::new(alloc),
        lines: Vec::new(alloc),
        notes: Vec::new(alloc),
        logs: Vec::new(alloc),
    };
    for entry in entries {
        add(&mut parts, entry)?;
    }
    Ok(parts)
}
