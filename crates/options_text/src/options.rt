ghost use Rattle.std.specs.Prelude.{◌≡◌, ◌<◌, ◌≤◌, ◌^◌, ◌==◌, ℕ, Ok, IfOk, map, count_by, length, true};
ghost use Rattle.std.specs.List.{list_all};
ghost use Rattle.std.specs.List.Sorted.{IsStrictlyIncreasing};
ghost use Rattle.lic_text.specs.Reads.{Reads};
ghost use Rattle.options_text.specs.Answers.{IsAnswer, fault_told};
ghost use Rattle.options_text.specs.Canonical.{canonical};
ghost use Rattle.options_text.specs.Entries.{is_within_limits};
ghost use Rattle.options_text.specs.Options.{IsOrderly, options_of};
ghost use Rattle.options_text.specs.Parts.{file_of};

use crate::entry::Entry;
use crate::fault::OptionsFault;
use crate::keyword::LogKeyword;
use crate::lines::RuleLines;
use crate::parts::{Parts, sort};
use crate::reading::read_entries;
use crate::undefined::first_undefined;
use crate::writing::{Left, write_left};
use group_roster::Roster;
use lic_text::numbers_rise;
use lic_types::{Group, NoMemory, Note, RuleLine};
use std::alloc::Global;
use std::marker::Model;

/// What an options file says: its groups, its rules, and a note for each line that isn't acted on. Beside each note
/// stands which of REPORTLOG, DEBUGLOG and NOLOG its line is. Who is in the groups is sorted once, when the file is
/// read.
#[derive(Drop)]
pub struct Options {
    roster: Roster,
    lines: RuleLines,
    notes: Vec<Note>,
    logs: Vec<LogKeyword>,
}

impl Model for Options {
    ghost use Rattle.options_text.specs.Options.{IsSaid, OptionsFile};

    ghost Value = { OptionsFile };

    ghost view = { λ o. record { groups = o.roster; lines = o.lines; notes = o.notes.items; logs = o.logs.items } };

    ghost invariant = { λ o. IsSaid (record { groups = o.roster; lines = o.lines; notes = o.notes.items; logs = o.logs.items }) };
}

impl Options {
    /// The GROUP and HOST_GROUP lines, in the order of the file.
    pub fn groups(&self) -> &[Group]
        ensures groups { result.now ≡ self.now.groups }
        ensures rising { IsStrictlyIncreasing (map (λ g. g.line) self.now.groups) }
    {
        self.roster.groups()
    }

    /// Who is in the groups, for the rules of its pools, which share it.
    pub fn roster(&self) -> &Roster
        ensures { result.now ≡ self.now.groups }
    {
        &self.roster
    }

    /// The rules, in the order of the file. Each has a line of its own; the numbers of MAX and RESERVE are up to
    /// 65,535, and seconds are below 2^40.
    pub fn lines(&self) -> &[RuleLine]
        ensures lines { result.now ≡ self.now.lines }
        ensures rising { IsStrictlyIncreasing (map (λ l. l.line) self.now.lines) }
        ensures once { (line : ℕ) → count_by (λ l. l.line == line) self.now.lines ≤ 1 }
        ensures within { list_all (λ l. is_within_limits l.rule) self.now.lines ≡ true }
    {
        self.lines.as_slice()
    }

    /// The rules, in the order of the file, for the rules of its pools, which share them.
    pub fn rule_lines(&self) -> &RuleLines
        ensures lines { result.now ≡ self.now.lines }
        ensures once { (line : ℕ) → count_by (λ l. l.line == line) self.now.lines ≤ 1 }
        ensures within { list_all (λ l. is_within_limits l.rule) self.now.lines ≡ true }
    {
        &self.lines
    }

    /// A note for each line that isn't acted on, in the order of the file.
    pub fn notes(&self) -> &[Note]
        ensures notes { result.now ≡ self.now.notes }
        ensures rising { IsStrictlyIncreasing (map (λ n. n.line) self.now.notes) }
    {
        self.notes.as_slice()
    }
}

/// The parts of an options file.
fn read_parts(alloc: Global, file: &[u8]) -> Result<Parts, OptionsFault>
    requires { length file.now < 2 ^ 32 }
    ensures parts { IsAnswer file_of result (options_of file.now) }
    ensures orderly { IfOk result (λ parts. IsOrderly (file_of parts)) }
{
    numbers_rise();
    let entries = read_entries(alloc, file)?;
    let parts = sort(alloc, entries)?;
    let undefined = first_undefined(alloc, &parts)?;
    match undefined {
        None => Ok(parts),
        Some(line) => Err(OptionsFault::UnknownGroup(line)),
    }
}

/// Reads an options file, of any bytes.
///
/// The keywords and the types are those of the FlexNet License Administration Guide, chapter on the options file; which
/// of them are known, what each says exactly, the limits and the order of faults are this project's own. The file is
/// read by logical lines, as `lic_text::lines` gives them. The first word of a line is its keyword. Keywords and types
/// may be in any ASCII case, and words past those of a form are ignored.
///
/// - `GROUP name user ..` and `HOST_GROUP name host ..` list one member or more. Lines of one kind and name count
///   together; a GROUP and a HOST_GROUP of one name are two groups.
/// - `INCLUDE feature type name` and `EXCLUDE feature type name`; `INCLUDEALL type name` and `EXCLUDEALL type name` for
///   all features.
/// - `RESERVE number feature type name` and `MAX number feature type name`, with a number up to 65,535.
/// - `LINGER feature seconds` and `TIMEOUT feature seconds`, `TIMEOUTALL seconds` for all features, below 2^40.
/// - `REPORTLOG`, `DEBUGLOG` and `NOLOG` are not acted on, which a note says.
///
/// A type is USER, HOST, DISPLAY, PROJECT, GROUP, USER_GROUP, which is GROUP, or HOST_GROUP.
///
/// The first line at fault decides. In one line the faults are tried in this order: `Line`; `TooMany` where 4,096 lines
/// with words stand before it; `UnknownKeyword`; `MissingWord` where the form has more words; then the words from left
/// to right, a number for `BadNumber`, a feature for `Selector` if it has a `:` and else for `BadName`, a type for
/// `UnknownKind`, any other name for `BadName`; then `TooMany` where the group lines list more than 65,536 members up
/// to here. `UnknownGroup` comes only where no line of the file has another fault, for the first rule of type GROUP or
/// HOST_GROUP whose name no line of that kind has, earlier or later. `NoMemory` may come at any time. A refusal gives
/// nothing.
pub fn read_options(alloc: Global, file: &[u8]) -> Result<Options, OptionsFault>
    requires { length file.now < 2 ^ 32 }
    ensures { Reads (λ options. options) fault_told (options_of file.now) result }
{
    let parts = read_parts(alloc, file)?;
    Ok(Options {
        roster: Roster::of(alloc, parts.groups)?,
        lines: RuleLines::of(alloc, parts.lines)?,
        notes: parts.notes,
        logs: parts.logs,
    })
}

/// Writes the canonical text of options: each group, rule and note at its own physical line, the lines between empty.
///
/// Words have one space between, and one space more stands behind a last word that ends in a backslash, so that the
/// line isn't continued. Keywords and types are in capitals, numbers without leading zeros; REPORTLOG, DEBUGLOG and
/// NOLOG stand alone. Each line ends in LF. This form is this project's own.
///
/// `read_options` of the text gives equal options, so that writing those gives the same text.
pub fn write_options(alloc: Global, options: &Options) -> Result<Vec<u8>, NoMemory>
    ensures text { IfOk result (λ text. text.items ≡ canonical options.now) }
    ensures reads_back { IfOk result (λ text. options_of text.items ≡ Ok options.now) }
{
    let left = Left {
        groups: options.roster.groups(),
        lines: options.lines.as_slice(),
        notes: options.notes.as_slice(),
        logs: options.logs.as_slice(),
    };
    write_left(alloc, left)
}
