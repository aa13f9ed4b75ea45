use lic_text::TextFault;
use lic_types::NoMemory;
use std::alloc::{AllocError, AllocFailed};
use thiserror::Error;

/// Why an options file is refused, with the physical line, counted from 1, on which the line at fault begins.
///
/// The first line at fault decides, and within a line the faults are tried in the order of the grammar, which stands at
/// `read_options`. `UnknownGroup` is judged last, over the whole file.
#[derive(Clone, Copy, Debug, PartialEq, Eq, Error)]
#[error("line {}: {}", self.line(), self.text())]
pub enum OptionsFault {
    /// The line is too long, or the file ends in a continued line.
    Line(TextFault),
    /// The first word is no keyword of an options file that this project knows.
    UnknownKeyword(u32),
    /// The keyword needs more words.
    MissingWord(u32),
    /// A word that is to be a number isn't one, or is past its limit.
    BadNumber(u32),
    /// The type is none of USER, HOST, DISPLAY, PROJECT, GROUP, USER_GROUP and HOST_GROUP.
    UnknownKind(u32),
    /// The rule speaks of a group that no line of the file defines.
    UnknownGroup(u32),
    /// The feature has a `:`, so it is a selector, which this project doesn't serve.
    Selector(u32),
    /// A word that is to be a name isn't one.
    BadName(u32),
    /// The file has more than 4,096 lines with words, or more than 65,536 members in its group lines.
    TooMany(u32),
    /// There was too little memory.
    #[error("{}", self.text())]
    NoMemory,
}

impl OptionsFault {
    ghost use Rattle.std.specs.Prelude.{◌≡◌, ◌≤◌, length};
    ghost use Rattle.options_text.specs.FaultText.{options_line, options_text};

    /// The line at fault, counted from 1, and 0 for want of memory (this project).
    pub fn line(&self) -> u32
        ensures { result ≡ options_line self.now }
    {
        match self {
            OptionsFault::Line(fault) => fault.line(),
            OptionsFault::UnknownKeyword(line) => *line,
            OptionsFault::MissingWord(line) => *line,
            OptionsFault::BadNumber(line) => *line,
            OptionsFault::UnknownKind(line) => *line,
            OptionsFault::UnknownGroup(line) => *line,
            OptionsFault::Selector(line) => *line,
            OptionsFault::BadName(line) => *line,
            OptionsFault::TooMany(line) => *line,
            OptionsFault::NoMemory => 0,
        }
    }

    /// The text that is printed of it, in small letters, without the line and without an end of line (this project).
    pub fn text(&self) -> &'static str
        ensures text { result.now ≡ options_text self.now }
        ensures short { length result.now ≤ 17 }
    {
        match self {
            OptionsFault::Line(fault) => fault.text(),
            OptionsFault::UnknownKeyword(_) => "unknown keyword",
            OptionsFault::MissingWord(_) => "missing word",
            OptionsFault::BadNumber(_) => "bad number",
            OptionsFault::UnknownKind(_) => "unknown kind",
            OptionsFault::UnknownGroup(_) => "unknown group",
            OptionsFault::Selector(_) => "selector",
            OptionsFault::BadName(_) => "bad name",
            OptionsFault::TooMany(_) => "too many",
            OptionsFault::NoMemory => "no memory",
        }
    }
}

impl From<NoMemory> for OptionsFault {
    ghost use Rattle.std.specs.Prelude.{◌≡◌};
    ghost use Rattle.options_text.specs.declared.fault.OptionsFault.TheVariants.{NoMemory as no_memory};

    ghost from_gives = { λ _ e. e ≡ no_memory };

    fn from(_failed: NoMemory) -> OptionsFault {
        OptionsFault::NoMemory
    }
}

impl From<AllocError> for OptionsFault {
    ghost use Rattle.std.specs.Prelude.{◌≡◌};
    ghost use Rattle.options_text.specs.declared.fault.OptionsFault.TheVariants.{NoMemory as no_memory};

    ghost from_gives = { λ _ e. e ≡ no_memory };

    fn from(_failed: AllocError) -> OptionsFault {
        OptionsFault::NoMemory
    }
}

impl<T: Drop> From<AllocFailed<T>> for OptionsFault {
    ghost use Rattle.std.specs.Prelude.{◌≡◌};
    ghost use Rattle.options_text.specs.declared.fault.OptionsFault.TheVariants.{NoMemory as no_memory};

    ghost from_gives = { λ _ e. e ≡ no_memory };

    fn from(_failed: AllocFailed<T>) -> OptionsFault {
        OptionsFault::NoMemory
    }
}
