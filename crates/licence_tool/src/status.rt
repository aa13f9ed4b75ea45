ghost use Rattle.std.specs.Prelude.{◌≡◌};
ghost use Rattle.licence_tool.specs.Status.{code_of};

use feature_lines::LicenceFault;
use options_text::OptionsFault;
use script_words::ScriptFault;
use std::alloc::AllocFailed;

/// How a command ends. A file is told by its position: 1 is the licence, 2 the options file, 3 the script or the log,
/// and the further options files stand behind it.
#[derive(Clone, Copy, Debug, PartialEq, Eq)]
pub enum Status {
    /// Every file was read to its end and accepted, and all was written.
    Done,
    /// The words are no command.
    Usage,
    /// The licence file is refused.
    Licence(LicenceFault),
    /// The options file is refused.
    Options(OptionsFault),
    /// The further options file of this number, from 1, is refused.
    MoreOptions(u8, OptionsFault),
    /// The script of a replay or a report is refused, or the log of an audit.
    Script(ScriptFault),
    /// The file at this position wasn't read.
    ReadFault(u8),
    /// Standard output didn't take all of it.
    WriteFault,
    /// There was too little memory.
    NoMemory,
    /// The file at this position is longer than 1,048,576 bytes.
    FileTooLong(u8),
    /// Every file was accepted, and the log is no run: this line, by its number from 1, is the first that shows it.
    AuditNo(u32),
}

impl Status {
    /// The exit status of the program.
    pub fn code(self) -> u8
        ensures { result ≡ code_of self }
    {
        match self {
            Status::Done => 0,
            Status::Usage => 2,
            Status::Licence(_) => 3,
            Status::Options(_) | Status::MoreOptions(_, _) => 4,
            Status::Script(_) => 5,
            Status::ReadFault(_) => 6,
            Status::WriteFault => 7,
            Status::NoMemory => 8,
            Status::FileTooLong(_) => 10,
            Status::AuditNo(_) => 11,
        }
    }
}

impl<T: Drop> From<AllocFailed<T>> for Status {
    ghost use Rattle.std.specs.Prelude.{◌≡◌};
    ghost use Rattle.licence_tool.specs.declared.status.Status.TheVariants.{NoMemory};

    ghost from_gives = { λ _ made. made ≡ NoMemory };

    fn from(_failed: AllocFailed<T>) -> Status {
        Status::NoMemory
    }
}
