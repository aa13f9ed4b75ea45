use lic_text::TextFault;
use lic_types::{NoMemory, put, put_number};
use std::alloc::{AllocError, AllocFailed};
use thiserror::Error;

/// Why a licence file is refused. The first line at fault decides, and a refusal gives nothing.
#[derive(Clone, Copy, Debug, PartialEq, Eq, Error)]
#[error("line {}: {}", self.line(), self.text())]
pub enum LicenceFault {
    /// The logical line is too long, or the file ends in a continued line.
    Line(TextFault),
    /// In this line this word, counted from 1, is missing, or is no keyword or no name.
    #[error("line {}: {} {}", self.line(), self.text(), .1)]
    BadWord(u32, u32),
    /// The count of this line is neither `uncounted` nor a number from 0 to 65,535, or the counts of its pool pass
    /// 65,535 with it.
    BadCount(u32),
    /// The expiry of this line is neither `permanent` nor a date.
    BadDate(u32),
    /// The version of this line isn't 1 to 10 bytes of digits, or of digits, a point and digits.
    BadVersion(u32),
    /// This line would make a 65th pool.
    TooManyPools(u32),
    /// There was too little memory.
    #[error("{}", self.text())]
    NoMemory,
}

impl LicenceFault {
    ghost use Rattle.std.specs.Prelude.{◌≡◌, ◌+◌, ◌≤◌, ◌++◌, length, take};
    ghost use Rattle.feature_lines.specs.FaultText.{licence_line, licence_text, licence_words};

    /// The line at fault, counted from 1, and 0 for want of memory (this project).
    pub fn line(&self) -> u32
        ensures { result ≡ licence_line self.now }
    {
        match self {
            LicenceFault::Line(fault) => fault.line(),
            LicenceFault::BadWord(line, _) => *line,
            LicenceFault::BadCount(line) => *line,
            LicenceFault::BadDate(line) => *line,
            LicenceFault::BadVersion(line) => *line,
            LicenceFault::TooManyPools(line) => *line,
            LicenceFault::NoMemory => 0,
        }
    }

    /// The words that are printed of it, in small letters, without the line, the number of a bad word and an end of
    /// line (this project).
    pub fn text(&self) -> &'static str
        ensures text { result.now ≡ licence_words self.now }
        ensures short { length result.now ≤ 17 }
    {
        match self {
            LicenceFault::Line(fault) => fault.text(),
            LicenceFault::BadWord(_, _) => "bad word",
            LicenceFault::BadCount(_) => "bad count",
            LicenceFault::BadDate(_) => "bad date",
            LicenceFault::BadVersion(_) => "bad version",
            LicenceFault::TooManyPools(_) => "too many pools",
            LicenceFault::NoMemory => "no memory",
        }
    }

    /// Writes all that is printed of it, but for the line, behind the first `at` bytes of a room, and gives the offset
    /// behind it: its words, and the number of a bad word behind them (this project). It takes 29 bytes at most.
    pub fn put_text(&self, room: &mut [u8], at: usize) -> usize
        requires { at + 29 ≤ length room.old }
        ensures room { length room.new ≡ length room.old }
        ensures offset { result ≤ at + 29 }
        ensures written { take result room.new ≡ take at room.old ++ licence_text self.now }
    {
        let at = put(room, at, self.text().as_bytes());
        match self {
            LicenceFault::BadWord(_, word) => {
                let at = put(room, at, b" ");
                put_number(room, at, u64::from(*word))
            }
            _ => at,
        }
    }
}

impl From<NoMemory> for LicenceFault {
    ghost use Rattle.std.specs.Prelude.{◌≡◌};
    ghost use Rattle.feature_lines.specs.declared.fault.LicenceFault.TheVariants.{NoMemory as TooLittle};

    ghost from_gives = { λ _ e. e ≡ TooLittle };

    fn from(_failed: NoMemory) -> LicenceFault {
        LicenceFault::NoMemory
    }
}

impl From<AllocError> for LicenceFault {
    ghost use Rattle.std.specs.Prelude.{◌≡◌};
    ghost use Rattle.feature_lines.specs.declared.fault.LicenceFault.TheVariants.{NoMemory as TooLittle};

    ghost from_gives = { λ _ e. e ≡ TooLittle };

    fn from(_failed: AllocError) -> LicenceFault {
        LicenceFault::NoMemory
    }
}

impl<T: Drop> From<AllocFailed<T>> for LicenceFault {
    ghost use Rattle.std.specs.Prelude.{◌≡◌};
    ghost use Rattle.feature_lines.specs.declared.fault.LicenceFault.TheVariants.{NoMemory as TooLittle};

    ghost from_gives = { λ _ e. e ≡ TooLittle };

    fn from(_failed: AllocFailed<T>) -> LicenceFault {
        LicenceFault::NoMemory
    }
}
