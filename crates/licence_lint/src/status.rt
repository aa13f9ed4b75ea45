ghost use Rattle.std.specs.Prelude.{◌≡◌, ◌≤◌, length, take};
ghost use Rattle.licence_lint.specs.Status.{lint_code, lint_line};

use licence_tool::{ROOM, Status, Third, put_status};

/// How the program ends.
#[derive(Clone, Copy, Debug, PartialEq, Eq)]
pub enum LintStatus {
    /// As a tool ends: `Done` is without advice.
    Tool(Status),
    /// Both files were accepted, and there was advice, all of which was written.
    Advised,
}

impl LintStatus {
    /// The exit status of the program.
    pub fn code(self) -> u8
        ensures { result ≡ lint_code self }
    {
        match self {
            LintStatus::Tool(status) => status.code(),
            LintStatus::Advised => 1,
        }
    }
}

/// Writes the line that a status has on standard error, its LF with it, at the start of the room, and gives how many
/// bytes it takes: none for `Done` and `Advised`.
pub fn put_lint_status(room: &mut [u8; ROOM], status: &LintStatus) -> usize
    ensures offset { result ≤ 96 }
    ensures written { take result room.new ≡ lint_line status.now }
{
    match status {
        LintStatus::Tool(status) => put_status(room, Third::Script, status),
        LintStatus::Advised => 0,
    }
}
