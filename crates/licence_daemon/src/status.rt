ghost use Rattle.std.specs.Prelude.{◌≡◌, ◌≤◌, length, take};
ghost use Rattle.licence_daemon.specs.Status.{daemon_code, serve_line};

use lic_types::put;
use licence_tool::{ROOM, Status, Third, put_status};

/// How the program ends.
#[derive(Clone, Copy, Debug, PartialEq, Eq)]
pub enum DaemonStatus {
    /// As an offline command ends.
    Tool(Status),
    /// The daemon could not listen at its path, or one of its posts could not be made; no session was served.
    SiteFault,
    /// A door was broken: so many accepts failed there that its worker gave up. Logs and tallies were written.
    DoorFault,
}

impl DaemonStatus {
    /// The exit status of the program.
    pub fn code(self) -> u8
        ensures { result ≡ daemon_code self }
    {
        match self {
            DaemonStatus::Tool(status) => status.code(),
            DaemonStatus::SiteFault => 9,
            DaemonStatus::DoorFault => 13,
        }
    }
}

/// Writes the line that a `serve` with this end has on standard error, its LF with it, at the start of the room, and
/// gives how many bytes it takes: none for `Done`.
pub fn put_serve_status(room: &mut [u8; ROOM], status: &DaemonStatus) -> usize
    ensures offset { result ≤ 96 }
    ensures written { take result room.new ≡ serve_line status.now }
{
    match status {
        DaemonStatus::Tool(status) => put_status(room, Third::Script, status),
        DaemonStatus::SiteFault => put(room, 0, b"site fault\n"),
        DaemonStatus::DoorFault => put(room, 0, b"door fault\n"),
    }
}
