ghost use Rattle.std.specs.Prelude.{◌≡◌, ◌+◌, ◌≤◌, ◌++◌, codes, decimal, length, take};
ghost use Rattle.feature_lines.specs.FaultText.{licence_line, licence_text};
ghost use Rattle.options_text.specs.FaultText.{options_line, options_text};
ghost use Rattle.outside.specs.Told.{HasRisen};
ghost use Rattle.licence_tool.specs.Status.{fault_line, file_called, line_of, set_called, third_called};
ghost use Rattle.licence_tool.specs.Tool.{GainsLine};

use crate::command::Third;
use crate::room::ROOM;
use crate::status::Status;
use feature_lines::LicenceFault;
use lic_types::{put, put_number};
use options_text::OptionsFault;
use outside::Sink;
use script_words::ScriptFault;

/// Writes what the options file of a rule set behind the first is called.
fn put_set(room: &mut [u8; ROOM], set: u8) -> usize
    ensures offset { result ≤ 28 }
    ensures written { take result room.new ≡ set_called set }
{
    let at = put(room, 0, b"options ");
    put_number(room, at, u64::from(set))
}

/// Writes what the third file is called.
fn put_third(room: &mut [u8; ROOM], third: Third) -> usize
    ensures offset { result ≤ 28 }
    ensures written { take result room.new ≡ third_called third }
{
    match third {
        Third::Script => put(room, 0, b"script"),
        Third::Log => put(room, 0, b"log"),
    }
}

/// Writes what the file at a position is called.
fn put_file(room: &mut [u8; ROOM], third: Third, file: u8) -> usize
    ensures offset { result ≤ 28 }
    ensures written { take result room.new ≡ file_called third file }
{
    match file {
        1 => put(room, 0, b"licence"),
        2 => put(room, 0, b"options"),
        3 => put_third(room, third),
        _ => put_set(room, file.saturating_sub(3)),
    }
}

/// Writes the number of a line at fault behind what its file is called.
fn put_line(room: &mut [u8; ROOM], at: usize, line: u32) -> usize
    requires { at ≤ 28 }
    ensures offset { result ≤ at + 29 }
    ensures written { take result room.new ≡ take at room.old ++ codes ": line " ++ decimal line ++ codes ": " }
{
    let at = put(room, at, b": line ");
    let at = put_number(room, at, u64::from(line));
    put(room, at, b": ")
}

fn put_licence_fault(room: &mut [u8; ROOM], fault: &LicenceFault) -> usize
    ensures offset { result ≤ 96 }
    ensures written { take result room.new ≡ fault_line (codes "licence") (licence_line fault.now) (licence_text fault.now) }
{
    let at = put(room, 0, b"licence");
    let at = put_line(room, at, fault.line());
    let at = fault.put_text(room, at);
    put(room, at, b"\n")
}

/// Writes the fault of an options file behind what the file is called.
fn put_options_fault(room: &mut [u8; ROOM], at: usize, fault: &OptionsFault) -> usize
    requires { at ≤ 28 }
    ensures offset { result ≤ 96 }
    ensures written { take result room.new ≡ fault_line (take at room.old) (options_line fault.now) (options_text fault.now) }
{
    let at = put_line(room, at, fault.line());
    let at = put(room, at, fault.text().as_bytes());
    put(room, at, b"\n")
}

fn put_script_fault(room: &mut [u8; ROOM], third: Third, fault: &ScriptFault) -> usize
    ensures offset { result ≤ 96 }
    ensures written { take result room.new ≡ line_of third (Status.Script fault.now) }
{
    let at = put_third(room, third);
    let at = put_line(room, at, fault.line);
    let at = put(room, at, fault.fault.text().as_bytes());
    put(room, at, b"\n")
}

/// Writes the line that a status has on standard error, its LF with it, at the start of the room, and gives how many
/// bytes it takes: none for `Done`. `third` is what the command's third file is called in it. The bytes of the room
/// behind the line are left open. The lines are this project's own.
pub fn put_status(room: &mut [u8; ROOM], third: Third, status: &Status) -> usize
    ensures offset { result ≤ 96 }
    ensures written { take result room.new ≡ line_of third status.now }
{
    match status {
        Status::Done => 0,
        Status::Usage => put(room, 0, b"usage\n"),
        Status::Licence(fault) => put_licence_fault(room, fault),
        Status::Options(fault) => {
            let at = put_file(room, third, 2);
            put_options_fault(room, at, fault)
        }
        Status::MoreOptions(set, fault) => {
            let at = put_set(room, *set);
            put_options_fault(room, at, fault)
        }
        Status::Script(fault) => put_script_fault(room, third, fault),
        Status::ReadFault(file) => {
            let at = put_file(room, third, *file);
            put(room, at, b": read fault\n")
        }
        Status::WriteFault => put(room, 0, b"write fault\n"),
        Status::NoMemory => put(room, 0, b"no memory\n"),
        Status::FileTooLong(file) => {
            let at = put_file(room, third, *file);
            put(room, at, b": longer than 1048576 bytes\n")
        }
        Status::AuditNo(_) => put(room, 0, b"log: not a run\n"),
    }
}

/// Writes a line to standard error, unless it is empty. A write that fails is told to nobody; a prefix of the line was
/// written then.
pub fn write_line<E: Sink>(err: &mut E, line: &[u8])
    ensures { GainsLine (E.held err.old) (E.held err.new) (HasRisen (E.faults err.old) (E.faults err.new)) line.now }
{
    if !line.is_empty() {
        let _ = err.write(line);
    }
}
