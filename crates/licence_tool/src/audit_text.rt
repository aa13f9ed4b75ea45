//! What an audit tells of a log.
ghost use Rattle.std.specs.Prelude.{◌≡◌, ◌≤◌, ◌++◌, ◌∷◌, [], IfOk, OnOk, decimal, length, take};
ghost use Rattle.std.specs.List.{flat_map};
ghost use Rattle.licence_tool.specs.AuditText.{no_text, user_line, yes_text};

use lic_types::{NoMemory, put, put_number};
use log_audit::{Sums, UserSum};
use options_machine::Reply;
use reply_words::put_reply;
use std::alloc::Global;

/// Room for the line of a log that is no run.
pub const NO_ROOM: usize = 256;

/// Writes a text and a number behind it.
pub fn put_numbered(text: &mut Vec<u8>, front: &[u8], number: u64) -> Result<(), NoMemory>
    requires { length front.now ≤ 16 }
    ensures { OnOk result (text.new.items ≡ text.old.items ++ front.now ++ decimal number) }
{
    let mut room = [0; 48];
    let at = put(&mut room, 0, front);
    let at = put_number(&mut room, at, number);
    text.extend_from_slice(&room[..at])?;
    Ok(())
}

/// Writes a text, a number and the end of the line.
fn end_line(text: &mut Vec<u8>, front: &[u8], number: u64) -> Result<(), NoMemory>
    requires { length front.now ≤ 16 }
    ensures { OnOk result (text.new.items ≡ text.old.items ++ front.now ++ decimal number ++ 10 ∷ []) }
{
    put_numbered(text, front, number)?;
    text.push(b'\n')?;
    Ok(())
}

/// Writes the line of a user.
fn put_user(text: &mut Vec<u8>, user: &UserSum) -> Result<(), NoMemory>
    ensures { OnOk result (text.new.items ≡ text.old.items ++ user_line user.now) }
{
    text.extend_from_slice(b"USER ")?;
    text.extend_from_slice(user.user.bytes())?;
    end_line(text, b" GRANTS ", user.grants)
}

/// Writes the lines of users.
fn put_users(text: &mut Vec<u8>, users: &[UserSum]) -> Result<(), NoMemory>
    ensures { OnOk result (text.new.items ≡ text.old.items ++ flat_map user_line users.now) }
{
    for user in users {
        put_user(text, user)?;
    }
    Ok(())
}

/// The text that tells that a log is a run, with its sums. The one error is want of memory.
pub fn yes_text(alloc: Global, sums: &Sums) -> Result<Vec<u8>, NoMemory>
    ensures { IfOk result (λ text. text.items ≡ yes_text sums.now) }
{
    let mut text = Vec::new(alloc);
    end_line(&mut text, b"YES ENTRIES ", sums.entries())?;
    put_users(&mut text, sums.users())?;
    Ok(text)
}

/// Writes the line that tells that a log is no run: its first line that shows it, and what holds in the place of its
/// entry. It gives how many bytes it takes.
pub fn put_no(room: &mut [u8; NO_ROOM], line: u32, place: u64, moment: u64, reply: &Reply) -> usize
    ensures place { result ≤ 256 }
    ensures written { take result room.new ≡ no_text line place moment reply.now }
{
    let at = put(room, 0, b"NO LINE ");
    let at = put_number(room, at, u64::from(line));
    let at = put(room, at, b" EXPECTED #");
    let at = put_number(room, at, place);
    let at = put(room, at, b" ");
    let at = put_number(room, at, moment);
    let at = put(room, at, b" ");
    let at = put_reply(room, at, reply);
    put(room, at, b"\n")
}
