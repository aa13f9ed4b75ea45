//! The trial: what its sessions come to, and what is written of it.
ghost use Rattle.std.specs.Prelude.{◌≡◌, ◌+◌, ◌≤◌, ◌++◌, ℕ, decimal, false, length, take};
ghost use Rattle.daemon_run.specs.Gives.{kept_from, no_sessions};
ghost use Rattle.outside.specs.Told.{HasRisen};
ghost use Rattle.session_outside.specs.Talk.{Follows};
ghost use Rattle.trial_run.specs.Tried.{kept_of};
ghost use Rattle.licence_daemon.specs.Ends.{is_begun};
ghost use Rattle.licence_daemon.specs.Trial.{IsWithinTrial};
ghost use Rattle.licence_daemon.specs.TrialEnds.{TrialSays, trial_text};

use crate::status::DaemonStatus;
use crate::trial_words::TrialNumbers;
use daemon_outside::Site;
use lic_types::{put, put_number};
use licence_tool::Status;
use outside::Sink;
use std::alloc::Global;
use std::sync::Wait;
use std::thread::Threads;
use trial_run::{Trial, TrialFailed, try_out};

/// How many bytes the text of a trial takes at most.
const TRIAL_ROOM: usize = 160;

/// Writes a text and a number behind it behind the first bytes, and gives the offset behind them.
fn put_both(room: &mut [u8], at: usize, text: &[u8], n: u64) -> usize
    requires { at + length text.now + 20 ≤ length room.old }
    ensures room { length room.new ≡ length room.old }
    ensures offset { result ≤ at + length text.now + 20 }
    ensures written { take result room.new ≡ take at room.old ++ text.now ++ decimal n }
{
    let at = put(room, at, text);
    put_number(room, at, n)
}

/// Writes the text of a trial at the start of the room, and gives how many bytes it takes.
fn put_trial(room: &mut [u8; TRIAL_ROOM], numbers: &TrialNumbers, trial: &Trial) -> usize
    ensures offset { result ≤ 160 }
    ensures written { take result room.new ≡ trial_text numbers.now trial.now.grants trial.now.uses }
{
    let at = put_both(room, 0, b"CLIENTS ", u64::from(numbers.clients));
    let at = put_both(room, at, b" SEATS ", u64::from(numbers.seats));
    let at = put_both(room, at, b" ROUNDS ", u64::from(numbers.rounds));
    let at = put_both(room, at, b"\nGRANTS ", trial.grants);
    let at = put_both(room, at, b"\nCARD USES ", trial.uses);
    put(room, at, b"\n")
}

/// Holds a trial and writes what it came to, without the line on standard error: its numbers, and how many replies
/// brought a seat and how often the cards were used, which is once for each round of each client.
///
/// All memory is taken before the first post is made. It gives every post of the site back, however it ends.
pub fn try_numbers<R: Threads + Wait + Sync, O: Sink, S: Site>(
    rt: &R,
    alloc: Global,
    numbers: &TrialNumbers,
    out: &mut O,
    site: &mut S,
) -> DaemonStatus
    requires { IsWithinTrial numbers.now }
    ensures posted { S.posted site.new ≡ S.posted site.old }
    ensures alone { is_begun result ≡ false → site.new ≡ site.old }
    ensures says { TrialSays numbers.now (λ sessions. Follows S.keeps site.old site.new (kept_of (S.made site.old) sessions))
        ((posts : ℕ) × Follows S.keeps site.old site.new (kept_from (S.made site.old) (no_sessions posts)))
        (S.faults site.old) (S.faults site.new) (O.held out.old) (O.held out.new) (HasRisen (O.faults out.old) (O.faults out.new)) result }
{
    let held = try_out(
        rt,
        alloc,
        numbers.clients,
        numbers.seats,
        numbers.rounds,
        site,
    );
    let trial = match held {
        Ok(trial) => trial,
        Err(TrialFailed::NoMemory) => return DaemonStatus::Tool(Status::NoMemory),
        Err(TrialFailed::SiteFault) => return DaemonStatus::SiteFault,
    };
    let mut room = [0; TRIAL_ROOM];
    let end = put_trial(&mut room, numbers, &trial);
    match out.write(&room[..end]) {
        Ok(()) => DaemonStatus::Tool(Status::Done),
        Err(_) => DaemonStatus::Tool(Status::WriteFault),
    }
}
