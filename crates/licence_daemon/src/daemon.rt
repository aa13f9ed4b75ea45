//! The daemon: what is served under a licence and its options, and what is written of it.
ghost use Rattle.std.specs.Prelude.{◌≡◌, ◌<◌, ◌≤◌, ◌^◌, IfSome, [], false, length, vec_capacity};
ghost use Rattle.lic_types.specs.declared.limits.TheConstants.{PARTY_LIMIT};
ghost use Rattle.daemon_run.specs.Ends.{WhereServed};
ghost use Rattle.daemon_run.specs.Gives.{kept_from};
ghost use Rattle.outside.specs.Told.{HasRisen};
ghost use Rattle.session_outside.specs.Talk.{Follows};
ghost use Rattle.licence_daemon.specs.Ends.{IsEnding, IsWritten, ServedSays, is_begun};
ghost use Rattle.licence_daemon.specs.Terms.{terms_seen};

use crate::serve_words::ServeNames;
use crate::status::DaemonStatus;
use crate::terms::Terms;
use daemon_outside::Site;
use daemon_run::{Ended, serve};
use desk_logs::write_logs;
use feature_lines::Licence;
use licence_office::{Office, OfficeEnd};
use licence_tool::Status;
use outside::Sink;
use std::alloc::Global;
use std::sync::Wait;
use std::thread::Threads;

/// How many bytes of logs and tallies are gathered for one write.
const BUFFER_ROOM: usize = 8192;

/// The end of a daemon for which there was too little memory.
const NO_MEMORY: DaemonStatus = DaemonStatus::Tool(Status::NoMemory);

/// Writes the logs and tallies of an office's end. The status is this one, or `WriteFault`.
fn write_office<O: Sink>(
    out: &mut O,
    end: &OfficeEnd,
    buffer: &mut Vec<u8>,
    whole: DaemonStatus,
) -> DaemonStatus
    requires logs { length end.now.logs.items ≤ 2 ^ 32 }
    requires tallies { length end.now.tallies.items ≤ 2 ^ 32 }
    requires empty { buffer.old.items ≡ [] }
    requires room { 8192 ≤ vec_capacity buffer.old }
    ensures { IsWritten whole end.now (O.held out.old) (O.held out.new) (HasRisen (O.faults out.old) (O.faults out.new)) result }
{
    match write_logs(out, end.logs.as_slice(), end.tallies.as_slice(), buffer) {
        Ok(()) => whole,
        Err(_) => DaemonStatus::Tool(Status::WriteFault),
    }
}

/// Writes what a daemon tells at its end, and gives its status.
fn write_end<O: Sink>(out: &mut O, ended: &Ended, buffer: &mut Vec<u8>) -> DaemonStatus
    requires few { WhereServed ended.now (λ end. (length end.logs.items ≤ 2 ^ 32) × (length end.tallies.items ≤ 2 ^ 32)) }
    requires empty { buffer.old.items ≡ [] }
    requires room { 8192 ≤ vec_capacity buffer.old }
    ensures { IsEnding ended.now (O.held out.old) (O.held out.new) (HasRisen (O.faults out.old) (O.faults out.new)) result }
{
    match ended {
        Ended::SiteFault => DaemonStatus::SiteFault,
        Ended::Served(end) => write_office(out, end, buffer, DaemonStatus::Tool(Status::Done)),
        Ended::DoorFault(end) => write_office(out, end, buffer, DaemonStatus::DoorFault),
    }
}

/// A licence has 64 pools at most, and an office one desk for each of its pools.
fn tell_pools(licence: &Licence, office: &Office)
    ensures few { length licence.now.pools ≤ 64 }
    ensures desks { length office.now.view.desks ≡ length office.now.view.pools }
{
    let _pools = licence.pools();
    let _served = office.view().pools();
}

/// Serves the pools of a licence at a path, so many sessions at once, until the bell has rung, and writes the logs and
/// tallies.
///
/// All memory is taken before the daemon listens. It gives every post of the site back, however it ends.
pub fn serve_terms<R: Threads + Wait + Sync, O: Sink, S: Site>(
    rt: &R,
    alloc: Global,
    names: &ServeNames<'_>,
    terms: &Terms,
    out: &mut O,
    site: &mut S,
) -> DaemonStatus
    requires sessions { (2 ≤ names.now.sessions) × (names.now.sessions ≤ PARTY_LIMIT) }
    requires sets { (1 ≤ length terms.now.sets.items) × (length terms.now.sets.items ≤ 4) }
    ensures posted { S.posted site.new ≡ S.posted site.old }
    ensures alone { is_begun result ≡ false → site.new ≡ site.old }
    ensures says { ServedSays names.now.sessions (λ visits. Follows S.keeps site.old site.new (kept_from (S.made site.old) visits))
        (IfSome (S.path site.old) (λ p. names.now.socket.now ≡ p))
        (record { faults = S.faults site.old; tolls = S.tolls site.old; rings = S.rings site.old; broken = S.broken site.old })
        (record { faults = S.faults site.new; tolls = S.tolls site.new; rings = S.rings site.new; broken = S.broken site.new })
        (O.held out.old) (O.held out.new) (HasRisen (O.faults out.old) (O.faults out.new)) (terms_seen terms.now) result }
{
    let sessions = names.sessions;
    let Ok(workers) = Vec::with_capacity(alloc, sessions as usize) else {
        return NO_MEMORY;
    };
    let Ok(mut buffer) = Vec::with_capacity(alloc, BUFFER_ROOM) else {
        return NO_MEMORY;
    };
    let sets = terms.sets.as_slice();
    let Ok(made) = Office::make_many(rt, alloc, &terms.licence, sets, sessions) else {
        return NO_MEMORY;
    };
    let (office, passes, logs) = made;
    tell_pools(&terms.licence, &office);
    let ended = serve(rt, office, passes, logs, workers, site, names.socket);
    write_end(out, &ended, &mut buffer)
}
