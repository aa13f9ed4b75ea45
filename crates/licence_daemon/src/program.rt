//! The top call.
ghost use Rattle.std.specs.Prelude.{◌≡◌, ◌↔◌, ◌⊎◌, ◌≤◌, ℕ, IfSome, None, false, length};
ghost use Rattle.lic_types.specs.declared.limits.TheConstants.{PARTY_LIMIT};
ghost use Rattle.daemon_run.specs.Gives.{kept_from, no_sessions};
ghost use Rattle.licence_tool.specs.Asked.{HasFailed};
ghost use Rattle.licence_tool.specs.Tool.{GainsLine};
ghost use Rattle.licence_tool.specs.Words.{IsNoCommand};
ghost use Rattle.outside.specs.Told.{HasRisen};
ghost use Rattle.session_outside.specs.Talk.{Follows};
ghost use Rattle.trial_run.specs.Tried.{kept_of};
ghost use Rattle.licence_daemon.specs.Asked.{AsksServe};
ghost use Rattle.licence_daemon.specs.Ends.{EndsAsTool, ForServe, IsComplete, IsServed, is_begun, reading_in};
ghost use Rattle.licence_daemon.specs.Serve.{serve_in, serve_named};
ghost use Rattle.licence_daemon.specs.Status.{serve_line};
ghost use Rattle.licence_daemon.specs.Terms.{serve_told};
ghost use Rattle.licence_daemon.specs.Trial.{IsWithinTrial, trial_in};
ghost use Rattle.licence_daemon.specs.TrialEnds.{ForTrial, IsTrialComplete, TrialSays};

use crate::daemon::serve_terms;
use crate::reading::read_terms;
use crate::serve_words::{ServeNames, serve_words};
use crate::status::{DaemonStatus, put_serve_status};
use crate::trial::try_numbers;
use crate::trial_words::{TrialNumbers, trial_words};
use daemon_outside::Site;
use licence_tool::{ROOM, Status, Words, tool, write_line};
use outside::{Files, Sink};
use std::alloc::Global;
use std::sync::Wait;
use std::thread::Threads;

/// Reads the files of a `serve`, and serves, without the line on standard error.
fn perform_serve<R: Threads + Wait + Sync, F: Files, O: Sink, S: Site>(
    rt: &R,
    alloc: Global,
    names: &ServeNames<'_>,
    files: &mut F,
    out: &mut O,
    site: &mut S,
) -> DaemonStatus
    requires more { length names.now.more.now ≤ 3 }
    requires sessions { (2 ≤ names.now.sessions) × (names.now.sessions ≤ PARTY_LIMIT) }
    ensures posted { S.posted site.new ≡ S.posted site.old }
    ensures alone { is_begun result ≡ false → site.new ≡ site.old }
    ensures asked { AsksServe (serve_named names.now).files (F.asked files.old) (F.asked files.new) (F.failed files.old) (F.failed files.new) (reading_in result) }
    ensures says { IsServed names.now.sessions (λ visits. Follows S.keeps site.old site.new (kept_from (S.made site.old) visits))
        (IfSome (S.path site.old) (λ p. names.now.socket.now ≡ p))
        (record { faults = S.faults site.old; tolls = S.tolls site.old; rings = S.rings site.old; broken = S.broken site.old })
        (record { faults = S.faults site.new; tolls = S.tolls site.new; rings = S.rings site.new; broken = S.broken site.new })
        (O.held out.old) (O.held out.new) (HasRisen (O.faults out.old) (O.faults out.new))
        (HasFailed (F.failed files.old) (F.failed files.new)) (serve_told (F.contents files.old) (serve_named names.now).files) result }
{
    match read_terms(alloc, files, names) {
        Ok(terms) => serve_terms(rt, alloc, names, &terms, out, site),
        Err(status) => DaemonStatus::Tool(status),
    }
}

/// Serves, and writes the line of the status on standard error.
fn serve_command<R: Threads + Wait + Sync, F: Files, O: Sink, E: Sink, S: Site>(
    rt: &R,
    alloc: Global,
    names: &ServeNames<'_>,
    files: &mut F,
    out: &mut O,
    err: &mut E,
    site: &mut S,
) -> DaemonStatus
    requires more { length names.now.more.now ≤ 3 }
    requires sessions { (2 ≤ names.now.sessions) × (names.now.sessions ≤ PARTY_LIMIT) }
    ensures posted { S.posted site.new ≡ S.posted site.old }
    ensures alone { is_begun result ≡ false → site.new ≡ site.old }
    ensures asked { AsksServe (serve_named names.now).files (F.asked files.old) (F.asked files.new) (F.failed files.old) (F.failed files.new) (reading_in result) }
    ensures says { IsServed names.now.sessions (λ visits. Follows S.keeps site.old site.new (kept_from (S.made site.old) visits))
        (IfSome (S.path site.old) (λ p. names.now.socket.now ≡ p))
        (record { faults = S.faults site.old; tolls = S.tolls site.old; rings = S.rings site.old; broken = S.broken site.old })
        (record { faults = S.faults site.new; tolls = S.tolls site.new; rings = S.rings site.new; broken = S.broken site.new })
        (O.held out.old) (O.held out.new) (HasRisen (O.faults out.old) (O.faults out.new))
        (HasFailed (F.failed files.old) (F.failed files.new)) (serve_told (F.contents files.old) (serve_named names.now).files) result }
    ensures err_line { GainsLine (E.held err.old) (E.held err.new) (HasRisen (E.faults err.old) (E.faults err.new)) (serve_line result) }
    ensures complete { IsComplete (HasFailed (F.failed files.old) (F.failed files.new)) (HasRisen (O.faults out.old) (O.faults out.new))
        (record { faults = S.faults site.old; tolls = S.tolls site.old; rings = S.rings site.old; broken = S.broken site.old })
        (record { faults = S.faults site.new; tolls = S.tolls site.new; rings = S.rings site.new; broken = S.broken site.new })
        (serve_told (F.contents files.old) (serve_named names.now).files) result }
{
    let status = perform_serve(rt, alloc, names, files, out, site);
    let mut room = [0; ROOM];
    let end = put_serve_status(&mut room, &status);
    write_line(err, &room[..end]);
    status
}

/// Holds a trial, and writes the line of the status on standard error.
fn trial_command<R: Threads + Wait + Sync, O: Sink, E: Sink, S: Site>(
    rt: &R,
    alloc: Global,
    numbers: &TrialNumbers,
    out: &mut O,
    err: &mut E,
    site: &mut S,
) -> DaemonStatus
    requires { IsWithinTrial numbers.now }
    ensures posted { S.posted site.new ≡ S.posted site.old }
    ensures alone { is_begun result ≡ false → site.new ≡ site.old }
    ensures says { TrialSays numbers.now (λ sessions. Follows S.keeps site.old site.new (kept_of (S.made site.old) sessions))
        ((posts : ℕ) × Follows S.keeps site.old site.new (kept_from (S.made site.old) (no_sessions posts)))
        (S.faults site.old) (S.faults site.new) (O.held out.old) (O.held out.new) (HasRisen (O.faults out.old) (O.faults out.new)) result }
    ensures err_line { GainsLine (E.held err.old) (E.held err.new) (HasRisen (E.faults err.old) (E.faults err.new)) (serve_line result) }
    ensures complete { IsTrialComplete (HasRisen (O.faults out.old) (O.faults out.new)) (S.faults site.old) (S.faults site.new) result }
{
    let status = try_numbers(rt, alloc, numbers, out, site);
    let mut room = [0; ROOM];
    let end = put_serve_status(&mut room, &status);
    write_line(err, &room[..end]);
    status
}

/// Runs the program and ends with its status. `words` are those behind the program's name: `serve LICENCE OPTIONS
/// SOCKET SESSIONS`, with up to three further options files behind; `trial-threads CLIENTS SEATS ROUNDS`; or a command
/// of the tools, which is run by `tool` as it is alone.
///
/// `serve` reads its files, in their order, each of which is accepted before the next is read; takes the memory of its
/// office; listens at SOCKET; makes a post for each of its 2 to 256 sessions; serves until the bell has rung; and then
/// writes the log of each pool and the tally of each pool to `out`. Want of memory may come before it listens, and not
/// behind that.
///
/// `trial-threads` takes the memory of an office of 2 to 256 clients and one feature of 1 to 65,535 seats, makes a post
/// for each client without listening, lets each client take a seat and give it back 1 to 10,000 times, each in a
/// session of its own, all at once, and writes its numbers, the grants, and how often the cards of the seats were used:
/// both are CLIENTS times ROUNDS. Want of memory may come before the first post is made, and not behind that.
///
/// For every status of these two but `Done` one line goes to `err`; a fault there changes no status.
///
/// `SiteFault` comes only where a call of the site failed, before any session; `DoorFault` only where a door was
/// broken, and logs and tallies are written all the same; `WriteFault` only where a write to `out` failed, also where
/// `DoorFault` would be answered.
pub fn licenced<R: Threads + Wait + Sync, F: Files, O: Sink, E: Sink, S: Site>(
    rt: &R,
    alloc: Global,
    words: &Words,
    files: &mut F,
    out: &mut O,
    err: &mut E,
    site: &mut S,
) -> DaemonStatus
    // The words are no command exactly where the status says so.
    ensures usage { (result ≡ DaemonStatus.Tool Status.Usage) ↔ (IsNoCommand words.now × (serve_in words.now ≡ None) × (trial_in words.now ≡ None)) }

    // Words that are no `serve` and no `trial-threads` are for the tools, with their clauses.
    ensures tool { serve_in words.now ≡ None → trial_in words.now ≡ None → EndsAsTool words.now (F.contents files.old) (F.asked files.old) (F.asked files.new) (F.failed files.old) (F.failed files.new)
        (O.held out.old) (O.held out.new) (HasRisen (O.faults out.old) (O.faults out.new)) (E.held err.old) (E.held err.new) (HasRisen (E.faults err.old) (E.faults err.new)) result }

    // The site is left alone by the tools, by a `serve` whose files are refused, and where memory is wanted. Every post
    // is given back.
    ensures alone { ((serve_in words.now ≡ None) × (trial_in words.now ≡ None)) ⊎ (is_begun result ≡ false) → site.new ≡ site.old }
    ensures posted { S.posted site.new ≡ S.posted site.old }

    // The files of a `serve` are asked for in their order, each once, up to the one of which the status speaks.
    ensures asked { ForServe (serve_in words.now) (λ names. AsksServe names.files (F.asked files.old) (F.asked files.new) (F.failed files.old) (F.failed files.new) (reading_in result)) }

    // What came of the files. On Done, DoorFault and WriteFault they were accepted, and there is one list of sessions
    // for each party, whose talks and moments the site keeps, and one history for each pool, a run of the rules that
    // the files give it, which has the entries of these sessions and no others; and out gained the text of these
    // histories, or on WriteFault a prefix of it.
    ensures daemon { ForServe (serve_in words.now) (λ names. IsServed names.sessions (λ visits. Follows S.keeps site.old site.new (kept_from (S.made site.old) visits))
        (IfSome (S.path site.old) (λ p. names.socket ≡ p))
        (record { faults = S.faults site.old; tolls = S.tolls site.old; rings = S.rings site.old; broken = S.broken site.old })
        (record { faults = S.faults site.new; tolls = S.tolls site.new; rings = S.rings site.new; broken = S.broken site.new })
        (O.held out.old) (O.held out.new) (HasRisen (O.faults out.old) (O.faults out.new))
        (HasFailed (F.failed files.old) (F.failed files.new)) (serve_told (F.contents files.old) names.files) result) }

    // What came of a trial, which asks for no file. On Done and WriteFault there is one session for each client, and
    // one history of the trial's pool, a run of its rules, which has the entries of these sessions and no others, and
    // which grants CLIENTS times ROUNDS seats; and out gained the text of its numbers, of these grants and of as many
    // uses of the cards, or on WriteFault a prefix of it.
    ensures trial { ForTrial (trial_in words.now) (λ n. TrialSays n (λ sessions. Follows S.keeps site.old site.new (kept_of (S.made site.old) sessions))
        ((posts : ℕ) × Follows S.keeps site.old site.new (kept_from (S.made site.old) (no_sessions posts)))
        (S.faults site.old) (S.faults site.new) (O.held out.old) (O.held out.new) (HasRisen (O.faults out.old) (O.faults out.new)) result) }
    ensures trial_files { ForTrial (trial_in words.now) (λ n. files.new ≡ files.old) }
    ensures trial_complete { ForTrial (trial_in words.now) (λ n. IsTrialComplete (HasRisen (O.faults out.old) (O.faults out.new)) (S.faults site.old) (S.faults site.new) result) }
    ensures trial_line { ForTrial (trial_in words.now) (λ n. GainsLine (E.held err.old) (E.held err.new) (HasRisen (E.faults err.old) (E.faults err.new)) (serve_line result)) }

    // Standard error gained exactly the line of the status, which is none on Done, or a prefix of it at a fault of its
    // own.
    ensures err_line { ForServe (serve_in words.now) (λ names. GainsLine (E.held err.old) (E.held err.new) (HasRisen (E.faults err.old) (E.faults err.new)) (serve_line result)) }

    // What surely comes of the files comes, unless memory is wanted or a fault rose.
    ensures complete { ForServe (serve_in words.now) (λ names. IsComplete (HasFailed (F.failed files.old) (F.failed files.new)) (HasRisen (O.faults out.old) (O.faults out.new))
        (record { faults = S.faults site.old; tolls = S.tolls site.old; rings = S.rings site.old; broken = S.broken site.old })
        (record { faults = S.faults site.new; tolls = S.tolls site.new; rings = S.rings site.new; broken = S.broken site.new })
        (serve_told (F.contents files.old) names.files) result) }
{
    if let Some(names) = serve_words(words) {
        return serve_command(rt, alloc, &names, files, out, err, site);
    }
    match trial_words(words) {
        None => DaemonStatus::Tool(tool(alloc, words, files, out, err)),
        Some(numbers) => trial_command(rt, alloc, &numbers, out, err, site),
    }
}
