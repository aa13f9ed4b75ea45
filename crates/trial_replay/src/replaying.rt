//! The events, played one after another.
ghost use Rattle.std.specs.Prelude.{◌≡◌, ◌≤◌, IfOk};
ghost use Rattle.options_machine.specs.Run.{IsRun};
ghost use Rattle.options_machine.specs.State.{opening};
ghost use Rattle.trial_replay.specs.Counts.{counts_of, total_of};
ghost use Rattle.trial_replay.specs.Replayed.{replies_of, run_of};
ghost use Rattle.trial_replay.specs.Requests.{requests_below};
ghost use Rattle.trial_replay.specs.Terms.{bench_sets};

use crate::counts::Counts;
use crate::event::{all_requests, moment_of, request_of};
use crate::terms::trial_book;
use no_memory::NoMemory;
use options_machine::Request;
use seat_book::Book;
use std::alloc::Global;

/// Plays the first so many events at the book of the trial, before its first entry, and counts the replies.
fn count_replies(book: &mut Book, requests: &[Request], events: u32) -> Counts
    requires book { book.old ≡ record { sets = bench_sets; parties = 16; state = opening; grants = 0 } }
    requires requests { requests.now ≡ requests_below 64 }
    requires few { events ≤ 1000000 }
    ensures counts { result ≡ counts_of (replies_of events) }
    ensures total { total_of result ≡ events }
{
    let mut counts = Counts::default();
    for event in 0..events {
        let request = request_of(requests, event);
        let (reply, _) = book.step(request, moment_of(event));
        counts.count(&reply);
    }
    counts
}

/// The first so many events are a run. It changes nothing: a call tells it to the caller's proof.
fn tell_run(events: u32)
    requires { events ≤ 1000000 }
    ensures { IsRun bench_sets (run_of events) }
{
    let _ = events;
}

/// Replays the first so many events of the trial, 1,000,000 at most, and gives how often each reply came: all ten
/// together are the events. They are a run of the options machine, by the rules of the trial's one pool, before which
/// nobody has a seat. The one error is want of memory, which comes before the first event.
pub fn replay_events(alloc: Global, events: u32) -> Result<Counts, NoMemory>
    requires { events ≤ 1000000 }
    ensures counts { IfOk result (λ counts. counts ≡ counts_of (replies_of events)) }
    ensures total { IfOk result (λ counts. total_of counts ≡ events) }
    ensures run { IsRun bench_sets (run_of events) }
{
    tell_run(events);
    let requests = all_requests(alloc)?;
    let mut book = trial_book(alloc)?;
    Ok(count_replies(&mut book, requests.as_slice(), events))
}
