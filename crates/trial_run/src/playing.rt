//! The clients at play.
ghost use Rattle.std.specs.Prelude.{◌≡◌, ◌<◌, All, length, vec_items};
ghost use Rattle.feature_desk.specs.Sitters.{IsOf, account_of};
ghost use Rattle.session.specs.Pass.{AreIdle, AreOf};
ghost use Rattle.trial_run.specs.Played.{AllPlayed, Played};

use crate::player::Player;
use daemon_run::Worker;
use feature_desk::Desk;
use office_view::OfficeView;
use session::{Buffers, serve_session};
use session_outside::{Bell, Clock, Gate};
use std::sync::Wait;
use std::thread::{Threads, for_each_mut};

/// Serves the one session of a client, with the clock, the gate and the bell of its post.
fn play<R: Wait, D, K: Clock, B: Bell, G: Gate>(
    rt: &R,
    office: &OfficeView<Desk>,
    worker: &mut Worker<Player, D, K, B, G>,
)
    requires of { AreOf IsOf account_of worker.old.pass.counters.items office.now }
    requires idle { AreIdle account_of worker.old.pass.counters.items }
    ensures played { Played account_of office.now K.gave worker.old worker.new }
    ensures of { AreOf IsOf account_of worker.new.pass.counters.items office.now }
    ensures idle { AreIdle account_of worker.new.pass.counters.items }
{
    let mut room = Buffers::make();
    serve_session(
        rt,
        office,
        &mut worker.pass.counters,
        &mut worker.pass.link,
        &mut worker.post.clock,
        &mut worker.post.gate,
        &mut worker.post.bell,
        &mut room,
    );
}

/// Lets all clients play at once, each in a thread of its own where one can be made, until all have ended.
fn play_slice<R: Threads + Wait + Sync, D: Send, K: Clock + Send, B: Bell + Send, G: Gate + Send>(
    rt: &R,
    office: &OfficeView<Desk>,
    workers: &mut [Worker<Player, D, K, B, G>],
)
    requires some { 0 < length workers.old }
    requires of { All (λ w. AreOf IsOf account_of w.pass.counters.items office.now) workers.old }
    requires idle { All (λ w. AreIdle account_of w.pass.counters.items) workers.old }
    ensures played { AllPlayed account_of office.now K.gave workers.old workers.new }
    ensures of { All (λ w. AreOf IsOf account_of w.pass.counters.items office.now) workers.new }
    ensures idle { All (λ w. AreIdle account_of w.pass.counters.items) workers.new }
{
    let count = workers.len();
    let playing = |_i: usize, worker: &mut Worker<Player, D, K, B, G>|
        requires { AreOf IsOf account_of worker.old.pass.counters.items office.now × AreIdle account_of worker.old.pass.counters.items }
        ensures { Played account_of office.entry.now K.gave worker.old worker.new × AreOf IsOf account_of worker.new.pass.counters.items office.entry.now × AreIdle account_of worker.new.pass.counters.items }
    { play(rt, office, worker) };
    for_each_mut(rt, workers, count, &playing);
}

/// Lets all clients play at once, each in a thread of its own where one can be made, until all have ended.
///
/// Each has the counters of one party, one for each desk of the office, none of which is holding or queued; so they are
/// at the end. Each has one session, over its link, and no door is used.
pub(crate) fn play_all<
    R: Threads + Wait + Sync,
    D: Send,
    K: Clock + Send,
    B: Bell + Send,
    G: Gate + Send,
>(rt: &R, office: &OfficeView<Desk>, workers: &mut Vec<Worker<Player, D, K, B, G>>)
    requires some { 0 < length workers.old.items }
    requires of { All (λ w. AreOf IsOf account_of w.pass.counters.items office.now) workers.old.items }
    requires idle { All (λ w. AreIdle account_of w.pass.counters.items) workers.old.items }
    ensures played { AllPlayed account_of office.now K.gave workers.old.items workers.new.items }
    ensures of { All (λ w. AreOf IsOf account_of w.pass.counters.items office.now) workers.new.items }
    ensures idle { All (λ w. AreIdle account_of w.pass.counters.items) workers.new.items }
    ensures len { length workers.new.items ≡ length workers.old.items }
{
    play_slice(rt, office, workers.as_mut_slice());
}
