//! The workers at work.
ghost use Rattle.std.specs.Prelude.{◌≡◌, ◌<◌, All, length, vec_items};
ghost use Rattle.feature_desk.specs.Sitters.{IsOf, account_of};
ghost use Rattle.session.specs.Pass.{AreIdle, AreOf};
ghost use Rattle.daemon_run.specs.Work.{AllWorked, Worked};

use crate::worker::Worker;
use daemon_outside::Door;
use door_worker::serve_door;
use feature_desk::{Desk, DeskPass};
use office_view::OfficeView;
use session::Buffers;
use session_outside::{Bell, Clock, Gate};
use std::sync::Wait;
use std::thread::{Threads, for_each_mut};

/// Serves at the worker's post.
fn work<R: Wait, D: Door, K: Clock, B: Bell, G: Gate>(
    rt: &R,
    office: &OfficeView<Desk>,
    worker: &mut Worker<Vec<DeskPass>, D, K, B, G>,
)
    requires of { AreOf IsOf account_of worker.old.pass.items office.now }
    requires idle { AreIdle account_of worker.old.pass.items }
    requires fails { D.fails worker.old.post.door ≡ 0 }
    ensures worked { Worked vec_items account_of office.now D.talks K.gave D.faults D.quiets D.fails D.lent B.tolls B.rings worker.old worker.new }
    ensures of { AreOf IsOf account_of worker.new.pass.items office.now }
    ensures idle { AreIdle account_of worker.new.pass.items }
{
    let mut room = Buffers::make();
    worker.end = serve_door(
        rt,
        office,
        &mut worker.pass,
        &mut worker.post.door,
        &mut worker.post.clock,
        &mut worker.post.gate,
        &mut worker.post.bell,
        &mut room,
    );
}

/// Lets all workers serve at once, each in a thread of its own where one can be made, until all have ended.
fn run_slice<
    R: Threads + Wait + Sync,
    D: Door + Send,
    K: Clock + Send,
    B: Bell + Send,
    G: Gate + Send,
>(rt: &R, office: &OfficeView<Desk>, workers: &mut [Worker<Vec<DeskPass>, D, K, B, G>])
    requires some { 0 < length workers.old }
    requires of { All (λ w. AreOf IsOf account_of w.pass.items office.now) workers.old }
    requires idle { All (λ w. AreIdle account_of w.pass.items) workers.old }
    requires fails { All (λ w. D.fails w.post.door ≡ 0) workers.old }
    ensures worked { AllWorked vec_items account_of office.now D.talks K.gave D.faults D.quiets D.fails D.lent B.tolls B.rings workers.old workers.new }
    ensures of { All (λ w. AreOf IsOf account_of w.pass.items office.now) workers.new }
    ensures idle { All (λ w. AreIdle account_of w.pass.items) workers.new }
{
    let count = workers.len();
    let serving = |_i: usize, worker: &mut Worker<Vec<DeskPass>, D, K, B, G>|
        requires { AreOf IsOf account_of worker.old.pass.items office.now × AreIdle account_of worker.old.pass.items × (D.fails worker.old.post.door ≡ 0) }
        ensures { Worked vec_items account_of office.entry.now D.talks K.gave D.faults D.quiets D.fails D.lent B.tolls B.rings worker.old worker.new × AreOf IsOf account_of worker.new.pass.items office.entry.now × AreIdle account_of worker.new.pass.items }
    { work(rt, office, worker) };
    for_each_mut(rt, workers, count, &serving);
}

/// Lets all workers serve at once, each in a thread of its own where one can be made, until all have ended.
///
/// Each has the counters of one party, one for each desk of the office, none of which is holding or queued; so they are
/// at the end.
pub fn run<
    R: Threads + Wait + Sync,
    D: Door + Send,
    K: Clock + Send,
    B: Bell + Send,
    G: Gate + Send,
>(rt: &R, office: &OfficeView<Desk>, workers: &mut Vec<Worker<Vec<DeskPass>, D, K, B, G>>)
    requires some { 0 < length workers.old.items }
    requires of { All (λ w. AreOf IsOf account_of w.pass.items office.now) workers.old.items }
    requires idle { All (λ w. AreIdle account_of w.pass.items) workers.old.items }
    requires fails { All (λ w. D.fails w.post.door ≡ 0) workers.old.items }
    ensures worked { AllWorked vec_items account_of office.now D.talks K.gave D.faults D.quiets D.fails D.lent B.tolls B.rings workers.old.items workers.new.items }
    ensures of { All (λ w. AreOf IsOf account_of w.pass.items office.now) workers.new.items }
    ensures idle { All (λ w. AreIdle account_of w.pass.items) workers.new.items }
    ensures len { length workers.new.items ≡ length workers.old.items }
{
    run_slice(rt, office, workers.as_mut_slice());
}
