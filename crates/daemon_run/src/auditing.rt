//! The workers at work, and the auditor beside them.
ghost use Rattle.std.specs.Prelude.{◌≡◌, ◌<◌, All, length, vec_items};
ghost use Rattle.feature_desk.specs.Sitters.{IsOf, account_of};
ghost use Rattle.session.specs.Pass.{AreIdle, AreOf};
ghost use Rattle.daemon_run.specs.Work.{AllWorked};

use crate::running::run;
use crate::worker::Worker;
use daemon_outside::Door;
use feature_desk::{Desk, DeskPass};
use licence_office::OfficeLogs;
use office_view::OfficeView;
use session_outside::{Bell, Clock, Gate};
use std::sync::Wait;
use std::sync::atomic::{AtomicU64, Ordering};
use std::thread::{Threads, join};
use std::time::Duration;

/// For how many milliseconds the auditor sleeps between two sweeps, and before the workers have begun.
const NAP: u64 = 50;

/// How many entries of each log a sweep takes, at most. A log's queue has room for all that the log keeps, so no session
/// waits for the auditor, and between its sweeps it leaves the processors to them.
const ROUNDS: u32 = 16;

/// How often it sleeps before the workers have begun.
const NAP_LIMIT: u32 = 20;

/// What the word says before the workers have begun, while they run, and when all have ended.
const BEFORE: u32 = 0;

const RUNNING: u32 = 1;

const ENDED: u32 = 2;

/// Whether the word says this.
fn is_at(word: &AtomicU64, stage: u32) -> bool {
    word.load(Ordering::SeqCst) == u64::from(stage)
}

/// Lets the word say this, and wakes the auditor.
fn go_to(word: &AtomicU64, stage: u32) {
    word.store(u64::from(stage), Ordering::SeqCst);
    word.wake_all();
}

/// Whether the workers have begun, after a second at most. Where no thread can be made for them, they begin when the
/// auditor has ended.
fn have_begun<R: Wait>(rt: &R, word: &AtomicU64) -> bool {
    for _nap in 0..NAP_LIMIT {
        if !is_at(word, BEFORE) {
            return true;
        }
        word.park_timeout(rt, BEFORE, Duration::from_millis(NAP));
    }
    !is_at(word, BEFORE)
}

/// Takes entries out of the logs, one of each that has one in a round.
fn sweep<R: Wait>(rt: &R, logs: &mut OfficeLogs)
    ensures { (logs.new.keepers ≡ logs.old.keepers) × (logs.new.parties ≡ logs.old.parties) }
{
    for _round in 0..ROUNDS {
        if logs.take_round(rt) == 0 {
            return;
        }
    }
}

/// Takes entries out of the logs, sweep after sweep, until the workers have ended.
fn audit<R: Wait>(rt: &R, mut logs: OfficeLogs, word: &AtomicU64) -> OfficeLogs
    ensures { (result.keepers ≡ logs.keepers) × (result.parties ≡ logs.parties) }
{
    if !have_begun(rt, word) {
        return logs;
    }
    for _ in rt.forever() {
        sweep(rt, &mut logs);
        if is_at(word, ENDED) {
            break;
        }
        word.park_timeout(rt, RUNNING, Duration::from_millis(NAP));
    }
    logs
}

/// Lets all workers serve at once until all have ended, and tells the auditor.
fn work_all<
    R: Threads + Wait + Sync,
    D: Door + Send,
    K: Clock + Send,
    B: Bell + Send,
    G: Gate + Send,
>(
    rt: &R,
    office: &OfficeView<Desk>,
    mut workers: Vec<Worker<Vec<DeskPass>, D, K, B, G>>,
    word: &AtomicU64,
) -> Vec<Worker<Vec<DeskPass>, D, K, B, G>>
    requires some { 0 < length workers.items }
    requires of { All (λ w. AreOf IsOf account_of w.pass.items office.now) workers.items }
    requires idle { All (λ w. AreIdle account_of w.pass.items) workers.items }
    requires fails { All (λ w. D.fails w.post.door ≡ 0) workers.items }
    ensures worked { AllWorked vec_items account_of office.now D.talks K.gave D.faults D.quiets D.fails D.lent B.tolls B.rings workers.items result.items }
    ensures of { All (λ w. AreOf IsOf account_of w.pass.items office.now) result.items }
    ensures idle { All (λ w. AreIdle account_of w.pass.items) result.items }
    ensures len { length result.items ≡ length workers.items }
{
    go_to(word, RUNNING);
    run(rt, office, &mut workers);
    go_to(word, ENDED);
    workers
}

/// Lets all workers serve at once, as [`run`] does, in threads beside this one, where the auditor takes entries out of
/// the logs until they have ended. It gives both back.
pub(crate) fn run_audited<
    R: Threads + Wait + Sync,
    D: Door + Send + Drop,
    K: Clock + Send + Drop,
    B: Bell + Send + Drop,
    G: Gate + Send + Drop,
>(
    rt: &R,
    office: &OfficeView<Desk>,
    workers: Vec<Worker<Vec<DeskPass>, D, K, B, G>>,
    logs: OfficeLogs,
) -> (Vec<Worker<Vec<DeskPass>, D, K, B, G>>, OfficeLogs)
    requires some { 0 < length workers.items }
    requires of { All (λ w. AreOf IsOf account_of w.pass.items office.now) workers.items }
    requires idle { All (λ w. AreIdle account_of w.pass.items) workers.items }
    requires fails { All (λ w. D.fails w.post.door ≡ 0) workers.items }
    ensures worked { AllWorked vec_items account_of office.now D.talks K.gave D.faults D.quiets D.fails D.lent B.tolls B.rings workers.items result.0.items }
    ensures of { All (λ w. AreOf IsOf account_of w.pass.items office.now) result.0.items }
    ensures idle { All (λ w. AreIdle account_of w.pass.items) result.0.items }
    ensures len { length result.0.items ≡ length workers.items }
    ensures logs { (result.1.keepers ≡ logs.keepers) × (result.1.parties ≡ logs.parties) }
{
    let stage = AtomicU64::new(u64::from(BEFORE));
    let word = &stage;
    join(
        rt,
        move || -> Vec<Worker<Vec<DeskPass>, D, K, B, G>>
            requires { (0 < length workers.items) × All (λ w. AreOf IsOf account_of w.pass.items office.now) workers.items × All (λ w. AreIdle account_of w.pass.items) workers.items × All (λ w. D.fails w.post.door ≡ 0) workers.items }
            ensures { AllWorked vec_items account_of office.entry.now D.talks K.gave D.faults D.quiets D.fails D.lent B.tolls B.rings workers.items result.items × All (λ w. AreOf IsOf account_of w.pass.items office.entry.now) result.items × All (λ w. AreIdle account_of w.pass.items) result.items × (length result.items ≡ length workers.items) }
        { work_all(rt, office, workers, word) },
        move || -> OfficeLogs
            ensures { (result.keepers ≡ logs.keepers) × (result.parties ≡ logs.parties) }
        { audit(rt, logs, word) },
    )
}
