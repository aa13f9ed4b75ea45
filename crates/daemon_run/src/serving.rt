//! From the start of the workers to the close of the office.
ghost use Rattle.std.specs.Prelude.{◌≡◌, ◌+◌, ◌<◌, ◌≤◌, [], All, false, length, true, vec_capacity, vec_len};
ghost use Rattle.std.specs.List.{list_any};
ghost use Rattle.daemon_outside.specs.Sites.{IsNew};
ghost use Rattle.licence_office.specs.Logs.{AreLogsOf};
ghost use Rattle.licence_office.specs.Offices.{AreDealt};
ghost use Rattle.session_outside.specs.Talk.{Follows, HasRisen};
ghost use Rattle.daemon_run.specs.Gives.{is_broken, kept_as, passes_of};
ghost use Rattle.daemon_run.specs.Join.{HasSets, Ran};

use crate::auditing::run_audited;
use crate::giving::give_back;
use crate::worker::Worker;
use daemon_outside::Site;
use door_worker::DoorEnd;
use feature_desk::Desk;
use licence_office::{Office, OfficeEnd, OfficeLogs, OfficePass};
use office_view::OfficeView;
use std::sync::Wait;
use std::thread::Threads;

/// There is one desk for each pool.
fn pair(office: &OfficeView<Desk>)
    ensures { length office.now.desks ≡ length office.now.pools }
{
    let _pools = office.pools();
}

/// Whether one of the doors was broken.
fn any_broken<P, D, K, B, G>(workers: &[Worker<P, D, K, B, G>]) -> bool
    ensures { result ≡ list_any (λ (w : _). is_broken w.end) workers.now }
{
    workers
        .iter()
        .any(|worker| matches!(worker.end, DoorEnd::Broken))
}

/// Lets all workers serve while the auditor takes entries out of the logs, gives the posts back, and closes the office.
/// It tells whether a door was broken, and what the office told.
pub fn serve_all<R: Threads + Wait + Sync, T: Site>(
    rt: &R,
    office: Office,
    workers: Vec<Worker<OfficePass, T::Door, T::Clock, T::Bell, T::Gate>>,
    mut passes: Vec<OfficePass>,
    logs: OfficeLogs,
    site: &mut T,
) -> (bool, OfficeEnd)
    requires some { 0 < vec_len workers }
    requires count { vec_len workers ≡ office.parties }
    requires sets { HasSets office.view }
    requires dealt { AreDealt office.view.desks (passes_of workers.items) }
    requires unused { All (λ w. IsNew T.Door.talks T.Clock.gave T.Door.faults T.Door.quiets T.Door.fails T.Door.lent T.Bell.tolls T.Bell.rings w.post.door w.post.clock w.post.bell) workers.items }
    requires logs { AreLogsOf logs office }
    requires empty { passes.items ≡ [] }
    requires room { vec_len workers ≤ vec_capacity passes }
    requires posted { vec_len workers ≤ T.posted site.old }
    ensures posted { T.posted site.new + vec_len workers ≡ T.posted site.old }
    ensures rung { result.0 ≡ false → HasRisen (T.tolls site.old) (T.tolls site.new) × (T.broken site.new ≡ T.broken site.old) }
    ensures broken { result.0 ≡ true → HasRisen (T.broken site.old) (T.broken site.new) }
    ensures same { (T.path site.new ≡ T.path site.old) × (T.made site.new ≡ T.made site.old) × (T.faults site.new ≡ T.faults site.old) }
    ensures ran { Ran office.view (passes_of workers.items) (λ visits. Follows T.keeps site.old site.new (kept_as workers.items visits)) (T.rings site.old) (T.rings site.new) result.1 }
{
    let view = office.view();
    pair(view);
    let (workers, logs) = run_audited(rt, view, workers, logs);
    let broken = any_broken(workers.as_slice());
    give_back(site, workers, &mut passes);
    let end = office.close_with_log(rt, passes, logs);
    (broken, end)
}
