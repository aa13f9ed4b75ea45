//! The daemon's run, from listening to the close of its office.
ghost use Rattle.std.specs.Prelude.{◌≡◌, ℕ, ◌<◌, ◌≤◌, [], IfSome, vec_capacity, vec_len};
ghost use Rattle.licence_office.specs.Logs.{AreLogsOf};
ghost use Rattle.licence_office.specs.Offices.{AreDealt};
ghost use Rattle.session_outside.specs.Talk.{Follows};
ghost use Rattle.daemon_run.specs.Ends.{HasCause, WhereServed, WhereUnserved};
ghost use Rattle.daemon_run.specs.Gives.{kept_from, no_sessions};
ghost use Rattle.daemon_run.specs.Join.{HasSets, Ran};

use crate::ended::Ended;
use crate::giving::give_back;
use crate::posting::post_all;
use crate::serving::serve_all;
use crate::worker::Worker;
use daemon_outside::Site;
use licence_office::{Office, OfficeLogs, OfficePass};
use std::sync::Wait;
use std::thread::Threads;

/// Listens at a path, serves all parties at once, one worker in a thread of its own for each, until the bell has rung,
/// and closes the office. One more thread, the auditor, takes entries out of the logs while the workers run.
///
/// `passes` and `logs` are those of the office's making, a pass for each party, and `workers` is empty with room for as
/// many. It takes no memory but threads, and what a desk's step takes. It gives every post back and closes the office,
/// however it ends. `SiteFault` comes only where a call of the site failed, and before any session; `DoorFault` only
/// where a door was broken; `Served` only where the bell was heard and no door was broken.
pub fn serve<R: Threads + Wait + Sync, T: Site>(
    rt: &R,
    office: Office,
    mut passes: Vec<OfficePass>,
    logs: OfficeLogs,
    mut workers: Vec<Worker<OfficePass, T::Door, T::Clock, T::Bell, T::Gate>>,
    site: &mut T,
    at: &str,
) -> Ended
    requires some { 0 < vec_len passes }
    requires count { vec_len passes ≡ office.parties }
    requires sets { HasSets office.view }
    requires dealt { AreDealt office.view.desks passes.items }
    requires logs { AreLogsOf logs office }
    requires room { (workers.items ≡ []) × (vec_len passes ≤ vec_capacity workers) }
    // Every post is given back.
    ensures posted { T.posted site.new ≡ T.posted site.old }
    ensures cause { HasCause result (T.faults site.old) (T.faults site.new) (T.tolls site.old) (T.tolls site.new) (T.broken site.old) (T.broken site.new) }
    ensures path { WhereServed result (λ end. IfSome (T.path site.old) (λ p. at.now ≡ p)) }
    // Where it could not serve, there was no session at any post.
    ensures unserved { WhereUnserved result ((posts : ℕ) × Follows T.keeps site.old site.new (kept_from (T.made site.old) (no_sessions posts))) }
    // The histories of the desks have the entries of the sessions of all parties, and no others.
    ensures ran { WhereServed result (λ end. Ran office.view passes.items (λ visits. Follows T.keeps site.old site.new (kept_from (T.made site.old) visits)) (T.rings site.old) (T.rings site.new) end) }
{
    let Ok(_) = site.listen(at) else {
        let _end = office.close_with_log(rt, passes, logs);
        return Ended::SiteFault;
    };
    let Ok(_) = post_all(site, &mut passes, &mut workers) else {
        give_back(site, workers, &mut passes);
        let _end = office.close_with_log(rt, passes, logs);
        return Ended::SiteFault;
    };
    let (broken, end) = serve_all(rt, office, workers, passes, logs, site);
    if broken {
        return Ended::DoorFault(end);
    }
    Ended::Served(end)
}
