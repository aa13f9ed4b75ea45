//! The posts of the workers.
ghost use Rattle.std.specs.Prelude.{◌≡◌, ◌+◌, ◌≤◌, ◌++◌, [], OnOk, OnErr, reverse, vec_len, vec_capacity};
ghost use Rattle.session_outside.specs.Talk.{Follows, HasRisen};
ghost use Rattle.daemon_run.specs.Gives.{AreStarted, passes_of};

use crate::worker::Worker;
use daemon_outside::{Site, SiteFailed};
use door_worker::DoorEnd;

/// Makes one post for each party, in order, and a worker of it. Where one fails, the posts made so far stand, and the
/// parties that have none are left in `passes`. It takes no memory.
pub fn post_all<P: Drop, T: Site>(
    site: &mut T,
    passes: &mut Vec<P>,
    workers: &mut Vec<Worker<P, T::Door, T::Clock, T::Bell, T::Gate>>,
) -> Result<(), SiteFailed>
    requires empty { workers.old.items ≡ [] }
    requires room { vec_len passes.old ≤ vec_capacity workers.old }
    ensures posted { T.posted site.new ≡ T.posted site.old + vec_len workers.new }
    ensures started { AreStarted T.Door.talks T.Clock.gave T.Door.faults T.Door.quiets T.Door.fails T.Door.lent T.Bell.tolls T.Bell.rings (T.made site.old) workers.new.items }
    ensures passes { passes_of workers.new.items ++ reverse passes.new.items ≡ passes.old.items }
    ensures all { OnOk result (passes.new.items ≡ []) }
    ensures room { vec_capacity passes.new ≡ vec_capacity passes.old }
    ensures failed { OnErr result (HasRisen (T.faults site.old) (T.faults site.new)) }
    ensures steady { OnOk result (T.faults site.new ≡ T.faults site.old) }
    ensures keeps { Follows T.keeps site.old site.new [] }
    ensures same { (T.path site.new ≡ T.path site.old) × (T.tolls site.new ≡ T.tolls site.old) × (T.rings site.new ≡ T.rings site.old) × (T.broken site.new ≡ T.broken site.old) }
{
    passes.reverse();
    while let Some(pass) = passes.pop() {
        match site.post() {
            Ok(post) => workers.push_reserved(Worker {
                pass,
                post,
                end: DoorEnd::Rung,
            }),
            Err(failed) => {
                passes.push_reserved(pass);
                return Err(failed);
            }
        }
    }
    Ok(())
}
