//! The posts of the workers, given back.
ghost use Rattle.std.specs.Prelude.{◌≡◌, ◌+◌, ◌≤◌, ◌++◌, List, All, vec_len, vec_capacity};
ghost use Rattle.daemon_outside.specs.Sites.{Kept};
ghost use Rattle.session_outside.specs.Talk.{Counted};
ghost use Rattle.daemon_run.specs.Gives.{AreKept, any_broken, any_heard, any_rang, passes_of};

use crate::worker::Worker;
use daemon_outside::Site;

/// Gives the posts of all workers back to the site, in order, and puts their counters behind those in `passes`. It
/// takes no memory.
pub fn give_back<P: Drop, T: Site>(
    site: &mut T,
    workers: Vec<Worker<P, T::Door, T::Clock, T::Bell, T::Gate>>,
    passes: &mut Vec<P>,
)
    requires lent { All (λ w. T.Door.lent w.post.door ≡ 0) workers.items }
    requires posted { vec_len workers ≤ T.posted site.old }
    requires room { vec_len passes.old + vec_len workers ≤ vec_capacity passes.old }
    ensures posted { T.posted site.new + vec_len workers ≡ T.posted site.old }
    ensures passes { passes.new.items ≡ passes.old.items ++ passes_of workers.items }
    ensures keeps { (ks new : List Kept) → T.keeps site.old ks → AreKept T.Door.talks T.Clock.gave workers.items new → T.keeps site.new (ks ++ new) }
    ensures tolls { Counted (any_heard T.Bell.tolls T.Door.quiets T.Door.faults workers.items) (T.tolls site.old) (T.tolls site.new) }
    ensures rings { Counted (any_rang T.Bell.rings workers.items) (T.rings site.old) (T.rings site.new) }
    ensures broken { Counted (any_broken T.Door.fails workers.items) (T.broken site.old) (T.broken site.new) }
    ensures same { (T.path site.new ≡ T.path site.old) × (T.made site.new ≡ T.made site.old) × (T.faults site.new ≡ T.faults site.old) }
{
    for worker in workers {
        let Worker { pass, post, .. } = worker;
        passes.push_reserved(pass);
        site.retire(post);
    }
}
