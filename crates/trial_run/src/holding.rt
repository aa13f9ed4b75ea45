//! From the posts to the close of the office.
ghost use Rattle.std.specs.Prelude.{◌≡◌, ◌+◌, ◌<◌, ◌≤◌, ◌++◌, ℕ, [], All, IfOk, OnErr, get_or, length, map, vec_capacity, vec_len};
ghost use Rattle.daemon_outside.specs.Sites.{IsNew};
ghost use Rattle.daemon_run.specs.Gives.{kept_from, no_sessions, passes_of};
ghost use Rattle.daemon_run.specs.Join.{HasSets};
ghost use Rattle.feature_desk.specs.Sitters.{DeskView, account_of, newcomer};
ghost use Rattle.licence_office.specs.Logs.{AreLogsOf};
ghost use Rattle.licence_office.specs.Offices.{AreAt, AreDealt};
ghost use Rattle.session.specs.Session.{setup_of};
ghost use Rattle.session_outside.specs.Talk.{Follows, HasRisen};
ghost use Rattle.trial_run.specs.Played.{AreNumbered, counters_of, links_of};
ghost use Rattle.trial_run.specs.Tried.{kept_of};
ghost use Rattle.trial_run.specs.Closed.{HasClosed};
ghost use Rattle.trial_run.specs.Fresh.{AreFresh};
ghost use Rattle.trial_run.specs.Held.{Held};

use crate::player::{Player, Trial};
use crate::playing::play_all;
use daemon_outside::{Site, SiteFailed};
use daemon_run::{Worker, give_back, post_all};
use feature_desk::Desk;
use licence_office::{Office, OfficeLogs, OfficePass};
use office_view::OfficeView;
use std::sync::Wait;
use std::thread::Threads;

/// The workers of a trial at a site.
type Workers<T> = Vec<
    Worker<Player, <T as Site>::Door, <T as Site>::Clock, <T as Site>::Bell, <T as Site>::Gate>,
>;

/// Puts the counters of all clients, in order, behind those in `passes`. It takes no memory.
fn take_counters(players: Vec<Player>, passes: &mut Vec<OfficePass>)
    requires room { vec_len passes.old + vec_len players ≤ vec_capacity passes.old }
    ensures { passes.new.items ≡ passes.old.items ++ counters_of players.items }
{
    for player in players {
        let Player { counters, link: _ } = player;
        passes.push_reserved(counters);
    }
}

/// There is one desk for each pool.
fn pair(office: &OfficeView<Desk>)
    ensures { length office.now.desks ≡ length office.now.pools }
{
    let _pools = office.pools();
}

/// Closes an office of one pool with the counters of all clients, and tells its numbers. It takes no memory.
fn close<R: Wait>(
    rt: &R,
    office: Office,
    players: Vec<Player>,
    mut passes: Vec<OfficePass>,
    logs: OfficeLogs,
) -> Trial
    requires count { vec_len players ≡ office.parties }
    requires one { length office.view.desks ≡ 1 }
    requires ready { All (λ w. AreAt office.view.desks w.counters.items) players.items }
    requires logs { AreLogsOf logs office }
    requires empty { passes.items ≡ [] }
    requires room { vec_len players ≤ vec_capacity passes }
    ensures { (d : DeskView) → HasClosed (get_or office.view.desks 0 d) (counters_of players.items) result }
{
    take_counters(players, &mut passes);
    let tallies = office.close(rt, passes, logs);
    let tally = &tallies[0];
    Trial {
        grants: tally.grants,
        uses: tally.uses,
    }
}

/// Lets all clients play, gives their posts back, and closes the office. It tells what the trial came to.
fn hold_all<R: Threads + Wait + Sync, T: Site>(
    rt: &R,
    office: Office,
    mut workers: Workers<T>,
    mut players: Vec<Player>,
    passes: Vec<OfficePass>,
    logs: OfficeLogs,
    site: &mut T,
) -> Trial
    requires some { 0 < vec_len workers }
    requires count { vec_len workers ≡ office.parties }
    requires one { length office.view.pools ≡ 1 }
    requires sets { HasSets office.view }
    requires dealt { AreDealt office.view.desks (counters_of (passes_of workers.items)) }
    requires unused { All (λ w. IsNew T.Door.talks T.Clock.gave T.Door.faults T.Door.quiets T.Door.fails T.Door.lent T.Bell.tolls T.Bell.rings w.post.door w.post.clock w.post.bell) workers.items }
    requires logs { AreLogsOf logs office }
    requires empty { (players.items ≡ []) × (passes.items ≡ []) }
    requires room { (vec_len workers ≤ vec_capacity players) × (vec_len workers ≤ vec_capacity passes) }
    requires posted { vec_len workers ≤ T.posted site.old }
    ensures posted { T.posted site.new + vec_len workers ≡ T.posted site.old }
    ensures held { (base rounds : ℕ) (d : DeskView) → AreNumbered base workers.items → AreFresh rounds (links_of (passes_of workers.items))
        → Held (get_or office.view.desks 0 d) (λ p. setup_of account_of office.view (map (λ desk. newcomer desk p) office.view.desks)) (length workers.items) rounds
        (λ sessions. Follows T.keeps site.old site.new (kept_of base sessions)) result }
{
    let view = office.view();
    pair(view);
    play_all(rt, view, &mut workers);
    give_back(site, workers, &mut players);
    close(rt, office, players, passes, logs)
}

/// Makes a post of the site for each client, lets all clients play at once, gives the posts back, and closes the
/// office. It takes no memory but threads, and what a desk's step takes.
///
/// `players` have the counters that were dealt at the office's making and links that have told nothing; `workers` and
/// `passes` are empty, with room for as many. It fails only where a call of the site did, and then no session was held.
/// Every post is given back, also where a later one fails, and the office is closed.
pub(crate) fn hold<R: Threads + Wait + Sync, T: Site>(
    rt: &R,
    office: Office,
    mut players: Vec<Player>,
    mut workers: Workers<T>,
    passes: Vec<OfficePass>,
    logs: OfficeLogs,
    site: &mut T,
) -> Result<Trial, SiteFailed>
    requires some { 0 < vec_len players }
    requires count { vec_len players ≡ office.parties }
    requires one { length office.view.pools ≡ 1 }
    requires sets { HasSets office.view }
    requires dealt { AreDealt office.view.desks (counters_of players.items) }
    requires logs { AreLogsOf logs office }
    requires empty { (workers.items ≡ []) × (passes.items ≡ []) }
    requires room { (vec_len players ≤ vec_capacity workers) × (vec_len players ≤ vec_capacity passes) }
    ensures posted { T.posted site.new ≡ T.posted site.old }
    ensures failed { OnErr result (HasRisen (T.faults site.old) (T.faults site.new)) }
    ensures unheld { OnErr result ((posts : ℕ) × Follows T.keeps site.old site.new (kept_from (T.made site.old) (no_sessions posts))) }
    ensures paired { length office.view.desks ≡ length office.view.pools }
    ensures held { IfOk result (λ trial. (rounds : ℕ) (d : DeskView) → AreFresh rounds (links_of players.items)
        → Held (get_or office.view.desks 0 d) (λ p. setup_of account_of office.view (map (λ desk. newcomer desk p) office.view.desks)) (length players.items) rounds
        (λ sessions. Follows T.keeps site.old site.new (kept_of (T.made site.old) sessions)) trial) }
{
    let view = office.view();
    pair(view);
    let Ok(_) = post_all(site, &mut players, &mut workers) else {
        give_back(site, workers, &mut players);
        let _trial = close(rt, office, players, passes, logs);
        return Err(SiteFailed);
    };
    Ok(hold_all(rt, office, workers, players, passes, logs, site))
}
