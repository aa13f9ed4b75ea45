//! A whole trial.
ghost use Rattle.std.specs.Prelude.{◌≡◌, ◌<◌, ◌≤◌, ◌∷◌, ℕ, [], Err, IfOk, get_or, length, vec_capacity, vec_len};
ghost use Rattle.lic_types.specs.declared.limits.TheConstants.{LICENCE_LIMIT, PARTY_LIMIT};
ghost use Rattle.daemon_run.specs.Gives.{kept_from, no_sessions};
ghost use Rattle.feature_desk.specs.Sitters.{DeskView};
ghost use Rattle.licence_office.specs.Logs.{AreLogsOf};
ghost use Rattle.licence_office.specs.Offices.{AreDealt, IsDeskFor};
ghost use Rattle.session_outside.specs.Talk.{Follows, HasRisen};
ghost use Rattle.trial_terms.specs.Terms.{no_options, trial_pool};
ghost use Rattle.trial_run.specs.Fresh.{AreFresh};
ghost use Rattle.trial_run.specs.Played.{counters_of, links_of};
ghost use Rattle.trial_run.specs.Tried.{Tried, kept_of};

use crate::failure::TrialFailed;
use crate::holding::hold;
use crate::player::{Player, Trial};
use daemon_outside::Site;
use licence_office::{Office, OfficeLogs, OfficePass};
use no_memory::NoMemory;
use std::alloc::{AllocError, Global};
use std::sync::Wait;
use std::thread::Threads;
use trial_link::TrialLink;
use trial_terms::{trial_licence, trial_options};

/// The links of so many clients, in the order of their numbers, each of which plays so many rounds.
fn links(alloc: Global, clients: u32, rounds: u32) -> Result<Vec<TrialLink>, AllocError>
    requires { 0 < rounds }
    ensures count { IfOk result (λ links. vec_len links ≡ clients) }
    ensures fresh { IfOk result (λ links. AreFresh rounds links.items) }
{
    let mut links = Vec::with_capacity(alloc, clients as usize)?;
    for number in 0..clients {
        let link = TrialLink::make(alloc, number, rounds)?;
        links.push_reserved(link);
    }
    Ok(links)
}

/// Gives each client its party's counters and its link, in order. It takes no memory.
fn seat(passes: &mut Vec<OfficePass>, mut links: Vec<TrialLink>, players: &mut Vec<Player>)
    requires same { vec_len passes.old ≡ vec_len links }
    requires empty { players.old.items ≡ [] }
    requires room { vec_len passes.old ≤ vec_capacity players.old }
    ensures counters { counters_of players.new.items ≡ passes.old.items }
    ensures links { links_of players.new.items ≡ links.items }
    ensures count { vec_len players.new ≡ vec_len passes.old }
    ensures empty { passes.new.items ≡ [] }
    ensures room { vec_capacity passes.new ≡ vec_capacity passes.old }
{
    while let Some(counters) = passes.pop() {
        let Some(link) = links.pop() else {
            unreachable!()
        };
        players.push_reserved(Player { counters, link });
    }
    players.reverse();
}

/// The office of a trial: one pool of so many seats, under an empty options file. With it come the counters of so many
/// clients, in order, and the logs.
fn trial_office<R: Wait>(
    rt: &R,
    alloc: Global,
    clients: u32,
    seats: u32,
) -> Result<(Office, Vec<OfficePass>, OfficeLogs), NoMemory>
    requires clients { (2 ≤ clients) × (clients ≤ PARTY_LIMIT) }
    requires seats { (1 ≤ seats) × (seats ≤ LICENCE_LIMIT) }
    ensures view { IfOk result (λ made. (made.0.view.pools ≡ trial_pool seats ∷ []) × (made.0.view.sets ≡ 1) × (made.0.parties ≡ clients)) }
    ensures desk { IfOk result (λ made. (d : DeskView) → IsDeskFor (no_options ∷ []) clients (trial_pool seats) (get_or made.0.view.desks 0 d)) }
    ensures counters { IfOk result (λ made. (vec_len made.1 ≡ clients) × AreDealt made.0.view.desks made.1.items) }
    ensures logs { IfOk result (λ made. AreLogsOf made.2 made.0) }
{
    let licence = trial_licence(alloc, seats)?;
    let options = trial_options(alloc)?;
    let (office, passes, logs) = Office::make(rt, alloc, &licence, &options, clients)?;
    Ok((office, passes, logs))
}

/// Holds a trial: so many clients, 2 to 256, each of which takes one of so many seats, 1 to 65,535, and gives it back,
/// for so many rounds, 1 to 10,000. Each client has one session over a link in memory, all of them at once, each in a
/// thread of its own where one can be made, at a post of the site of its own, of which the clock, the gate and the bell
/// are used. It tells how many replies brought a seat, and how often the cards of the seats were used, by the close of
/// the office: once for each round of each client.
///
/// `NoMemory` comes before any post is made, `SiteFault` only where the site had no post for a client, and before any
/// session. Every post is given back, however it ends. The trial is this project's own.
pub fn try_out<R: Threads + Wait + Sync, T: Site>(
    rt: &R,
    alloc: Global,
    clients: u32,
    seats: u32,
    rounds: u32,
    site: &mut T,
) -> Result<Trial, TrialFailed>
    requires clients { (2 ≤ clients) × (clients ≤ PARTY_LIMIT) }
    requires seats { (1 ≤ seats) × (seats ≤ LICENCE_LIMIT) }
    requires rounds { (1 ≤ rounds) × (rounds ≤ 10000) }
    // Every post is given back.
    ensures posted { T.posted site.new ≡ T.posted site.old }
    ensures no_memory { result ≡ Err TrialFailed.NoMemory → site.new ≡ site.old }
    ensures site_fault { result ≡ Err TrialFailed.SiteFault → HasRisen (T.faults site.old) (T.faults site.new) × ((posts : ℕ) × Follows T.keeps site.old site.new (kept_from (T.made site.old) (no_sessions posts))) }
    // There is one history, a run of the pool's rules, of which each client's one session is the part of its party, and
    // which grants a seat once for each round of each client.
    ensures tried { IfOk result (λ trial. (desk : DeskView) × IsDeskFor (no_options ∷ []) clients (trial_pool seats) desk × Tried desk seats clients rounds
        (λ sessions. Follows T.keeps site.old site.new (kept_of (T.made site.old) sessions)) trial) }
{
    let room = clients as usize;
    let links = links(alloc, clients, rounds)?;
    let mut players = Vec::with_capacity(alloc, room)?;
    let workers = Vec::with_capacity(alloc, room)?;
    let (office, mut passes, logs) = trial_office(rt, alloc, clients, seats)?;
    seat(&mut passes, links, &mut players);
    Ok(hold(rt, office, players, workers, passes, logs, site)?)
}
