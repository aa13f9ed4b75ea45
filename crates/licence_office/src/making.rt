//! How an office is made.
ghost use Rattle.std.specs.Prelude.{◌≡◌, ◌<◌, ◌≤◌, ℕ, [], ◌∷◌, All, EachIndex, IfOk, Some, get_or, length, map, slice_get, vec_len, vec_capacity};
ghost use Rattle.lic_types.specs.declared.limits.TheConstants.{PARTY_LIMIT};
ghost use Rattle.feature_desk.specs.Closings.{IsKeeperOf};
ghost use Rattle.feature_desk.specs.Sitters.{DeskView, newcomer};
ghost use Rattle.feature_lines.specs.declared.pool.Pool.{Pool};
ghost use Rattle.options_machine.specs.Rules.{IsSound};
ghost use Rattle.options_machine.specs.State.{set_at};
ghost use Rattle.policy.specs.Pools.{rules_of};
ghost use Rattle.licence_office.specs.Dealing.{IsRoomFor};
ghost use Rattle.licence_office.specs.Logs.{AreLogsOf};
ghost use Rattle.licence_office.specs.Offices.{AreDealt, IsDeskFor, has_gate};
ghost use Rattle.licence_office.specs.Rooms.{AreEnds, HasRoom};

use crate::closing::{OfficeEnd, close_all};
use crate::dealing::{hand_out, rooms};
use crate::logs::{DeskEnd, OfficeLogs};
use crate::office::{Office, OfficePass, Opened};
use feature_desk::{Desk, DeskKeeper, DeskPass};
use feature_lines::{Licence, Pool};
use kex_net::tree;
use lic_types::PARTY_LIMIT;
use no_memory::NoMemory;
use office_view::{OfficeView, PoolList};
use options_text::Options;
use policy::DeskRules;
use std::alloc::Global;
use std::slice::from_ref;
use std::sync::Wait;

/// The rule sets of a pool, one for each options file.
fn sets_of(alloc: Global, pool: &Pool, sets: &[Options]) -> Result<Vec<DeskRules>, NoMemory>
    ensures rules { IfOk result (λ made. made.items ≡ map (rules_of pool.now) sets.now) }
    ensures sound { IfOk result (λ made. (n : ℕ) → n < length made.items → IsSound (set_at made.items n)) }
{
    let mut rules = Vec::with_capacity(alloc, sets.len())?;
    for options in sets {
        rules.push_reserved(DeskRules::of(alloc, options, pool)?);
    }
    Ok(rules)
}

/// Whether a fast gate stands before the seats of so many licences, for so many parties.
fn has_gate(parties: u32, count: u32) -> bool
    requires { parties ≤ PARTY_LIMIT }
    ensures { result ≡ has_gate parties count }
{
    let seats = count.min(parties);
    2 * seats < parties && parties + seats <= PARTY_LIMIT
}

/// The desk of a pool, with the passes of all parties and the keeper of its log. Its seats stand behind a fast gate
/// where there can be one.
fn make_desk<R: Wait>(
    rt: &R,
    alloc: Global,
    pool: &Pool,
    sets: &[Options],
    parties: u32,
) -> Result<(Desk, Vec<DeskPass>, DeskKeeper), NoMemory>
    requires parties { (2 ≤ parties) × (parties ≤ PARTY_LIMIT) }
    requires sets { (1 ≤ length sets.now) × (length sets.now ≤ 4) }
    requires count { 1 ≤ pool.now.count }
    ensures desk { IfOk result (λ made. IsDeskFor sets.now parties pool.now made.0) }
    ensures passes { IfOk result (λ made. (vec_len made.1 ≡ parties) × EachIndex made.1.items (λ i. slice_get made.1.items i ≡ Some (newcomer made.0 i))) }
    ensures keeper { IfOk result (λ made. IsKeeperOf made.2 made.0) }
{
    let rules = sets_of(alloc, pool, sets)?;
    if has_gate(parties, pool.count) {
        return Desk::make_gated(rt, alloc, rules, parties);
    }
    let net = tree(alloc, parties, pool.count)?;
    Desk::make_many(rt, alloc, rules, net)
}

/// Opens a desk for each pool, in order, and deals its passes. Where there is too little memory, the desks that were
/// opened are closed with all their passes.
fn open_all<R: Wait>(
    rt: &R,
    alloc: Global,
    pools: &[Pool],
    sets: &[Options],
    parties: &mut [OfficePass],
    rooms: Opened,
) -> Result<Opened, NoMemory>
    requires parties { (2 ≤ length parties.old) × (length parties.old ≤ PARTY_LIMIT) }
    requires sets { (1 ≤ length sets.now) × (length sets.now ≤ 4) }
    requires counts { All (λ p. 1 ≤ p.count) pools.now }
    requires passes { All (IsRoomFor (length pools.now)) parties.old }
    requires desks { (rooms.desks.items ≡ []) × (length pools.now ≤ vec_capacity rooms.desks) }
    requires ends { (rooms.ends.items ≡ []) × (length pools.now ≤ vec_capacity rooms.ends) }
    requires told { HasRoom (length pools.now) rooms.told }
    ensures count { IfOk result (λ opened. vec_len opened.desks ≡ length pools.now) }
    ensures desks { IfOk result (λ opened. (j : ℕ) (p : Pool) (d : DeskView) → j < length pools.now → IsDeskFor sets.now (length parties.old) (get_or pools.now j p) (get_or opened.desks.items j d)) }
    ensures dealt { IfOk result (λ opened. AreDealt opened.desks.items parties.new) }
    ensures ends { IfOk result (λ opened. AreEnds (length parties.old) opened.desks.items opened.ends.items) }
    ensures told { IfOk result (λ opened. HasRoom (length pools.now) opened.told) }
{
    let Opened {
        mut desks,
        mut ends,
        told,
    } = rooms;
    let count = parties.len() as u32;
    for pool in pools {
        match make_desk(rt, alloc, pool, sets, count) {
            Ok((desk, passes, keeper)) => {
                let mut room = passes;
                hand_out(&mut room, parties);
                desks.push_reserved(desk);
                ends.push_reserved(DeskEnd { keeper, room });
            }
            Err(NoMemory) => {
                let opened = Opened { desks, ends, told };
                let _end = close_all(rt, opened, parties);
                return Err(NoMemory);
            }
        }
    }
    Ok(Opened { desks, ends, told })
}

impl Office {
    /// The desks of a licence's pools, in order, under one options file, the passes of 2 to 256 parties, in order, and
    /// the logs of the desks, as [`make_many`](Office::make_many) makes them. `NoMemory` comes where there is too
    /// little memory.
    pub fn make<R: Wait>(
        rt: &R,
        alloc: Global,
        licence: &Licence,
        options: &Options,
        parties: u32,
    ) -> Result<(Office, Vec<OfficePass>, OfficeLogs), NoMemory>
        requires { (2 ≤ parties) × (parties ≤ PARTY_LIMIT) }
        ensures view { IfOk result (λ made. (made.0.view.pools ≡ licence.now.pools) × (made.0.view.sets ≡ 1) × (made.0.parties ≡ parties)) }
        ensures desks { IfOk result (λ made. (j : ℕ) (p : Pool) (d : DeskView) → j < length licence.now.pools → IsDeskFor (options.now ∷ []) parties (get_or licence.now.pools j p) (get_or made.0.view.desks j d)) }
        ensures passes { IfOk result (λ made. (vec_len made.1 ≡ parties) × AreDealt made.0.view.desks made.1.items) }
        ensures logs { IfOk result (λ made. AreLogsOf made.2 made.0) }
    {
        Office::make_many(rt, alloc, licence, from_ref(options), parties)
    }

    /// The desks of a licence's pools, in order, each with one rule set for each of one to four options files; the
    /// passes of 2 to 256 parties, in order; and the logs of the desks.
    ///
    /// It takes all memory that the office ever needs. `NoMemory` comes where there is not so much; the desks that were
    /// made are closed then. It waits for nobody, since nobody has a pass yet.
    pub fn make_many<R: Wait>(
        rt: &R,
        alloc: Global,
        licence: &Licence,
        sets: &[Options],
        parties: u32,
    ) -> Result<(Office, Vec<OfficePass>, OfficeLogs), NoMemory>
        requires parties { (2 ≤ parties) × (parties ≤ PARTY_LIMIT) }
        requires sets { (1 ≤ length sets.now) × (length sets.now ≤ 4) }
        ensures view { IfOk result (λ made. (made.0.view.pools ≡ licence.now.pools) × (made.0.view.sets ≡ length sets.now) × (made.0.parties ≡ parties)) }
        ensures desks { IfOk result (λ made. (j : ℕ) (p : Pool) (d : DeskView) → j < length licence.now.pools → IsDeskFor sets.now parties (get_or licence.now.pools j p) (get_or made.0.view.desks j d)) }
        ensures passes { IfOk result (λ made. (vec_len made.1 ≡ parties) × AreDealt made.0.view.desks made.1.items) }
        ensures logs { IfOk result (λ made. AreLogsOf made.2 made.0) }
    {
        let pools = licence.pools();
        let listed = PoolList::of(alloc, Vec::from_slice(alloc, pools)?)?;
        let mut passes = rooms(alloc, parties, pools.len())?;
        let told = OfficeEnd::room(alloc, pools.len())?;
        let ends = Vec::with_capacity(alloc, pools.len())?;
        let desks = Vec::with_capacity(alloc, pools.len())?;
        let rooms = Opened { desks, ends, told };
        let Opened { desks, ends, told } = open_all(
            rt,
            alloc,
            pools,
            sets,
            passes.as_mut_slice(),
            rooms,
        )?;
        let view = OfficeView::of(listed, desks, sets.len() as u32);
        let office = Office { view, parties };
        let logs = OfficeLogs {
            ends,
            told,
            parties,
            count: None,
        };
        Ok((office, passes, logs))
    }
}
