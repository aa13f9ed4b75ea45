ghost use Rattle.std.specs.Prelude.{◌≡◌, ◌<◌, ◌≤◌, IfOk, min};

mod trees;

use kex_core::{Net, NetFault, NoMemory, Place, World};
use kex_net::chain;
use std::alloc::Global;
use std::test::Fail;

/// So many steps of one party, and what stands afterwards at the one stage.
#[derive(Clone, Copy)]
struct Row {
    party: u32,
    steps: u32,
    place: Place,
    counter: i64,
    named: Option<u32>,
}

fn expect(party: u32, steps: u32, place: Place, counter: i64, named: Option<u32>) -> Row {
    Row {
        party,
        steps,
        place,
        counter,
        named,
    }
}

fn walk(world: &mut World, party: u32, steps: u32)
    requires { party < world.old.net.parties }
    ensures { world.new.net ≡ world.old.net }
{
    for _step in 0..steps {
        let _access = world.step(party);
    }
}

/// The first of these rows that chain(3, 2) doesn't follow.
fn first_wrong(alloc: Global, rows: &[Row]) -> Result<Option<usize>, NoMemory> {
    let net = chain(alloc, 3, 2)?;
    let mut world = World::make(alloc, net)?;
    for (i, row) in rows.iter().enumerate() {
        let party = row.party % 3;
        walk(&mut world, party, row.steps);
        let is_right = world.place(party) == row.place && world.counter(0) == row.counter;
        if !is_right || world.named(0) != row.named {
            return Ok(Some(i));
        }
    }
    Ok(None)
}

/// Chain(3, 2) has one stage of capacity 2. Parties 0 and 1 hold 0 and 1, and party 2 finds no room.
#[test]
fn waiters_wait_for_leavers(rt: HostRuntime) -> Result<(), Fail> {
    let leaver_stops_before_unmark = [
        expect(0, 3, Place::Holding(0), 1, None),
        expect(1, 3, Place::Holding(1), 0, None),
        expect(2, 1, Place::Mark(0), -1, None),
        expect(2, 1, Place::Look(0), -1, Some(2)),
        expect(2, 1, Place::Spin(0), -1, Some(2)),
        expect(0, 3, Place::Unmark(0), 0, Some(2)),
        expect(2, 1, Place::Spin(0), 0, Some(2)),
        expect(0, 1, Place::Out, 0, Some(0)),
        expect(2, 1, Place::Naming(0), 0, Some(0)),
    ];
    let waiter_stops_before_mark = [
        expect(0, 3, Place::Holding(0), 1, None),
        expect(1, 3, Place::Holding(1), 0, None),
        expect(2, 1, Place::Mark(0), -1, None),
        expect(0, 4, Place::Out, 0, Some(0)),
        expect(0, 1, Place::Mark(0), -1, Some(0)),
        expect(0, 1, Place::Look(0), -1, Some(0)),
        expect(0, 1, Place::Spin(0), -1, Some(0)),
        expect(0, 1, Place::Spin(0), -1, Some(0)),
        expect(2, 1, Place::Look(0), -1, Some(2)),
        expect(0, 1, Place::Naming(0), -1, Some(2)),
        expect(2, 1, Place::Spin(0), -1, Some(2)),
        expect(2, 1, Place::Spin(0), -1, Some(2)),
    ];
    assert_eq!(rt; first_wrong(rt.alloc(), &leaver_stops_before_unmark)?, None);
    assert_eq!(rt; first_wrong(rt.alloc(), &waiter_stops_before_mark)?, None);
    Ok(())
}

fn are_caps(net: &Net, caps: &[u32]) -> bool {
    net.stages() as usize == caps.len()
        && caps
            .iter()
            .enumerate()
            .all(|(j, cap)| net.cap(j as u32) == *cap)
}

/// Whether chain(n, k) has this width and these capacities.
fn is_chain(alloc: Global, n: u32, k: u32, width: u32, caps: &[u32]) -> Result<bool, NoMemory>
    requires { (2 ≤ n) × (n ≤ 256) × (1 ≤ k) }
{
    let net = chain(alloc, n, k)?;
    Ok(net.width() == width && are_caps(&net, caps))
}

#[test]
fn chains_have_their_capacities(rt: HostRuntime) -> Result<(), Fail> {
    assert!(rt; is_chain(rt.alloc(), 2, 1, 1, &[1])?);
    assert!(rt; is_chain(rt.alloc(), 3, 5, 3, &[])?);
    assert!(rt; is_chain(rt.alloc(), 5, 2, 2, &[4, 3, 2])?);
    Ok(())
}

/// Chain(n, k) once each of these parties has made so many steps, one after another.
fn walked(alloc: Global, n: u32, k: u32, walks: &[(u32, u32)]) -> Result<World, NoMemory>
    requires { (2 ≤ n) × (n ≤ 256) × (1 ≤ k) }
    ensures { IfOk result (λ w. (w.net.parties ≡ n) × (w.net.width ≡ min k n)) }
{
    let mut world = World::make(alloc, chain(alloc, n, k)?)?;
    for (party, steps) in walks {
        walk(&mut world, party % n, *steps);
    }
    Ok(world)
}

/// Chain(2, 1) has the number 0 alone and no bit; chain(3, 5) has no stage, two bits and the numbers 0, 1 and 2.
#[test]
fn numbers_are_taken_in_order(rt: HostRuntime) -> Result<(), Fail> {
    let world = walked(rt.alloc(), 2, 1, &[(1, 2)])?;
    assert!(rt; world.place(1) == Place::Holding(0) && world.card(0));
    let world = walked(rt.alloc(), 3, 5, &[(2, 2), (0, 3), (1, 3)])?;
    let places = [world.place(0), world.place(1), world.place(2)];
    assert_eq!(rt; places, [1, 2, 0].map(Place::Holding));
    assert!(rt; world.bit(0) && world.bit(1));
    Ok(())
}

fn fault_of(alloc: Global, caps: &[u32], next: &[u32]) -> Result<Option<NetFault>, Fail> {
    let start = vec![in alloc; 0; 3]?;
    Ok(Net::of(
        3,
        2,
        Vec::from_slice(alloc, caps)?,
        Vec::from_slice(alloc, next)?,
        start,
    )
    .err())
}

/// The first of these stages, and with which capacities and ways, that isn't refused so or taken.
fn first_unlike(
    alloc: Global,
    cases: &[(&[u32], &[u32], Option<NetFault>)],
) -> Result<Option<usize>, Fail> {
    for (i, (caps, next, fault)) in cases.iter().enumerate() {
        if fault_of(alloc, caps, next)? != *fault {
            return Ok(Some(i));
        }
    }
    Ok(None)
}

#[test]
fn nets_are_refused(rt: HostRuntime) -> Result<(), Fail> {
    let none: [u32; 0] = [];
    let cases = [
        ([1].as_slice(), [1].as_slice(), Some(NetFault::Overfull(0))),
        ([2].as_slice(), [0].as_slice(), Some(NetFault::BadNext(0))),
        (
            none.as_slice(),
            none.as_slice(),
            Some(NetFault::OverfullExit),
        ),
        ([0].as_slice(), [1].as_slice(), Some(NetFault::BadCap(0))),
        ([2].as_slice(), [1].as_slice(), None),
    ];
    assert_eq!(rt; first_unlike(rt.alloc(), &cases)?, None);
    Ok(())
}
