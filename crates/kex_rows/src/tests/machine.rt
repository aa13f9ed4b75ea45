//! A net by hand, and one party's way through its machine.
ghost use Rattle.std.specs.Prelude.{◌≡◌, IfOk, length};

use kex_core::{Access, Net, Place, World};
use std::alloc::Global;
use std::test::Fail;

/// Two stages of capacity 1, with two parties each, lead to a third, and that to the one number.
fn net_by_hand(alloc: Global) -> Result<Net, Fail>
    ensures { IfOk result (λ net. (net.parties ≡ 4) × (length net.caps ≡ 3)) }
{
    let caps = vec![in alloc; 1; 3]?;
    let next = Vec::from_array(alloc, [2, 2, 3])?;
    let start = Vec::from_array(alloc, [0, 0, 1, 1])?;
    Ok(Net::of(4, 1, caps, next, start)?)
}

/// Its numbers of parties and stages, its width, and the capacity of stage 2.
fn numbers(net: &Net) -> [u32; 4]
    requires { length net.now.caps ≡ 3 }
{
    [net.parties(), net.stages(), net.width(), net.cap(2)]
}

/// Where the paths of two parties lead: from the start, from a stage, and back from one.
fn ways(net: &Net) -> [Option<u32>; 8]
    requires parties { net.now.parties ≡ 4 }
    requires stages { length net.now.caps ≡ 3 }
{
    [
        net.start(3),
        net.next(0),
        net.next(2),
        net.before(2, 2),
        net.before(0, 2),
        net.before(0, 3),
        net.before(0, 1),
        net.before(0, 0),
    ]
}

/// What follows on stage 0, on stage 2 and on Out.
fn next_places(net: &Net) -> [Place; 3]
    requires parties { net.now.parties ≡ 4 }
    requires stages { length net.now.caps ≡ 3 }
{
    [net.passed(0), net.passed(2), net.due(3, Place::Out)]
}

/// The accesses of so many steps of party 3, and where it stands afterwards.
fn steps_of_three(alloc: Global, net: Net) -> Result<([Access; 8], Place), Fail>
    requires { net.parties ≡ 4 }
{
    let mut world = World::make(alloc, net)?;
    let mut accesses = [Access::Dec(0); 8];
    for access in &mut accesses {
        *access = world.step(3);
    }
    Ok((accesses, world.place(3)))
}

#[test]
fn paths_meet_at_the_last_stage(rt: HostRuntime) -> Result<(), Fail> {
    let net = net_by_hand(rt.alloc())?;
    assert_eq!(rt; numbers(&net), [4, 3, 1, 1]);
    let expected = [
        Some(1),
        Some(2),
        None,
        Some(1),
        Some(0),
        Some(2),
        None,
        None,
    ];
    assert_eq!(rt; ways(&net), expected);
    assert_eq!(rt;
        next_places(&net),
        [Place::Dec(2), Place::Named(0), Place::Dec(1)]
    );
    let there_and_back = [
        Access::Dec(1),
        Access::Dec(2),
        Access::CardOut(0),
        Access::CardIn(0),
        Access::Inc(2),
        Access::Unmark(2),
        Access::Inc(1),
        Access::Unmark(1),
    ];
    assert_eq!(rt;
        steps_of_three(rt.alloc(), net)?,
        (there_and_back, Place::Out)
    );
    Ok(())
}
