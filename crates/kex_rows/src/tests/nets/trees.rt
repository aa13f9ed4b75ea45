ghost use Rattle.std.specs.Prelude.{◌≤◌};

use super::are_caps;
use kex_core::{Net, NoMemory};
use kex_net::{gated, tree};
use std::alloc::Global;
use std::test::Fail;

/// Whether these stages follow on the net's stages, where the number of stages means Exit.
fn has_nexts(net: &Net, next: &[u32]) -> bool {
    let exit = net.stages();
    exit as usize == next.len()
        && next
            .iter()
            .enumerate()
            .all(|(j, k)| net.next(j as u32).unwrap_or(exit) == *k)
}

/// Whether the net's parties start at these stages, where the number of stages means Exit.
fn has_starts(net: &Net, start: &[u32]) -> bool {
    let exit = net.stages();
    net.parties() as usize == start.len()
        && start
            .iter()
            .enumerate()
            .all(|(p, j)| net.start(p as u32).unwrap_or(exit) == *j)
}

/// Whether the net has these stages and starts.
fn has_lists(net: &Net, caps: &[u32], next: &[u32], start: &[u32]) -> bool {
    are_caps(net, caps) && has_nexts(net, next) && has_starts(net, start)
}

/// Whether the tree for n and k has these stages and starts.
fn is_tree(
    alloc: Global,
    n: u32,
    k: u32,
    caps: &[u32],
    next: &[u32],
    start: &[u32],
) -> Result<bool, NoMemory>
    requires { (2 ≤ n) × (n ≤ 256) × (1 ≤ k) }
{
    Ok(has_lists(&tree(alloc, n, k)?, caps, next, start))
}

#[test]
fn trees_pair_their_groups(rt: HostRuntime) -> Result<(), Fail> {
    assert!(rt; is_tree(rt.alloc(), 5, 2, &[3, 2, 2], &[1, 2, 3], &[0, 0, 0, 0, 2])?);
    assert!(rt;
        is_tree(
            rt.alloc(),
            8,
            2,
            &[3, 2, 3, 2, 3, 2],
            &[1, 4, 3, 4, 5, 6],
            &[0, 0, 0, 0, 2, 2, 2, 2]
        )?
    );
    assert!(rt; is_tree(rt.alloc(), 3, 5, &[], &[], &[0, 0, 0])?);
    assert_eq!(rt; tree(rt.alloc(), 3, 5)?.width(), 3);
    Ok(())
}

#[test]
fn gate_leads_behind_the_tree(rt: HostRuntime) -> Result<(), Fail> {
    let net = gated(rt.alloc(), 5, 1)?;
    assert_eq!(rt; net.width(), 1);
    assert!(rt;
        has_lists(
            &net,
            &[1, 1, 1, 1, 1],
            &[2, 2, 3, 4, 5],
            &[0, 0, 1, 1, 3, 4]
        )
    );
    Ok(())
}
