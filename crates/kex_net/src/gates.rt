ghost use Rattle.std.specs.Prelude.{◌≡◌, ◌+◌, ◌*◌, ◌<◌, ◌≤◌, IfOk, min};
ghost use Rattle.kex_core.specs.declared.limits.TheConstants.{PARTY_LIMIT};
ghost use Rattle.kex_net.specs.Gates.{IsGated};

use crate::stages::{push_falling, push_leading};
use crate::trees::tree_lists;
use kex_core::{Net, NoMemory};
use std::alloc::Global;

/// The net behind the fast gate, for n parties and k licences. With m the smaller of k and n it has n + m parties, the
/// width m and n stages. Its first n - m stages are those of the tree for n and k, and parties 0 to n-1 start as there.
/// Then follow m stages with the capacities 2m-1, 2m-2, .., m, each leading to the next, the last to Exit. The tree's
/// stage that led to Exit leads to the first of these, and parties n to n+m-1 start there. So a party that passes the
/// gate has m stages on its path.
///
/// After the fast path of Anderson and Moir, Distributed Computing 11, 1997; this net is this project's.
///
/// n is at least 2, and k at least 1; 2m is below n, and n + m at most 256. NoMemory where there is no room for its
/// lists, and for no other reason: [`Net::of`] can't refuse it.
pub fn gated(alloc: Global, n: u32, k: u32) -> Result<Net, NoMemory>
    requires two { 2 ≤ n }
    requires licences { 1 ≤ k }
    requires room { 2 * min k n < n }
    requires small { n + min k n ≤ PARTY_LIMIT }
    ensures { IfOk result (IsGated n k) }
{
    let m = k.min(n);
    let mut lists = tree_lists(alloc, n, k)?;
    let first = n - m;
    push_falling(&mut lists.caps, m, m)?;
    push_leading(&mut lists.next, first, m, first + m)?;
    let gate = vec![in alloc; first; m as usize]?;
    lists.start.extend_from_slice(&gate)?;
    Ok(Net::of(n + m, m, lists.caps, lists.next, lists.start).unwrap())
}
