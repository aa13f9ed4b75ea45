ghost use Rattle.std.specs.Prelude.{◌≡◌, ◌≤◌, ◌<◌, ◌+◌, ◌-◌, ℕ, IfOk, length, slice_index};
ghost use Rattle.kex_core.specs.declared.limits.TheConstants.{PARTY_LIMIT};
ghost use Rattle.kex_net.specs.Chains.{IsChain};

use kex_core::{Net, NoMemory};
use std::alloc::Global;

/// The capacities n-1, n-2 and so on, one for each stage.
fn falling(alloc: Global, n: u32, stages: u32) -> Result<Vec<u32>, NoMemory>
    requires { stages < n }
    ensures { IfOk result (λ v. (length v.items ≡ stages) × ((j : ℕ) → j < stages → slice_index v.items j ≡ n - 1 - j)) }
{
    let mut caps = Vec::new(alloc);
    for j in 0..stages {
        caps.push(n - 1 - j)?;
    }
    Ok(caps)
}

/// Each stage's next is the one behind it, and the last one's is Exit.
fn following(alloc: Global, stages: u32) -> Result<Vec<u32>, NoMemory>
    requires { stages < PARTY_LIMIT }
    ensures { IfOk result (λ v. (length v.items ≡ stages) × ((j : ℕ) → j < stages → slice_index v.items j ≡ j + 1)) }
{
    let mut next = Vec::new(alloc);
    for j in 0..stages {
        next.push(j + 1)?;
    }
    Ok(next)
}

/// The chain for n parties and k licences: with m the smaller of k and n it has the capacities n-1, n-2, .., m, every
/// party starts at the first stage, and each stage leads to the next, the last one to Exit. Where m is n there is no
/// stage.
///
/// The chain of stages is after Anderson and Moir, Distributed Computing 11, 1997.
///
/// n is from 2 to 256, and k at least 1. NoMemory where there is no room for its lists, and for no other reason:
/// [`Net::of`] can't refuse it.
pub fn chain(alloc: Global, n: u32, k: u32) -> Result<Net, NoMemory>
    requires two { 2 ≤ n }
    requires small { n ≤ PARTY_LIMIT }
    requires licences { 1 ≤ k }
    ensures { IfOk result (IsChain n k) }
{
    let m = k.min(n);
    let stages = n - m;
    let caps = falling(alloc, n, stages)?;
    let next = following(alloc, stages)?;
    let start = vec![in alloc; 0u32; n as usize]?;
    Ok(Net::of(n, m, caps, next, start).unwrap())
}
