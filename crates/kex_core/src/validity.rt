ghost use Rattle.std.specs.Prelude.{ℕ, ◌≡◌, ◌+◌, ◌*◌, ◌<◌, ◌≤◌, ◌^◌, ◌==◌, ◌↔◌, if◌then◌else◌, length, slice_index, IsTrue, MatchOption};
ghost use Rattle.kex_core.specs.Nets.{over, count};
ghost use Rattle.kex_core.specs.Shapes.{sheet, plan, IsNet};
ghost use Rattle.kex_core.specs.Faults.{Below, IsFirst, Refused};

use crate::fault::NetFault;
use crate::limits::{PARTY_LIMIT, STAGE_LIMIT};

/// Whether the lists have the sizes of a net.
fn is_sized(n: u32, m: u32, caps: &[u32], next: &[u32], start: &[u32]) -> bool
    ensures { IsTrue result ↔ ((2 ≤ n) × (n ≤ PARTY_LIMIT) × (1 ≤ m) × (m ≤ n) × (length caps.now ≤ STAGE_LIMIT) × (length next.now ≡ length caps.now) × (length start.now ≡ n)) }
{
    n >= 2
        && n <= PARTY_LIMIT
        && m >= 1
        && m <= n
        && caps.len() <= STAGE_LIMIT
        && next.len() == caps.len()
        && start.len() == n as usize
}

/// The first stage that doesn't lead to a later one or to Exit.
fn first_bad_next(stages: u32, next: &[u32]) -> Option<u32>
    requires { length next.now ≡ stages }
    ensures { MatchOption result (Below stages (λ j. (j < slice_index next.now j) × (slice_index next.now j ≤ stages))) (IsFirst stages (λ j. (j < slice_index next.now j) × (slice_index next.now j ≤ stages))) }
{
    for j in 0..stages {
        let k = next[j as usize];
        if k <= j || k > stages {
            return Some(j);
        }
    }
    None
}

/// The first party that starts neither at a stage nor at Exit.
fn first_bad_start(n: u32, stages: u32, start: &[u32]) -> Option<u32>
    requires { length start.now ≡ n }
    ensures { MatchOption result (Below n (λ p. slice_index start.now p ≤ stages)) (IsFirst n (λ p. slice_index start.now p ≤ stages)) }
{
    for p in 0..n {
        if start[p as usize] > stages {
            return Some(p);
        }
    }
    None
}

/// The first stage that admits nobody.
fn first_bad_cap(stages: u32, caps: &[u32]) -> Option<u32>
    requires { length caps.now ≡ stages }
    ensures { MatchOption result (Below stages (λ j. 1 ≤ slice_index caps.now j)) (IsFirst stages (λ j. 1 ≤ slice_index caps.now j)) }
{
    for j in 0..stages {
        if caps[j as usize] == 0 {
            return Some(j);
        }
    }
    None
}

/// How many parties start at j.
fn starts_at(n: u32, start: &[u32], j: u32) -> u64
    requires small { n ≤ PARTY_LIMIT }
    requires same { length start.now ≡ n }
    ensures value { result ≡ count n (λ p. slice_index start.now p == j) }
    ensures small { result ≤ PARTY_LIMIT }
{
    let mut total = 0u64;
    for p in 0..n {
        if start[p as usize] == j {
            total += 1;
        }
    }
    total
}

/// How many can come to j from the stages that lead there.
fn feeds_of(caps: &[u32], next: &[u32], j: u32) -> u64
    requires small { length caps.now ≤ STAGE_LIMIT }
    requires same { length next.now ≡ length caps.now }
    ensures value { result ≡ over (length caps.now) (λ i. (if slice_index next.now i == j then slice_index caps.now i else 0)) }
    ensures small { result ≤ STAGE_LIMIT * 2 ^ 32 }
{
    let mut total = 0u64;
    for i in 0..caps.len() {
        if next[i] == j {
            total += u64::from(caps[i]);
        }
    }
    total
}

/// The first stage to which more can come than its capacity and one.
fn first_overfull(n: u32, stages: u32, caps: &[u32], next: &[u32], start: &[u32]) -> Option<u32>
    requires stages { length caps.now ≡ stages }
    requires small { length caps.now ≤ STAGE_LIMIT }
    requires same { length next.now ≡ length caps.now }
    requires few { n ≤ PARTY_LIMIT }
    requires parties { length start.now ≡ n }
    ensures { let fits = λ (j : ℕ). count n (λ p. slice_index start.now p == j) + over (length caps.now) (λ i. (if slice_index next.now i == j then slice_index caps.now i else 0)) ≤ slice_index caps.now j + 1 in
        MatchOption result (Below stages fits) (IsFirst stages fits) }
{
    for j in 0..stages {
        if starts_at(n, start, j) + feeds_of(caps, next, j) > u64::from(caps[j as usize]) + 1 {
            return Some(j);
        }
    }
    None
}

/// The first test that fails, if any does.
pub(crate) fn fault_in(
    n: u32,
    m: u32,
    caps: &[u32],
    next: &[u32],
    start: &[u32],
) -> Option<NetFault>
    ensures { let s = sheet n m caps.now next.now start.now in MatchOption result (IsNet s) (Refused s) }
{
    if !is_sized(n, m, caps, next, start) {
        return Some(NetFault::Size);
    }
    let stages = caps.len() as u32;
    if let Some(j) = first_bad_next(stages, next) {
        return Some(NetFault::BadNext(j));
    }
    if let Some(p) = first_bad_start(n, stages, start) {
        return Some(NetFault::BadStart(p));
    }
    if let Some(j) = first_bad_cap(stages, caps) {
        return Some(NetFault::BadCap(j));
    }
    if let Some(j) = first_overfull(n, stages, caps, next, start) {
        return Some(NetFault::Overfull(j));
    }
    let starting = starts_at(n, start, stages);
    let feeding = feeds_of(caps, next, stages);
    if starting + feeding > u64::from(m) {
        return Some(NetFault::OverfullExit);
    }
    None
}
