ghost use Rattle.std.specs.Prelude.{◌≡◌, ℕ, ◌+◌, ◌-◌, ◌/◌, ◌<◌, ◌≤◌, ◌^◌, ◌++◌, [], ◌∷◌, IfOk, OnOk, length, slice_index, min, sum};
ghost use Rattle.kex_core.specs.Shapes.{sheet};
ghost use Rattle.kex_core.specs.declared.limits.TheConstants.{PARTY_LIMIT};
ghost use Rattle.kex_net.specs.Trees.{bottom, above, stage_met, falling, leading, level_caps, level_nexts, level_meets, stages_of, AreLevels, IsTree};

use crate::stages::{push_falling, push_leading};
use kex_core::{Net, NoMemory};
use std::alloc::Global;

/// The stages of some levels, and the stage that each group meets below them.
#[derive(Drop)]
pub(crate) struct Stages {
    pub(crate) caps: Vec<u32>,
    pub(crate) next: Vec<u32>,
    pub(crate) meets: Vec<u32>,
}

impl Stages {
    /// The stages of a pair of groups with `both` parties, of which the first is `first`.
    fn push_pair(&mut self, m: u32, first: u32, both: u32, up: u32) -> Result<(), NoMemory>
        requires { first + both < 2 ^ 32 }
        ensures caps { OnOk result (self.new.caps.items ≡ self.old.caps.items ++ falling m (both - m)) }
        ensures nexts { OnOk result (self.new.next.items ≡ self.old.next.items ++ leading first (both - m) up) }
        ensures meets { OnOk result (self.new.meets.items ≡ self.old.meets.items ++ (stage_met first (both - m) up ∷ stage_met first (both - m) up ∷ [])) }
    {
        let count = both.saturating_sub(m);
        let meets = if count == 0 { up } else { first };
        push_falling(&mut self.caps, m, count)?;
        push_leading(&mut self.next, first, count, up)?;
        self.meets.push(meets)?;
        self.meets.push(meets)?;
        Ok(())
    }
}

/// The sizes of the groups of n parties: m in each, and in the last one the rest.
fn bottom_sizes(alloc: Global, n: u32, m: u32) -> Result<Vec<u32>, NoMemory>
    requires some { 1 ≤ m }
    requires wide { m ≤ n }
    requires small { n ≤ PARTY_LIMIT }
    ensures value { IfOk result (λ v. v.items ≡ bottom m n) }
    ensures total { IfOk result (λ v. sum v.items ≡ n) }
    ensures count { IfOk result (λ v. length v.items ≡ (n + m - 1) / m) }
{
    let mut sizes = Vec::new(alloc);
    for group in 0..(n + m - 1) / m {
        sizes.push(m.min(n - group * m))?;
    }
    Ok(sizes)
}

fn total(sizes: &[u32]) -> u32
    requires { sum sizes.now < 2 ^ 32 }
    ensures { result ≡ sum sizes.now }
{
    sizes.iter().sum()
}

/// The sizes of the groups above a level: what comes to it, less one for each of its stages.
fn sizes_above(alloc: Global, m: u32, sizes: &[u32]) -> Result<Vec<u32>, NoMemory>
    requires { sum sizes.now < 2 ^ 32 }
    ensures value { IfOk result (λ v. v.items ≡ above m sizes.now) }
    ensures total { IfOk result (λ v. sum v.items + length (level_caps m sizes.now) ≡ sum sizes.now) }
    ensures fewer { IfOk result (λ v. 2 ≤ length sizes.now → length v.items < length sizes.now) }
    ensures some { IfOk result (λ v. 1 ≤ length sizes.now → 1 ≤ length v.items) }
{
    let mut higher = Vec::new(alloc);
    for pair in 0..sizes.len() / 2 {
        higher.push(m.min(sizes[2 * pair] + sizes[2 * pair + 1]))?;
    }
    if sizes.len() % 2 == 1 {
        higher.push(sizes[sizes.len() - 1])?;
    }
    Ok(higher)
}

/// The stages of one level, where the groups above it meet `ups`.
fn level(alloc: Global, m: u32, base: u32, sizes: &[u32], ups: &[u32]) -> Result<Stages, NoMemory>
    requires ups { length ups.now ≡ length (above m sizes.now) }
    requires room { base + sum sizes.now < 2 ^ 32 }
    ensures caps { IfOk result (λ s. s.caps.items ≡ level_caps m sizes.now) }
    ensures nexts { IfOk result (λ s. s.next.items ≡ level_nexts m base sizes.now ups.now) }
    ensures meets { IfOk result (λ s. s.meets.items ≡ level_meets m base sizes.now ups.now) }
{
    let mut stages = Stages {
        caps: Vec::new(alloc),
        next: Vec::new(alloc),
        meets: Vec::new(alloc),
    };
    let mut first = base;
    for pair in 0..sizes.len() / 2 {
        let both = sizes[2 * pair] + sizes[2 * pair + 1];
        stages.push_pair(m, first, both, ups[pair])?;
        first += both.saturating_sub(m);
    }
    if sizes.len() % 2 == 1 {
        stages.meets.push(ups[sizes.len() / 2])?;
    }
    Ok(stages)
}

/// All levels over groups of these sizes, their stages numbered from `first` on.
pub(crate) fn levels_over(
    alloc: Global,
    m: u32,
    first: u32,
    sizes: &[u32],
) -> Result<Stages, NoMemory>
    requires some { 1 ≤ length sizes.now }
    requires room { first + sum sizes.now < 2 ^ 32 }
    ensures levels { IfOk result (λ s. AreLevels m first sizes.now (stages_of s.caps.items s.next.items s.meets.items)) }
    ensures meets { IfOk result (λ s. length s.meets.items ≡ length sizes.now) }
{
    if sizes.len() == 1 {
        return Ok(Stages {
            caps: Vec::new(alloc),
            next: Vec::new(alloc),
            meets: vec![in alloc; first]?,
        });
    }
    let higher = sizes_above(alloc, m, sizes)?;
    let second = first + (total(sizes) - total(&higher));
    let up = levels_over(alloc, m, second, &higher)?;
    let mut stages = level(alloc, m, first, sizes, &up.meets)?;
    stages.caps.extend_from_slice(&up.caps)?;
    stages.next.extend_from_slice(&up.next)?;
    Ok(stages)
}

/// Each party's start: the stage that its group meets.
pub(crate) fn starts(alloc: Global, n: u32, m: u32, meets: &[u32]) -> Result<Vec<u32>, NoMemory>
    requires some { 1 ≤ m }
    requires groups { length meets.now ≡ (n + m - 1) / m }
    requires small { n ≤ PARTY_LIMIT }
    ensures { IfOk result (λ v. (length v.items ≡ n) × ((p : ℕ) → p < n → slice_index v.items p ≡ slice_index meets.now (p / m))) }
{
    let mut start = Vec::new(alloc);
    for party in 0..n {
        start.push(meets[(party / m) as usize])?;
    }
    Ok(start)
}

/// The lists of a net.
#[derive(Drop)]
pub(crate) struct Lists {
    pub(crate) caps: Vec<u32>,
    pub(crate) next: Vec<u32>,
    pub(crate) start: Vec<u32>,
}

/// The lists of the tree.
pub(crate) fn tree_lists(alloc: Global, n: u32, k: u32) -> Result<Lists, NoMemory>
    requires two { 2 ≤ n }
    requires small { n ≤ PARTY_LIMIT }
    requires licences { 1 ≤ k }
    ensures tree { IfOk result (λ t. IsTree n k (sheet n (min k n) t.caps.items t.next.items t.start.items)) }
    ensures stages { IfOk result (λ t. length t.caps.items + min k n ≡ n) }
{
    let m = k.min(n);
    let sizes = bottom_sizes(alloc, n, m)?;
    let stages = levels_over(alloc, m, 0, &sizes)?;
    let start = starts(alloc, n, m, &stages.meets)?;
    Ok(Lists {
        caps: stages.caps,
        next: stages.next,
        start,
    })
}

/// The tree for n parties and k licences. With m the smaller of k and n, the parties form groups of m in order, the
/// last of which may be smaller. Level by level the first group is paired with the second, and so on, until one group
/// is left; a last group without a partner goes up unchanged. A pair with sizes a and b becomes stages of the
/// capacities a+b-1, a+b-2, .., m, each leading to the next, and the group above them has size m. The last stage of a
/// pair leads to the first stage that the group above meets, or to Exit, and a party starts at the first stage that it
/// meets, or at Exit. Stages are numbered level by level from the parties upwards, in a level from the left, in a pair
/// by falling capacity.
///
/// There are n - m stages, and at most m on each party's path in each level. The tree of stages is after Anderson and
/// Moir, Distributed Computing 11, 1997; its pairing and numbering are this project's.
///
/// n is from 2 to 256, and k at least 1. NoMemory where there is no room for its lists, and for no other reason:
/// [`Net::of`] can't refuse it.
pub fn tree(alloc: Global, n: u32, k: u32) -> Result<Net, NoMemory>
    requires two { 2 ≤ n }
    requires small { n ≤ PARTY_LIMIT }
    requires licences { 1 ≤ k }
    ensures { IfOk result (IsTree n k) }
{
    let lists = tree_lists(alloc, n, k)?;
    Ok(Net::of(n, k.min(n), lists.caps, lists.next, lists.start).unwrap())
}
