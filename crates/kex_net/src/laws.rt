ghost use Rattle.std.specs.Prelude.{ℕ, List, ◌≡◌, ◌+◌, ◌*◌, ◌<◌, ◌≤◌, length, min};
ghost use Rattle.kex_core.specs.Shapes.{Sheet, plan, IsNet};
ghost use Rattle.kex_core.specs.Worlds.{run, opening, Parties};
ghost use Rattle.kex_core.specs.Costs.{depth, firsts};
ghost use Rattle.kex_core.specs.declared.limits.TheConstants.{PARTY_LIMIT};
ghost use Rattle.kex_net.specs.Trees.{IsTree};
ghost use Rattle.kex_net.specs.Gates.{IsGated};
ghost use Rattle.kex_net.specs.Limits.{limit};

/// The laws of each tree, m being the smaller of k and n. It is a valid net, it has n - m stages, and a party has at
/// most m of them on its path for each level. So after every schedule a party has made, since it was last out and but
/// for reads of spin words, at most 3·m·levels + m accesses up to holding, and 5·m·levels + m + 1 while it leaves.
pub fn trees_are_short()
    ensures valid { (n k : ℕ) (s : Sheet) → 2 ≤ n → n ≤ PARTY_LIMIT → 1 ≤ k → IsTree n k s → IsNet s }
    ensures stages { (n k : ℕ) (s : Sheet) → 2 ≤ n → n ≤ PARTY_LIMIT → 1 ≤ k → IsTree n k s → length s.caps + min k n ≡ n }
    ensures paths { (n k : ℕ) (s : Sheet) (p : ℕ) → 2 ≤ n → n ≤ PARTY_LIMIT → 1 ≤ k → (t : IsTree n k s) → p < n → depth (plan s) p ≤ t.levels * min k n }
    ensures accesses { (n k : ℕ) (s : Sheet) (schedule : List ℕ) (p : ℕ) → 2 ≤ n → n ≤ PARTY_LIMIT → 1 ≤ k → (t : IsTree n k s) → Parties (plan s) schedule → p < n
        → firsts (plan s) p schedule (opening (plan s)) 0 ≤ limit (t.levels * min k n) (min k n) ((run (plan s) schedule (opening (plan s))).place p) }
{}

/// The laws of each net behind a fast gate, m being the smaller of k and n. It is a valid net, it has n stages, and a
/// party of the gate, one from n on, has at most m of them on its path. Each other has at most m for each level of the
/// tree, and m more.
pub fn gates_are_short()
    ensures valid { (n k : ℕ) (s : Sheet) → 2 ≤ n → 1 ≤ k → 2 * min k n < n → n + min k n ≤ PARTY_LIMIT → IsGated n k s → IsNet s }
    ensures stages { (n k : ℕ) (s : Sheet) → 2 ≤ n → 1 ≤ k → 2 * min k n < n → n + min k n ≤ PARTY_LIMIT → IsGated n k s → length s.caps ≡ n }
    ensures of_gate { (n k : ℕ) (s : Sheet) (p : ℕ) → 2 ≤ n → 1 ≤ k → 2 * min k n < n → n + min k n ≤ PARTY_LIMIT → IsGated n k s → n ≤ p → p < n + min k n → depth (plan s) p ≤ min k n }
    ensures others { (n k : ℕ) (s : Sheet) (p : ℕ) → 2 ≤ n → 1 ≤ k → 2 * min k n < n → n + min k n ≤ PARTY_LIMIT → (g : IsGated n k s) → p < n → depth (plan s) p ≤ g.is_tree.levels * min k n + min k n }
{}
