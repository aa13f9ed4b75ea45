//! The laws of the gate's rule.
ghost use Rattle.std.specs.Prelude.{◌≡◌, ◌⊎◌, ℕ, ◌+◌, ◌<◌, ◌≤◌, ◌↔◌, slice_index, Some};
ghost use mathlib.Core.Option.{none, some};
ghost use lib.ListN.{get_elem?};
ghost use Rattle.kex_words.specs.Passes.{TableNet, Pass};
ghost use Rattle.pass_roles.specs.Roles.{total};
ghost use Rattle.kex_gate.specs.declared.view.Spot.TheVariants.{Fast, Slow};
ghost use Rattle.kex_gate.specs.declared.view.View.{View};
ghost use Rattle.kex_gate.specs.Passes.{sessions};
ghost use Rattle.kex_gate.specs.Rule.{GateState, IsGate, busy_in, within_in, owns_in};
ghost use Rattle.kex_gate.specs.Laws.{stepped_at, IsSeated};

/// Each step is one of the listing: where a gate's state meets the rule, so does the state after a session's step.
pub fn steps_keep_the_rule()
    ensures { (s : GateState) (id : ℕ) (v : View) (x : ℕ) → IsGate v.seats s → IsSeated s id v → IsGate v.seats (stepped_at s id v x v.spot) }
{}

/// At each moment at most as many sessions are let through as there are seats, at most one owns a number, no pass of
/// the gate is with two of them, and whoever goes the slow way met as many others as there are seats.
pub fn gates_let_few_through()
    ensures few { (t : TableNet) (s : GateState) → IsGate t s → total within_in s.views ≤ t.net.width }
    ensures sole { (t : TableNet) (s : GateState) (i : ℕ) → IsGate t s → i < t.net.width → total (owns_in i) s.views ≤ 1 }
    ensures apart { (t : TableNet) (s : GateState) (i j k : ℕ) (v w : View) → IsGate t s → IsSeated s i v → IsSeated s j w → v.spot ≡ Fast k → w.spot ≡ Fast k → i ≡ j }
    ensures away { (t : TableNet) (s : GateState) (i k : ℕ) (v : View) → IsGate t s → IsSeated s i v → v.spot ≡ Fast k → get_elem? s.homes k ≡ some none }
    ensures crowded { (t : TableNet) (s : GateState) (i : ℕ) (v : View) → IsGate t s → IsSeated s i v → v.spot ≡ Slow → t.net.width ≤ v.met }
{}
