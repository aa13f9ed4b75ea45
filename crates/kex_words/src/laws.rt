//! The laws of the table's rule.
ghost use Rattle.std.specs.Prelude.{◌≡◌, ℕ, ◌<◌};
ghost use Rattle.kex_core.specs.declared.place.Place.{Place};
ghost use Rattle.kex_core.specs.Shapes.{Sheet, plan};
ghost use Rattle.kex_core.specs.Worlds.{move};
ghost use Rattle.kex_core.specs.Laws.{Kept, Safe};
ghost use Rattle.kex_words.specs.declared.view.View.{View};
ghost use mathlib.Core.Option.{some};
ghost use lib.ListN.{get_elem?};
ghost use Rattle.kex_words.specs.Laws.{state_after, uses_after, IsDue, Holds};
ghost use Rattle.kex_words.specs.Moves.{Moved, left_by};
ghost use Rattle.kex_words.specs.Passes.{Pass, due_at};
ghost use Rattle.pass_roles.specs.Roles.{number_of};
ghost use Rattle.kex_words.specs.Rule.{IsReadOff};
ghost use Rattle.kex_words.specs.Steps.{TableState, holding_seat};

/// Each access is one move of the machine: where a table's state meets the rule, so does the state after a party's due
/// access, and the world that is read off is the one after the party's move.
pub fn accesses_are_moves()
    ensures { (s : TableState) (id : ℕ) (v : View) (d : Place) (r : IsReadOff v.net s) → IsDue s id v d → (next : IsReadOff v.net (state_after s id v d)) × (next.world ≡ move (plan v.net) r.world (number_of v.role)) }
{}

/// Each step call is one move of the machine: the state that its access left meets the rule again, the world that is
/// read off it is the one after the party's move, and the seat has the pass that the call gave.
pub fn calls_are_moves()
    ensures { (p q : Pass) (m : Moved p q) → (next : IsReadOff p.table.net (left_by p q m)) × (next.world ≡ move (plan p.table.net) m.ruled.world p.number)
        × (get_elem? (left_by p q m).views m.seat ≡ some (holding_seat q (uses_after (due_at p) m.state.views))) }
{}

/// What is read off a table is safe, at each moment. So at most as many seats as there are numbers hold a card, and two
/// of them hold different ones, which are below the width.
pub fn tables_are_safe()
    ensures kept { (net : Sheet) (s : TableState) (r : IsReadOff net s) → Kept (plan net) r.world }
    ensures safe { (net : Sheet) (s : TableState) (r : IsReadOff net s) → Safe (plan net) r.world }
    ensures low { (net : Sheet) (s : TableState) (id : ℕ) (v : View) (card : ℕ) → IsReadOff net s → Holds s id v card → card < net.width }
    ensures apart { (net : Sheet) (s : TableState) (i j : ℕ) (v w : View) (card : ℕ) → IsReadOff net s → Holds s i v card → Holds s j w card → i ≡ j }
{}
