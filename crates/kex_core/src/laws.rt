ghost use Rattle.std.specs.Prelude.{ℕ, List, ◌≡◌, ◌⊎◌, ◌<◌, ◌≤◌, true};
ghost use Rattle.kex_core.specs.Nets.{Plan, Valid, on_path, before};
ghost use Rattle.kex_core.specs.Worlds.{Machine, move, run, opening, Parties};
ghost use Rattle.kex_core.specs.Laws.{Kept, Safe};
ghost use Rattle.kex_core.specs.Costs.{firsts, bound};

/// The law of the machine, for every valid net, every number of parties and every order of their steps, with any of
/// them stopped anywhere: the invariant holds and the machine is safe.
///
/// A schedule is a list of parties, from the opening world on. A stopped party is one that it names no more.
pub fn safe_on_every_schedule()
    ensures kept { (net : Plan) (schedule : List ℕ) → Valid net → Parties net schedule → Kept net (run net schedule (opening net)) }
    ensures safe { (net : Plan) (schedule : List ℕ) → Valid net → Parties net schedule → Safe net (run net schedule (opening net)) }
{}

/// The invariant is inductive: it holds at the opening, each move keeps it, and it makes the machine safe.
pub fn moves_keep_the_invariant()
    ensures opening { (net : Plan) → Kept net (opening net) }
    ensures moves { (net : Plan) (w : Machine) (p : ℕ) → Valid net → p < net.parties → Kept net w → Kept net (move net w p) }
    ensures safe { (net : Plan) (w : Machine) → Valid net → Kept net w → Safe net w }
{}

/// The bound on accesses. From Out to Out a party makes, but for reads of spin words, at most 3d + m accesses until it
/// has its number and while it holds it, and at most 5d + m + 1 until it has left: d the stages on its path, m the
/// width.
pub fn accesses_are_bounded()
    ensures { (net : Plan) (schedule : List ℕ) (p : ℕ) → Valid net → Parties net schedule → p < net.parties → firsts net p schedule (opening net) 0 ≤ bound net p ((run net schedule (opening net)).place p) }
{}

/// What a path is, in a valid net: it begins with the party's start, goes from each of its stages to that one's next,
/// and has nothing else. The stage before j is the one on the path that leads there.
pub fn paths_follow_next()
    ensures begins { (net : Plan) (p : ℕ) → Valid net → p < net.parties → on_path net p (net.start p) ≡ true }
    ensures goes_on { (net : Plan) (p j : ℕ) → Valid net → p < net.parties → j < net.stages → on_path net p j ≡ true → on_path net p (net.next j) ≡ true }
    ensures nothing_else { (net : Plan) (p j : ℕ) → Valid net → p < net.parties → j ≤ net.stages → on_path net p j ≡ true → (net.start p ≡ j) ⊎ ((before net p j < j) × (on_path net p (before net p j) ≡ true) × (net.next (before net p j) ≡ j)) }
{}
