//! What a value behind the lock is.
ghost use Rattle.std.specs.Prelude.{◌≡◌, ℕ, List, [], ◌∷◌, ◌++◌};

use std::sync::Wait;

/// One call in a history. Contracts speak of entries, and no value of this type is made.
pub struct Entry<Q, A> {
    /// What was asked.
    pub request: Q,
    /// The moment that the step used.
    pub used: u64,
    /// What was answered.
    pub answer: A,
}

/// What one step of a value gives.
#[derive(Debug, Drop)]
pub struct Stepped<A> {
    /// The answer to the request.
    pub answer: A,
    /// The moment that the step used, which need not be the one that it was handed.
    pub used: u64,
}

/// A value that answers one request after another, and stands for the list of entries that came of it.
///
/// The list is not stored. A step's clauses speak of each list that the value stood for before, so a value needs to
/// keep no more than its answers depend on.
pub trait Kept {
    /// What can be asked.
    type Request;

    /// What is answered.
    type Answer;

    /// Plain data that no step changes.
    type Law;

    ghost use Rattle.turn_lock.specs.declared.kept.Entry.{Entry};
    ghost use Rattle.turn_lock.specs.Entries.{entry};

    /// The law of the value.
    ghost law: { Self → Self.Law };

    /// Which requests the value can be asked under a law.
    ghost fits: { Self.Law → Self.Request → Type 0 };

    /// The number of the party that asks.
    ghost party: { Self.Request → ℕ };

    /// Which lists of entries are runs of a law.
    ghost run: { Self.Law → List (Entry Self.Request Self.Answer) → Type 0 };

    /// The moment that a step uses, where the value stands for the list and the step is handed a moment.
    ghost used: { Self.Law → List (Entry Self.Request Self.Answer) → ℕ → ℕ };

    /// The value stands for the list.
    ghost stands: { Self → List (Entry Self.Request Self.Answer) → Type 0 };

    /// Answers one request, and may wait.
    ///
    /// `moment` is in whatever unit the value's `used` counts. Whichever run the value stood for before, it now stands
    /// for that list with this step's entry last, and that longer list is a run again.
    fn step<R: Wait>(
        &mut self,
        rt: &R,
        request: &Self::Request,
        moment: u64,
    ) -> Stepped<Self::Answer>
        requires { fits (law self.old) request.now }
        ensures law { law self.new ≡ law self.old }
        ensures stands { (h : List (Entry Self.Request Self.Answer)) → stands self.old h → run (law self.old) h
            → stands self.new (h ++ entry request.now result.used result.answer ∷ []) }
        ensures runs { (h : List (Entry Self.Request Self.Answer)) → stands self.old h → run (law self.old) h
            → run (law self.old) (h ++ entry request.now result.used result.answer ∷ []) }
        ensures moment { (h : List (Entry Self.Request Self.Answer)) → stands self.old h → run (law self.old) h
            → result.used ≡ used (law self.old) h moment };
}
