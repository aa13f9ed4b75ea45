//! What a turn leads to.
ghost use Rattle.std.specs.Prelude.{◌≡◌};
ghost use Rattle.kex_words.specs.Sorts.{pass_in_next, kind_in_next};
ghost use Rattle.seat_names.specs.Turns.{pass_in_turn, kind_in_turn};

use kex_words::{Entering, Named, Naming, Next};

/// Where a party stands that takes its turns.
#[derive(Drop)]
pub enum Turn {
    /// Among the stages: it has to take another turn.
    Again(Entering),
    /// Through all stages of its path.
    Through(Through),
}

/// The pass of a party that is through the stages, and has no card yet.
#[derive(Drop)]
pub enum Through {
    /// A test of a bit is due.
    Naming(Naming),
    /// The party has its number, and its card is due.
    Named(Named),
}

impl Turn {
    /// Sorts a pass by whether it is through.
    pub(crate) fn of(next: Next) -> Turn
        ensures same { pass_in_turn result ≡ pass_in_next next }
        ensures kind { kind_in_turn result ≡ kind_in_next next }
    {
        match next {
            Next::Entering(entering) => Turn::Again(entering),
            Next::Naming(naming) => Turn::Through(Through::Naming(naming)),
            Next::Named(named) => Turn::Through(Through::Named(named)),
        }
    }
}
