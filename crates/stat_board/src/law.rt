//! The rule sets of a board, which proofs speak of and nothing keeps when the program runs.
ghost use Rattle.std.specs.Prelude.{◌≡◌, ◌<◌, ◌∷◌, [], length};

use logbook::{Opening, Rule, Seen, Start};
use std::marker::{Model, PhantomData};

/// Tells which rule sets a value keeps, as a book keeps those of its desk. A type with no values implements it for the
/// type of the book.
pub trait Ruling<X> {
    ghost use Rattle.std.specs.Prelude.{List};
    ghost use Rattle.options_machine.specs.Rules.{Rules};

    /// The rule sets, in the order of their numbers.
    ghost sets: { X → List Rules };
}

/// Rule sets, as the type of a law book's one entry. No value of it is made.
pub(crate) struct RuleSets;

impl Model for RuleSets {
    ghost use Rattle.std.specs.Prelude.{List, []};
    ghost use Rattle.options_machine.specs.Rules.{Rules};

    ghost Value = { List Rules };

    ghost view = { λ _. [] };
}

/// The rule of a book that opens with one entry, has no words and never changes.
pub(crate) struct Still;

impl Rule<RuleSets, u64> for Still {
    ghost use Rattle.std.specs.Prelude.{[]};
    ghost use base.Fml.{ftrue};

    ghost holds = { λ _ _. Unit {0} };

    ghost first = { [] };

    ghost hinted = { λ _ _. Unit {0} };

    ghost shows = { λ _. [] };

    ghost keeps = { λ _ _. ftrue };

    ghost moves = { λ _ _ _ _. Unit {0} };
}

/// The book opens with the rule sets of a value.
pub(crate) struct About<M> {
    of: PhantomData<M>,
}

impl<X, M: Ruling<X>> Opening<X, RuleSets> for About<M> {
    ghost use Rattle.std.specs.Prelude.{◌∷◌, []};

    ghost log = { λ _ x. M.sets x ∷ [] };
}

/// The rule sets of a board: what its law book opened with. It can be copied, and takes no bytes.
///
/// Contracts see it as the list of the rule sets.
#[derive(Drop)]
pub(crate) struct Law {
    seen: Seen<RuleSets, u64, Still>,
    ghost some: { 0 < length seen.log },
}

impl Model for Law {
    ghost use Rattle.std.specs.Prelude.{List};
    ghost use Rattle.options_machine.specs.Rules.{Rules};
    ghost use Rattle.stat_board.specs.Fronts.{the_first};

    ghost Value = { List Rules };

    ghost view = { λ l. the_first l.seen.log l.some };
}

impl Law {
    /// The rule sets of a value.
    pub fn of<X, M: Ruling<X>>(about: &X) -> Law
        ensures { result ≡ M.sets about.now }
    {
        let (seen, _no_words) = Seen::open_row::<X, About<M>>(about, Start::alone(), 0);
        Law { seen }
    }

    /// A copy.
    pub fn copy(&self) -> Law
        ensures { result ≡ self.now }
    {
        Law {
            seen: self.seen.again(),
        }
    }
}
