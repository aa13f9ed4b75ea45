//! A Glance, with the knowledge for which list of a board it stands.
ghost use Rattle.std.specs.Prelude.{◌≡◌, ◌⊎◌, ◌++◌, [], ◌∷◌, length, IfSome};
ghost use Rattle.counter.specs.Glances.{glance_of};
ghost use Rattle.stat_board.specs.Counted.{head_of};
ghost use Rattle.stat_board.specs.Fronts.{IsSameBoard, IsLater, longer};
ghost use Rattle.stat_board.specs.Shows.{IsGlanceOf, HasNumbers};

use crate::law::{Law, Ruling};
use crate::list::{Adding, Asking, Growing, Head, Nothing};
use counter::Glance;
use left_right::Absorb;
use logbook::{Offer, Seen, Start, Word};
use options_machine::{Entry, EntryRef};
use std::alloc::AllocError;
use std::marker::Model;

/// A Glance of a board, which can be copied and handed on.
///
/// Contracts see it as a `Front`: of which `board`, under which rule `sets`, and the `list` of entries that the Glance
/// stands for. Of two lists of one board the shorter begins the longer.
#[derive(Drop)]
pub struct BoardNote {
    glance: Glance,
    law: Law,
    seen: Seen<Entry, u64, Growing>,
}

impl Model for BoardNote {
    ghost use Rattle.stat_board.specs.Fronts.{Front};
    ghost use Rattle.stat_board.specs.Shows.{IsGlanceOf};

    ghost Value = { Front };

    ghost view = { λ n. record { board = n.seen.book; sets = n.law; list = n.seen.log } };

    ghost invariant = { λ n. IsGlanceOf n.law n.seen.log n.glance };
}

// What is published is a note, and an operation is the whole next one.
impl Absorb<BoardNote> for BoardNote {
    type State = BoardNote;

    ghost state = { λ n. n };

    ghost applied = { λ _ next. next };

    ghost never_fails = { Unit {0} };

    fn absorb_first(
        &mut self,
        operation: &BoardNote,
        _other: &BoardNote,
    ) -> Result<(), AllocError> {
        *self = operation.copy();
        Ok(())
    }
}

impl BoardNote {
    /// How many entries the Glance stands for.
    pub fn front(&self) -> u64
        ensures { result ≡ length self.now.list }
    {
        self.glance.front
    }

    /// The Glance.
    pub fn glance(&self) -> Glance
        ensures { IsGlanceOf self.now.sets self.now.list result }
    {
        self.glance
    }

    /// A copy. It takes no memory.
    pub fn copy(&self) -> BoardNote
        ensures { result ≡ self.now }
    {
        BoardNote {
            glance: self.glance,
            law: self.law.copy(),
            seen: self.seen.again(),
        }
    }

    /// Becomes the other note of its board where that stands for more entries.
    pub fn hear(&mut self, other: &BoardNote)
        requires { IsSameBoard self.old other.now }
        ensures later { IsLater self.old self.new }
        ensures heard { IsLater other.now self.new }
        ensures one { (self.new ≡ self.old) ⊎ (self.new ≡ other.now) }
    {
        let mut both = self.seen.again();
        both.learn(&other.seen);
        if self.glance.front < other.glance.front {
            *self = other.copy();
        }
    }

    /// The first note of a new board, with the board's word.
    pub(crate) fn open<X, M: Ruling<X>>(about: &X, glance: Glance) -> (Head, BoardNote)
        requires { glance ≡ glance_of (M.sets about.now) [] }
        ensures head { result.0 ≡ head_of result.1.board }
        ensures note { (result.1.sets ≡ M.sets about.now) × (result.1.list ≡ []) }
    {
        let (seen, mut first, _second) = Seen::open(Start::alone(), 0, 0);
        let head = Word::tracked(0, &mut first);
        let note = BoardNote {
            glance,
            law: Law::of::<X, M>(about),
            seen,
        };
        (head, note)
    }

    /// The note after one entry more, with these numbers. There is none where the fronts end, or where the board's word
    /// says that an entry was added since.
    pub(crate) fn next(
        &self,
        head: &Head,
        entry: &EntryRef<'_>,
        glance: Glance,
    ) -> Option<BoardNote>
        requires head { head.now ≡ head_of self.now.board }
        requires numbers { HasNumbers self.now.sets (self.now.list ++ entry.now ∷ []) glance }
        ensures { IfSome result (λ n. n ≡ longer self.now (entry.now)) }
    {
        let front = self.glance.front;
        if front == u64::MAX {
            return None;
        }
        let mut seen = self.seen.again();
        let mut offer: Offer<Entry, u64, Growing, Nothing> = seen.plain::<
            Nothing,
            EntryRef<'_>,
            Asking,
        >(entry);
        let mut pen = seen.no_pen();
        let found = head.compare_exchange::<Adding, Nothing>(
            front,
            front + 1,
            &mut seen,
            &mut offer,
            &mut pen,
        );
        if found != front {
            return None;
        }
        Some(BoardNote {
            glance: Glance {
                front: front + 1,
                ..glance
            },
            law: self.law.copy(),
            seen,
        })
    }
}
