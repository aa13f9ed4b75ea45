//! Where a daemon listens, and what it gives each of its workers.
ghost use Rattle.std.specs.Prelude.{◌≡◌, ◌+◌, ◌<◌, ℕ, List, Option, [], ◌∷◌, ◌++◌, IfOk, IfSome, OnOk, OnErr, nat_lt, nat_le};
ghost use Rattle.session_outside.specs.Talk.{Counted, Event, Follows, HasRisen};
ghost use Rattle.daemon_outside.specs.Doors.{most_fails};
ghost use Rattle.daemon_outside.specs.Sites.{Kept, IsNew, was_heard};

use crate::door::Door;
use session_outside::{Bell, Clock, Gate};
use thiserror::Error;

/// A call of a site that failed.
#[derive(Clone, Copy, Debug, PartialEq, Eq, Error)]
#[error("site fault")]
pub struct SiteFailed;

/// What one worker needs of the outside.
#[derive(Drop)]
pub struct Post<D, K, B, G> {
    /// Its number, counted from 0 in order of making.
    pub number: u32,
    /// Where its links come in.
    pub door: D,
    /// Its clock.
    pub clock: K,
    /// Its bell.
    pub bell: B,
    /// Its gate.
    pub gate: G,
}

/// Where a daemon listens.
pub trait Site {
    /// Where links come in.
    type Door: Door + Send + Drop;

    /// A clock.
    type Clock: Clock + Send + Drop;

    /// A bell. All bells of a site ring together.
    type Bell: Bell + Send + Drop;

    /// A gate.
    type Gate: Gate + Send + Drop;

    /// The path of the site, where it tells it.
    ghost path: { Self → Option (List ℕ) };

    /// The site stands for this list of what it keeps of the posts given back. One that doesn't tell stands for every
    /// list.
    ghost keeps: { Self → List Kept → Type 0 };

    /// How many posts were made.
    ghost made: { Self → ℕ };

    /// How many posts were made and not taken back.
    ghost posted: { Self → ℕ };

    /// How many calls failed so far. It stands still at the last value of its counter, as the next three do.
    ghost faults: { Self → ℕ };

    /// How many posts were given back whose bell was heard at their door.
    ghost tolls: { Self → ℕ };

    /// How many posts were given back whose bell was rung.
    ghost rings: { Self → ℕ };

    /// How many posts were given back whose door was broken.
    ghost broken: { Self → ℕ };

    /// Listens at a path.
    fn listen(&mut self, at: &str) -> Result<(), SiteFailed>
        ensures at { OnOk result (IfSome (path self.old) (λ p. at.now ≡ p)) }
        ensures failed { OnErr result (HasRisen (faults self.old) (faults self.new)) }
        ensures steady { OnOk result (faults self.new ≡ faults self.old) }
        ensures same { (path self.new ≡ path self.old) × (made self.new ≡ made self.old) × (posted self.new ≡ posted self.old) × (tolls self.new ≡ tolls self.old) × (rings self.new ≡ rings self.old) × (broken self.new ≡ broken self.old) }
        ensures keeps { Follows keeps self.old self.new [] };

    /// Makes a post, at which nothing has come yet.
    fn post(&mut self) -> Result<Post<Self::Door, Self::Clock, Self::Bell, Self::Gate>, SiteFailed>
        ensures number { IfOk result (λ p. p.number ≡ made self.old) }
        ensures new { IfOk result (λ p. IsNew Self.Door.talks Self.Clock.gave Self.Door.faults Self.Door.quiets Self.Door.fails Self.Door.lent Self.Bell.tolls Self.Bell.rings p.door p.clock p.bell) }
        ensures made { OnOk result ((made self.new ≡ made self.old + 1) × (posted self.new ≡ posted self.old + 1)) }
        ensures unmade { OnErr result ((made self.new ≡ made self.old) × (posted self.new ≡ posted self.old)) }
        ensures failed { OnErr result (HasRisen (faults self.old) (faults self.new)) }
        ensures steady { OnOk result (faults self.new ≡ faults self.old) }
        ensures same { (path self.new ≡ path self.old) × (tolls self.new ≡ tolls self.old) × (rings self.new ≡ rings self.old) × (broken self.new ≡ broken self.old) }
        ensures keeps { Follows keeps self.old self.new [] };

    /// Takes a post back, and keeps its door's talks and its clock's moments under its number.
    fn retire(&mut self, post: Post<Self::Door, Self::Clock, Self::Bell, Self::Gate>)
        requires lent { Self.Door.lent post.door ≡ 0 }
        requires posted { 0 < posted self.old }
        ensures posted { posted self.new + 1 ≡ posted self.old }
        ensures keeps { (ks : List Kept) (ts : List (List Event)) (ms : List ℕ) → keeps self.old ks → Self.Door.talks post.door ts → Self.Clock.gave post.clock ms
            → keeps self.new (ks ++ record { number = post.number; talks = ts; moments = ms } ∷ []) }
        ensures same { (path self.new ≡ path self.old) × (made self.new ≡ made self.old) × (faults self.new ≡ faults self.old) }
        ensures tolls { Counted (was_heard (Self.Bell.tolls post.bell) (Self.Door.quiets post.door) (Self.Door.faults post.door)) (tolls self.old) (tolls self.new) }
        ensures rings { Counted (nat_lt 0 (Self.Bell.rings post.bell)) (rings self.old) (rings self.new) }
        ensures broken { Counted (nat_le most_fails (Self.Door.fails post.door)) (broken self.old) (broken self.new) };
}
