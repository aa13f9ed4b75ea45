//! What the others do when one session stops between two calls at the seats of a desk, with a fast gate before them and
//! without.
ghost use Rattle.std.specs.Prelude.{◌≡◌, All, Some};
ghost use Rattle.desk_seats.specs.Turns.{pass_in_turn};

use crate::stops::{ROUNDS, STEP_LIMIT, Stops};
use anyhow::{Result, ensure};
use desk_seats::{DeskSeats, SeatEntering, SeatHold, SeatOut, SeatThrough, SeatTurn};
use kex_core::NoMemory;
use kex_net::{chain, tree};
use std::alloc::Global;
use std::marker::Model;
use std::mem;

/// The seats at which sessions stop.
#[derive(Clone, Copy)]
pub(crate) enum SeatsOf {
    /// Those of the chain for three parties and two licences.
    Chain,
    /// Those of the tree for five parties and two licences.
    Tree,
    /// Those behind a fast gate, for five sessions and one licence.
    Gate,
}

impl SeatsOf {
    fn make(self, alloc: Global) -> Result<Sessions, NoMemory> {
        let (seats, outs, _gathering) = match self {
            SeatsOf::Chain => DeskSeats::make(alloc, chain(alloc, 3, 2)?)?,
            SeatsOf::Tree => DeskSeats::make(alloc, tree(alloc, 5, 2)?)?,
            SeatsOf::Gate => DeskSeats::make_gated(alloc, 5, 1)?,
        };
        Sessions::of(alloc, seats, outs)
    }

    /// How many sessions there are.
    fn sessions(self) -> usize {
        match self {
            SeatsOf::Chain => 3,
            SeatsOf::Tree | SeatsOf::Gate => 5,
        }
    }

    /// How many seats there are.
    fn width(self) -> u32 {
        match self {
            SeatsOf::Chain | SeatsOf::Tree => 2,
            SeatsOf::Gate => 1,
        }
    }

    /// How the seats are called.
    pub(crate) fn name(self) -> &'static str {
        match self {
            SeatsOf::Chain => "seats of chain(3, 2)",
            SeatsOf::Tree => "seats of tree(5, 2)",
            SeatsOf::Gate => "seats behind a gate(5, 1)",
        }
    }
}

/// A session's pass between two calls.
#[derive(Drop)]
enum Sitting {
    Out(SeatOut),
    Entering(SeatEntering),
    Through(SeatThrough),
    Holding(SeatHold),
}

/// A session. Contracts see the seats that it is of, or None while it makes a call.
#[derive(Drop)]
struct Session {
    sitting: Option<Sitting>,
}

impl Model for Session {
    ghost use Rattle.std.specs.Prelude.{Option, Some, None};
    ghost use Rattle.desk_seats.specs.Views.{SeatsView};
    ghost use Rattle.kex_search.specs.declared.calls.Sitting.TheVariants.{Out, Entering, Through, Holding};

    ghost Value = { Option SeatsView };

    ghost view = { λ s. elim s.sitting [ None ↦ None | Some p ↦ Some (elim p [ Out o ↦ o.table | Entering e ↦ e.table | Through t ↦ t.table | Holding h ↦ h.pass.table ]) ] };
}

impl Session {
    fn of(out: SeatOut) -> Session
        ensures { result ≡ Some out.table }
    {
        Session {
            sitting: Some(Sitting::Out(out)),
        }
    }

    /// The seat that it holds.
    fn seat(&self) -> Option<u32> {
        match &self.sitting {
            Some(Sitting::Holding(hold)) => Some(hold.seat()),
            _ => None,
        }
    }

    /// Makes its next call: it begins, takes a turn, gets its seat, or leaves.
    fn call(&mut self, seats: &DeskSeats)
        requires { self.old ≡ Some seats.now }
        ensures { self.new ≡ Some seats.now }
    {
        let session = mem::replace(self, Session { sitting: None });
        *self = session.called(seats);
    }

    fn called(self, seats: &DeskSeats) -> Session
        requires { self ≡ Some seats.now }
        ensures { result ≡ Some seats.now }
    {
        match self.sitting {
            Some(Sitting::Out(out)) => Session::turned(seats.begin(out)),
            Some(Sitting::Entering(entering)) => Session::turned(seats.turn(entering)),
            Some(Sitting::Through(through)) => Session::holding(seats.name(through)),
            Some(Sitting::Holding(hold)) => Session::of(seats.leave(hold)),
            None => unreachable!(),
        }
    }

    fn turned(turn: SeatTurn) -> Session
        ensures { result ≡ Some (pass_in_turn turn).table }
    {
        let sitting = match turn {
            SeatTurn::Again(entering) => Sitting::Entering(entering),
            SeatTurn::Through(through) => Sitting::Through(through),
        };
        Session {
            sitting: Some(sitting),
        }
    }

    fn holding(hold: SeatHold) -> Session
        ensures { result ≡ Some hold.pass.table }
    {
        Session {
            sitting: Some(Sitting::Holding(hold)),
        }
    }
}

/// The seats of a desk and its sessions.
#[derive(Drop)]
struct Sessions {
    seats: DeskSeats,
    sessions: Vec<Session>,
    ghost own: { All (λ s. s ≡ Some seats) sessions.items },
}

impl Sessions {
    fn of(alloc: Global, seats: DeskSeats, outs: Vec<SeatOut>) -> Result<Sessions, NoMemory>
        requires { All (λ o. o.table ≡ seats) outs.items }
    {
        let sessions = outs.into_iter().map(Session::of).collect(alloc)?;
        Ok(Sessions { seats, sessions })
    }

    /// One session's next call. Tells whether it took a seat.
    fn call(&mut self, session: usize) -> bool {
        let Some(session) = self.sessions.get_mut(session) else {
            return false;
        };
        session.call(&self.seats);
        session.seat().is_some()
    }

    /// How many sessions hold a seat. No two may hold the same, and each is below the width.
    fn held(&self, width: u32) -> Result<u64> {
        let mut held = 0u64;
        for (i, session) in self.sessions.iter().enumerate() {
            if let Some(seat) = session.seat() {
                held = held.wrapping_add(1);
                ensure!(seat < width, "seat {seat} is none of {width}");
                let others = self.sessions.iter().take(i);
                ensure!(
                    others.filter(|other| other.seat() == Some(seat)).count() == 0,
                    "two hold seat {seat}"
                );
            }
        }
        Ok(held)
    }
}

/// A run in which one session stops.
#[derive(Drop)]
struct Run {
    at: SeatsOf,
    sessions: Sessions,
    most_held: u64,
}

impl Run {
    /// One session's next call, after which no two may hold one seat. Tells whether it took one.
    fn call(&mut self, session: usize) -> Result<bool> {
        let took = self.sessions.call(session);
        let held = self.sessions.held(self.at.width())?;
        self.most_held = self.most_held.max(held);
        Ok(took)
    }

    /// This session stops after so many calls, and the others go on. Gives how many seats these took.
    fn others(&mut self, stopped: usize, calls: u32) -> Result<u64> {
        for _call in 0..calls {
            self.call(stopped)?;
        }
        let mut taken = 0u64;
        for _round in 0..ROUNDS {
            for session in 0..self.at.sessions() {
                if session != stopped && self.call(session)? {
                    taken = taken.wrapping_add(1);
                }
            }
        }
        Ok(taken)
    }
}

/// Each session stops once after each number of calls, from none.
pub(crate) fn stops_at(alloc: Global, at: SeatsOf) -> Result<Stops> {
    let mut stops = Stops::default();
    for stopped in 0..at.sessions() {
        for calls in 0..=STEP_LIMIT {
            let mut run = Run {
                at,
                sessions: at.make(alloc)?,
                most_held: 0,
            };
            stops.note(run.others(stopped, calls)?);
            stops.most_held = stops.most_held.max(run.most_held);
        }
    }
    Ok(stops)
}
