//! Publishings to a board and glances at it.
ghost use Rattle.std.specs.Prelude.{◌≡◌, []};
ghost use Rattle.stat_board.specs.OneSeat.{one_seat, IsIdle};

use anyhow::{Result, bail, ensure};
use lic_types::{Client, Name};
use options_machine::{EntryRef, Kind, Reply, Request};
use stat_board::{Board, BoardPass, Glance, Ruling};
use std::alloc::Global;
use std::sync::Wait;

/// Which call is made in a round.
#[derive(Clone, Copy)]
pub enum Call {
    /// A publishing.
    Publish,
    /// A glance.
    Glance,
}

/// The desk has one seat.
struct OneSeat;

impl Ruling<()> for OneSeat {
    ghost use Rattle.stat_board.specs.OneSeat.{one_seat};

    ghost sets = { λ _. one_seat };
}

const OPENING: Glance = Glance {
    front: 0,
    held: 0,
    lingering: 0,
    taken: 0,
    free: 1,
    queued: 0,
};

/// Publishes that party 0 looks for its seat, and has none.
fn look<R: Wait>(rt: &R, client: &Client, board: &mut Board)
    requires sets { board.old.front.sets ≡ one_seat }
    requires idle { IsIdle board.old.front.list }
    ensures sets { board.new.front.sets ≡ one_seat }
    ensures idle { IsIdle board.new.front.list }
{
    let request = Request {
        party: 0,
        client: *client,
        kind: Kind::Look,
    };
    let looked = EntryRef::of(&request, 0, Reply::NotHeld);
    board.publish(rt, &looked, OPENING);
}

fn publish<R: Wait>(rt: &R, client: &Client, board: &mut Board, rounds: u32)
    requires sets { board.old.front.sets ≡ one_seat }
    requires idle { IsIdle board.old.front.list }
{
    for _round in 0..rounds {
        look(rt, client, board);
    }
}

fn read(pass: &mut BoardPass, rounds: u32) {
    for _round in 0..rounds {
        pass.glance();
    }
}

/// Makes the calls, and gives the last front.
fn run<R: Wait>(
    rt: &R,
    client: &Client,
    mut board: Board,
    mut passes: Vec<BoardPass>,
    call: Call,
    rounds: u32,
) -> u64
    requires sets { board.front.sets ≡ one_seat }
    requires empty { board.front.list ≡ [] }
{
    let mut last = 0;
    if let Some(mut pass) = passes.pop() {
        match call {
            Call::Publish => publish(rt, client, &mut board, rounds),
            Call::Glance => {
                publish(rt, client, &mut board, 1);
                read(&mut pass, rounds);
            }
        }
        last = pass.glance().front;
    }
    board.end(rt);
    last
}

/// The front that is read behind so many calls, with the numbers of passes and of rounds.
pub fn front_of_board<R: Wait>(rt: &R, alloc: Global, call: Call, numbers: &[u32]) -> Result<u64> {
    let &[n, rounds] = numbers else {
        bail!("not two numbers")
    };
    ensure!(1 <= n && n <= 256, "not from 1 to 256 passes");
    let name = Name::read(b"ann")?;
    let client = Client {
        user: name,
        host: name,
        display: name,
        project: name,
    };
    let (board, passes) = Board::make::<R, (), OneSeat>(rt, alloc, &(), OPENING, n)?;
    Ok(run(rt, &client, board, passes, call, rounds))
}
