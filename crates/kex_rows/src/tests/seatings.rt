//! Seats of both kinds, which each party enters twice.
ghost use Rattle.std.specs.Prelude.{◌≡◌, [], All, vec_len};
ghost use Rattle.desk_seats.specs.Views.{parties_of};

use desk_seats::{DeskSeats, SeatGathering, SeatHold, SeatOut, SeatTurn};
use kex_net::chain;
use kex_words::Card;
use std::process::Abort;
use std::sync::Wait;
use std::test::Fail;

/// Enters step by step.
fn step_in(rt: &impl Abort, seats: &DeskSeats, out: SeatOut) -> SeatHold
    requires { out.table ≡ seats.now }
    ensures { result.pass.table ≡ seats.now }
{
    let mut turn = seats.begin(out);
    for _step in 0..100 {
        match turn {
            SeatTurn::Through(through) => return seats.name(through),
            SeatTurn::Again(entering) => {
                assert_eq!(rt; entering.seat(), None);
                turn = seats.turn(entering);
            }
        }
    }
    panic!(rt; "a party alone is not through after 100 turns")
}

/// Enters step by step and leaves, and then once more at one go.
fn come_twice<R: Abort + Wait>(rt: &R, seats: &DeskSeats, out: SeatOut) -> SeatOut
    requires { out.table ≡ seats.now }
    ensures { result.table ≡ seats.now }
{
    let number = out.number();
    let hold = step_in(rt, seats, out);
    assert_eq!(rt; (hold.number(), hold.seat()), (number, 0));
    let out = seats.leave(hold);
    let hold = seats.go_on(rt, seats.begin(out));
    assert_eq!(rt; (hold.number(), hold.seat()), (number, 0));
    seats.leave(hold)
}

/// Each party comes twice, and then the seats are closed.
fn all_come<R: Abort + Wait>(
    rt: &R,
    seats: DeskSeats,
    passes: Vec<SeatOut>,
    mut gathering: SeatGathering,
) -> Vec<Card>
    requires count { vec_len passes ≡ parties_of seats }
    requires own { All (λ p. p.table ≡ seats) passes.items }
    requires gathering { (gathering.table ≡ seats) × (gathering.numbers ≡ []) }
    ensures { vec_len result ≡ seats.net.width }
{
    for pass in passes {
        let out = come_twice(rt, &seats, pass);
        gathering = seats.gather(gathering, out);
    }
    seats.close_gathered(gathering)
}

#[test]
fn three_parties_come_twice_with_no_gate(rt: HostRuntime) -> Result<(), Fail> {
    let net = chain(rt.alloc(), 3, 2)?;
    assert_eq!(rt; (net.parties(), net.width()), (3, 2));
    let (seats, passes, gathering) = DeskSeats::make(rt.alloc(), net)?;
    let cards = all_come(&rt, seats, passes, gathering);
    assert_eq!(rt; cards.len(), 2);
    assert_eq!(rt; (cards[0].uses, cards[1].uses), (6, 0));
    Ok(())
}

#[test]
fn five_parties_come_twice_behind_a_gate(rt: HostRuntime) -> Result<(), Fail> {
    let (seats, passes, gathering) = DeskSeats::make_gated(rt.alloc(), 5, 2)?;
    let cards = all_come(&rt, seats, passes, gathering);
    assert_eq!(rt; cards.len(), 2);
    assert_eq!(rt; (cards[0].uses, cards[1].uses), (10, 0));
    Ok(())
}
