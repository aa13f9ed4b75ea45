use lic_types::{Client, Name};
use options_machine::{Charge, Holder};
use seat_rows::SeatRows;
use std::process::Abort;
use std::test::Fail;

/// A call of the rows, and the answer that it is to give.
#[derive(Clone, Copy)]
enum Call {
    // The party, and the moment at which it was heard.
    Put(u32, u64),
    Take(u32),
    Tell(u32, u64),
    SetCharge(u32, Charge),
    // The beat of the party's seat, whether it was told of it, and its charge.
    Get(u32, Option<(u64, bool, Charge)>),
    // The party whose seat goes.
    LetOneGo(u64, Option<u32>),
    Len(u32),
}

fn client() -> Result<Client, Fail> {
    Ok(Client {
        user: Name::read(b"quin")?,
        host: Name::read(b"slip")?,
        display: Name::read(b":1")?,
        project: Name::read(b"ferry")?,
    })
}

fn put(rt: &impl Abort, seats: &mut SeatRows, client: &Client, party: u32, beat: u64) {
    assert!(rt; party < seats.parties());
    assert!(rt; seats.get(party).is_none());
    seats.put(party, client, Charge::Open, beat, false);
}

fn answer(rt: &impl Abort, seats: &mut SeatRows, client: &Client, call: Call) {
    match call {
        Call::Put(party, beat) => put(rt, seats, client, party, beat),
        Call::Take(party) => {
            assert!(rt; party < seats.parties());
            seats.take(party);
        }
        Call::Tell(party, now) => {
            assert!(rt; party < seats.parties());
            seats.tell(party, now);
        }
        Call::SetCharge(party, charge) => {
            assert!(rt; party < seats.parties());
            seats.set_charge(party, charge);
        }
        Call::Get(party, seat) => {
            assert!(rt; party < seats.parties());
            let wanted = seat.map(|(beat, told, charge)| Holder {
                party,
                client: *client,
                charge,
                beat,
                told,
            });
            assert_eq!(rt; seats.get(party).copied(), wanted);
        }
        Call::LetOneGo(over, party) => {
            assert_eq!(rt; seats.let_one_go(over).map(|h| h.party), party);
        }
        Call::Len(len) => {
            assert_eq!(rt; seats.len(), len);
            assert_eq!(rt; seats.is_empty(), len == 0);
        }
    }
}

/// Makes the calls of the rows of so many parties, one after another.
fn new_answers(rt: &(impl Abort + AllocGlobal), parties: u32, calls: &[Call]) -> Result<(), Fail> {
    assert!(rt; parties <= 256);
    let mut seats = SeatRows::make(rt.alloc(), parties)?;
    let client = client()?;
    for call in calls {
        answer(rt, &mut seats, &client, *call);
    }
    Ok(())
}

#[test]
fn seats_come_change_and_go(rt: HostRuntime) -> Result<(), Fail> {
    const CALLS: &[Call] = &[
        Call::Len(0),
        Call::Put(2, 50),
        Call::Put(0, 40),
        Call::Len(2),
        Call::Get(0, Some((40, false, Charge::Open))),
        // A party that is told is heard, and keeps its charge.
        Call::Tell(0, 60),
        Call::Get(0, Some((60, true, Charge::Open))),
        // A charge is all that changes.
        Call::SetCharge(0, Charge::Reserve(7)),
        Call::Get(0, Some((60, true, Charge::Reserve(7)))),
        Call::Get(2, Some((50, false, Charge::Open))),
        // What a party without a seat is told changes nothing.
        Call::Tell(1, 60),
        Call::SetCharge(1, Charge::Open),
        Call::Get(1, None),
        Call::Take(2),
        Call::Take(2),
        Call::Get(2, None),
        Call::Len(1),
    ];
    new_answers(&rt, 3, CALLS)
}

#[test]
fn the_silent_go(rt: HostRuntime) -> Result<(), Fail> {
    const CALLS: &[Call] = &[
        Call::LetOneGo(u64::MAX, None),
        Call::Put(0, 30),
        Call::Put(255, 10),
        Call::Put(1, 30),
        // At the very second of its beat a party was not heard after it.
        Call::LetOneGo(9, None),
        Call::LetOneGo(10, Some(255)),
        Call::Get(255, None),
        Call::LetOneGo(29, None),
        // Who is heard stays.
        Call::Tell(0, 31),
        Call::LetOneGo(30, Some(1)),
        Call::LetOneGo(30, None),
        Call::Len(1),
        // A party that is gone may come again, and may be heard at the last moment that there is.
        Call::Put(1, u64::MAX),
        Call::LetOneGo(31, Some(0)),
        Call::LetOneGo(u64::MAX - 1, None),
        Call::LetOneGo(u64::MAX, Some(1)),
        Call::Len(0),
    ];
    new_answers(&rt, 256, CALLS)
}
