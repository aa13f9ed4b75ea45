ghost use Rattle.std.specs.Prelude.{◌≡◌};

use lic_types::{Client, Name};
use linger_table::LingerTable;
use options_machine::{Charge, Lingerer};
use std::process::Abort;
use std::test::Fail;

fn client(user: u8) -> Result<Client, Fail> {
    Ok(Client {
        user: Name::read(&[user])?,
        host: Name::read(b"keel")?,
        display: Name::read(b":1")?,
        project: Name::read(b"ferry")?,
    })
}

/// A seat of the user of this letter.
fn entry(user: u8, until: u64) -> Result<Lingerer, Fail> {
    Ok(Lingerer {
        client: client(user)?,
        charge: Charge::Open,
        until,
    })
}

/// What is done, with users by their letters and entries by the moment until which they wait.
#[derive(Clone, Copy)]
enum Call {
    Push(u8, u64),
    Take(u8),
    First(u8, Option<u64>),
    Go(u64, Option<u64>),
}

fn until(found: Option<Lingerer>) -> Option<u64> {
    found.map(|entry| entry.until)
}

fn make_call(rt: &impl Abort, table: &mut LingerTable, call: Call) -> Result<(), Fail>
    requires { table.old.room ≡ 2 }
    ensures { table.new.room ≡ 2 }
{
    match call {
        Call::Push(user, until) => {
            let entry = entry(user, until)?;
            assert!(rt; table.len() < 2);
            table.push(&entry);
        }
        Call::Take(user) => table.take(&client(user)?),
        Call::First(user, wanted) => assert_eq!(rt; until(table.first(&client(user)?)), wanted),
        Call::Go(now, wanted) => assert_eq!(rt; until(table.let_one_go(now)), wanted),
    }
    Ok(())
}

/// There is room for two, and so there are four slots: the fifth that comes finds none left.
#[test]
fn more_come_than_there_are_slots(rt: HostRuntime) -> Result<(), Fail> {
    const ROWS: &[(Call, Option<u64>, Option<u64>)] = &[
        (Call::Push(b'a', 10), Some(10), None),
        (Call::Push(b'a', 20), Some(10), Some(20)),
        // Of equal clients the first to come goes first.
        (Call::First(b'a', Some(10)), Some(10), Some(20)),
        (Call::Take(b'a'), Some(20), None),
        (Call::Push(b'b', 5), Some(20), Some(5)),
        (Call::Go(4, None), Some(20), Some(5)),
        (Call::Go(5, Some(5)), Some(20), None),
        (Call::Push(b'a', 7), Some(20), Some(7)),
        (Call::Take(b'a'), Some(7), None),
        (Call::Push(b'c', 9), Some(7), Some(9)),
        (Call::First(b'd', None), Some(7), Some(9)),
        (Call::Go(8, Some(7)), Some(9), None),
    ];
    let mut table = LingerTable::make(rt.alloc(), 2)?;
    for &(call, first, second) in ROWS {
        make_call(&rt, &mut table, call)?;
        assert_eq!(rt; until(table.get(0)), first);
        assert_eq!(rt; until(table.get(1)), second);
    }
    Ok(())
}

#[test]
fn charges_and_gaps(rt: HostRuntime) -> Result<(), Fail> {
    let mut table = LingerTable::make(rt.alloc(), 2)?;
    let first = entry(b'a', 20)?;
    let second = entry(b'b', 10)?;
    table.push(&first);
    table.push(&second);
    table.set_charge(1, Charge::Reserve(7));
    table.take(&first.client);
    table.compact();
    let charged = Lingerer {
        charge: Charge::Reserve(7),
        ..second
    };
    assert_eq!(rt; table.get(0), Some(charged));
    Ok(())
}
