//! Moments and bounds of the plain book.

use feature_lines::Pool;
use lic_types::{Client, Expiry, Name, Version};
use options_text::read_options;
use policy::{Charge, DeskRules, Glance, Kind, PlainBook, Reply, Request};
use std::process::Abort;
use std::test::Fail;

/// A request and its reply: the moment, the party, the user, what is asked, what is answered.
#[derive(Drop)]
struct Row(u64, u32, &'static [u8], Kind, Reply);

const CHECKOUT: Kind = Kind::Checkout;

const CHECKIN: Kind = Kind::Checkin;

const OPEN: Reply = Reply::Granted(Charge::Open);

/// The client of a user.
fn client(user: &[u8]) -> Result<Client, Fail> {
    let name = Name::read(b"n")?;
    Ok(Client {
        user: Name::read(user)?,
        host: name,
        display: name,
        project: name,
    })
}

/// The pool of `FEATURE edit acme 2.0 permanent count`.
fn pool(count: u32) -> Result<Pool, Fail> {
    Ok(Pool {
        name: Name::read(b"edit")?,
        version: Version { key: 2_000_000_000 },
        version_text: Name::read(b"2.0")?,
        vendor: Name::read(b"acme")?,
        expiry: Expiry::Never,
        count,
        line: 1,
    })
}

/// One step of the book, for the client of a user.
fn asks(
    rt: &impl Abort,
    book: &mut PlainBook,
    at: u64,
    party: u32,
    user: &[u8],
    kind: Kind,
) -> Result<(Reply, u64), Fail> {
    let request = Request {
        party,
        client: client(user)?,
        kind,
    };
    assert!(rt; request.party < book.parties());
    assert!(rt; book.has_set(&request.kind));
    Ok(book.step(&request, at))
}

/// A book of two parties, of the pool of so many licences, where seats linger for a minute.
fn new_book(rt: &impl AllocGlobal, count: u32) -> Result<PlainBook, Fail> {
    let options = read_options(rt.alloc(), b"LINGER edit 60\n")?;
    let rules = DeskRules::of(rt.alloc(), &options, &pool(count)?)?;
    Ok(PlainBook::make(rt.alloc(), rules, 2)?)
}

/// Plays the rows on the book, one after another, and sees that each of them uses this moment.
fn plays(rt: &impl Abort, book: &mut PlainBook, rows: &[Row], moment: u64) -> Result<(), Fail> {
    for row in rows {
        let (reply, used) = asks(rt, book, row.0, row.1, row.2, row.3)?;
        assert_eq!(rt; reply, row.4);
        assert_eq!(rt; used, moment);
    }
    Ok(())
}

#[test]
fn moments_never_go_back_and_end_below_2_to_40(rt: HostRuntime) -> Result<(), Fail> {
    const BACK: &[Row] = &[
        Row(100, 0, b"ann", CHECKOUT, OPEN),
        Row(50, 0, b"ann", CHECKIN, Reply::Lingering(160)),
        Row(10, 1, b"bob", Kind::Look, Reply::NotHeld),
        Row(10, 1, b"bob", CHECKOUT, Reply::NoSeat(1, 1)),
    ];
    const LAST: &[Row] = &[
        Row(u64::MAX, 0, b"ann", CHECKOUT, OPEN),
        Row(0, 0, b"ann", CHECKIN, Reply::Lingering(1_099_511_627_835)),
    ];
    plays(&rt, &mut new_book(&rt, 1)?, BACK, 100)?;
    plays(&rt, &mut new_book(&rt, 1)?, LAST, 1_099_511_627_775)
}

/// One of sixteen letters.
fn letter(number: u32) -> u8 {
    b'a' + (number % 16) as u8
}

#[test]
fn at_most_4096_entries_linger(rt: HostRuntime) -> Result<(), Fail> {
    const ROWS: &[Row] = &[
        Row(100, 0, b"zoe", CHECKOUT, OPEN),
        Row(100, 1, b"zed", Kind::Queue, Reply::Queued(1)),
    ];
    const SHOWN: Glance = Glance {
        front: 8_194,
        held: 1,
        lingering: 4_096,
        taken: 4_097,
        free: 4_097,
        queued: 1,
    };
    const LAST: &[Row] = &[Row(100, 0, b"zoe", CHECKIN, Reply::Returned)];
    let mut book = new_book(&rt, 4_097)?;
    for number in 0..4_096 {
        let user = [letter(number / 256), letter(number / 16), letter(number)];
        asks(&rt, &mut book, 100, 0, &user, CHECKOUT)?;
        let (reply, _) = asks(&rt, &mut book, 100, 0, &user, CHECKIN)?;
        assert_eq!(&rt; reply, Reply::Lingering(160));
    }
    plays(&rt, &mut book, ROWS, 100)?;
    assert_eq!(&rt; book.glance(8_194), SHOWN);
    plays(&rt, &mut book, LAST, 100)
}
