//! Both books of one pool, and which replies came.
use crate::draws::Draws;
use crate::site;
use anyhow::{Result, ensure};
use feature_lines::Pool;
use options_machine::{Reply, Request};
use policy::{DeskRules, PlainBook, are_sets};
use seat_book::Book;
use std::alloc::Global;

/// Both books, of the same rule sets.
#[derive(Drop)]
pub struct Pair {
    plain: PlainBook,
    rows: Book,
}

/// Four rule sets of the pool.
fn sets(alloc: Global, pool: &Pool, draws: &mut Draws) -> Result<Vec<DeskRules>> {
    let mut sets = Vec::new(alloc);
    for _set in 0..4 {
        sets.push(site::rules(alloc, pool, draws)?)?;
    }
    Ok(sets)
}

fn plain_book(alloc: Global, sets: Vec<DeskRules>) -> Result<PlainBook> {
    ensure!(are_sets(&sets), "no sets of a book");
    Ok(PlainBook::make_many(alloc, sets, site::PARTIES)?)
}

fn book_by_rows(alloc: Global, sets: Vec<DeskRules>) -> Result<Book> {
    ensure!(are_sets(&sets), "no sets of a book");
    Ok(Book::make_many(alloc, sets, site::PARTIES)?)
}

/// The reply of the plain book, and the moment that it used.
fn ask_plain(book: &mut PlainBook, request: &Request, moment: u64) -> Result<(Reply, u64)> {
    ensure!(request.party < book.parties(), "a party too high");
    ensure!(book.has_set(&request.kind), "a rule set that isn't there");
    Ok(book.step(request, moment))
}

/// The reply of the book by rows, and the moment that it used.
fn ask_rows(book: &mut Book, request: &Request, moment: u64) -> Result<(Reply, u64)> {
    ensure!(request.party < book.parties(), "a party too high");
    ensure!(book.has_set(&request.kind), "a rule set that isn't there");
    Ok(book.step(request, moment))
}

impl Pair {
    /// Both books of a pool that is drawn.
    pub fn of(alloc: Global, draws: &mut Draws) -> Result<Pair> {
        let pool = site::pool(draws)?;
        let mut same = *draws;
        let plain = plain_book(alloc, sets(alloc, &pool, &mut same)?)?;
        let rows = book_by_rows(alloc, sets(alloc, &pool, draws)?)?;
        Ok(Pair { plain, rows })
    }

    /// Asks both, and gives the reply of both.
    pub fn ask(&mut self, request: &Request, moment: u64) -> Result<Reply> {
        let expected = ask_plain(&mut self.plain, request, moment)?;
        let told = ask_rows(&mut self.rows, request, moment)?;
        ensure!(told == expected, "another reply, or another moment");
        let glance = self.rows.glance(0);
        ensure!(glance == self.plain.glance(0), "other numbers");
        Ok(told.0)
    }
}

/// Which kinds of reply came.
#[derive(Drop)]
pub struct Seen {
    kinds: [bool; 14],
}

impl Seen {
    /// None.
    pub fn nothing() -> Seen {
        Seen { kinds: [false; 14] }
    }

    /// One more reply.
    pub fn note(&mut self, reply: &Reply) {
        let number = match reply {
            Reply::Granted(_) => 0,
            Reply::Retaken(_) => 1,
            Reply::Denied(_) => 2,
            Reply::NoSeat(_, _) => 3,
            Reply::AlreadyHeld => 4,
            Reply::Returned => 5,
            Reply::Lingering(_) => 6,
            Reply::NotHeld => 7,
            Reply::Beaten => 8,
            Reply::Held => 9,
            Reply::Counts { .. } => 10,
            Reply::Queued(_) => 11,
            Reply::Unqueued => 12,
            Reply::Reread(_) => 13,
        };
        self.kinds[number] = true;
    }

    /// Whether each came.
    pub fn is_all(&self) -> bool {
        self.kinds.iter().all(|kind| *kind)
    }
}
