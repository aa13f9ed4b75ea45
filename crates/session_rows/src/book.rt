//! A plain book behind a lock.
use options_machine::{Entry, Reply, Request};
use policy::{DeskRules, PlainBook};
use std::collections::LinkedList;
use std::sync::Wait;
use turn_lock::{Kept, Stepped};

/// What no step of a book changes. No value of this type is made.
pub struct BookLaw {
    /// The rule sets.
    pub sets: LinkedList<DeskRules>,
    /// For how many parties the book is.
    pub parties: u32,
}

/// A plain book, which also keeps its entries as far as there is room for them.
#[derive(Drop)]
pub struct LoggedBook {
    /// The book.
    pub book: PlainBook,
    /// Its entries. Contracts don't speak of them.
    pub log: Vec<Entry>,
}

/// Keeps an entry where there is room.
fn keep(log: &mut Vec<Entry>, entry: Entry) {
    if log.len() < log.capacity() {
        log.push_reserved(entry);
    }
}

impl Kept for LoggedBook {
    type Request = Request;

    type Answer = Reply;

    type Law = BookLaw;

    ghost use Rattle.session_rows.specs.Books.{Fits, Runs, Stands, law_of, used_at};

    ghost law = { law_of };

    ghost fits = { Fits };

    ghost party = { λ q. q.party };

    ghost run = { Runs };

    ghost used = { used_at };

    ghost stands = { Stands };

    fn step<R: Wait>(&mut self, _rt: &R, request: &Request, moment: u64) -> Stepped<Reply> {
        let (answer, used) = self.book.step(request, moment);
        keep(
            &mut self.log,
            Entry {
                request: *request,
                moment: used,
                reply: answer,
            },
        );
        Stepped { answer, used }
    }
}
