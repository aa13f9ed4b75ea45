//! What an answer changes.
use crate::reply::Charge;
use crate::rows::Lingerer;

/// What an answer changes of a party and its client. Each comes with a reply, and at most one with each answer.
#[derive(Clone, Copy, Debug, PartialEq, Eq)]
pub enum Effect {
    /// Nothing.
    Nothing,
    /// The party is told of its seat, or heard.
    Tell,
    /// Its seat is free at once.
    Release,
    /// Its seat lingers as this entry.
    Linger(Lingerer),
    /// It waits no more.
    Unqueue,
    /// It gets a seat with this charge.
    Seat(Charge),
    /// It gets the first seat that lingers for its client, which has this charge.
    Reseat(Charge),
    /// It waits, at the end of the queue.
    Join,
}
