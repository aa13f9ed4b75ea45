//! Threads that enter and leave at the same time.
ghost use Rattle.std.specs.Prelude.{◌≡◌, All, IfOk, vec_len};

use kex_net::chain;
use kex_words::{Card, Out};
use seat_names::Seats;
use std::alloc::AllocError;
use std::sync::Wait;
use std::sync::atomic::{AtomicU64, Ordering};
use std::test::Fail;
use std::thread::{Threads, map_vec};

const ROUNDS: u32 = 2000;

/// Who marked each seat as held, and how often a mark was not as its holder left it.
#[derive(Drop)]
struct Marks {
    holders: [AtomicU64; 3],
    clashes: AtomicU64,
}

impl Marks {
    /// Writes into the seat's mark, which has to be `old`.
    fn change(&self, seat: u32, old: u64, new: u64) {
        let found = self
            .holders
            .get(seat as usize)
            .map(|mark| mark.swap(new, Ordering::SeqCst));
        if found != Some(old) {
            self.clashes.fetch_add(1, Ordering::SeqCst);
        }
    }
}

/// Enters and leaves so often, and marks each seat while it is held.
fn come_and_go<R: Wait>(rt: &R, seats: &Seats, marks: &Marks, mut out: Out) -> Out
    requires { out.table ≡ seats.now }
    ensures { result.table ≡ seats.now }
{
    let name = u64::from(out.number()) + 1;
    for _round in 0..ROUNDS {
        let hold = seats.enter(rt, out);
        marks.change(hold.seat(), 0, name);
        marks.change(hold.seat(), name, 0);
        out = seats.leave(hold);
    }
    out
}

/// Each party's thread comes and goes.
fn come_and_go_all<R: Threads + Wait + Sync>(
    rt: &R,
    seats: &Seats,
    marks: &Marks,
    passes: Vec<Out>,
) -> Result<Vec<Out>, AllocError>
    requires { All (λ p. p.table ≡ seats.now) passes.items }
    ensures count { IfOk result (λ v. vec_len v ≡ vec_len passes) }
    ensures own { IfOk result (λ v. All (λ p. p.table ≡ seats.now) v.items) }
{
    let coming = |out: Out| -> Out
        requires { out.table ≡ seats.now }
        ensures { result.table ≡ seats.entry.now }
    { come_and_go(rt, seats, marks, out) };
    map_vec(rt, passes, &coming)
}

fn total_uses(cards: &[Card]) -> u64 {
    cards
        .iter()
        .fold(0u64, |total, card| total.wrapping_add(card.uses))
}

#[test]
fn no_two_threads_hold_one_seat(rt: HostRuntime) -> Result<(), Fail> {
    let alloc = rt.alloc();
    let (seats, passes) = Seats::make(alloc, chain(alloc, 8, 3)?)?;
    let marks = Marks {
        holders: [AtomicU64::new(0), AtomicU64::new(0), AtomicU64::new(0)],
        clashes: AtomicU64::new(0),
    };
    let passes = come_and_go_all(&rt, &seats, &marks, passes)?;
    assert_eq!(rt; marks.clashes.load(Ordering::SeqCst), 0);
    let cards = seats.close(passes);
    assert_eq!(rt; total_uses(&cards), 16_000);
    Ok(())
}
