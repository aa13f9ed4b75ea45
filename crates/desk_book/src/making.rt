//! How a desk's book is made, with its lock and the passes of its parties.
ghost use Rattle.std.specs.Prelude.{◌≡◌, ◌≤◌, [], All, EachIndex, IfOk, Some, slice_get, vec_len, vec_capacity};
ghost use Rattle.lic_types.specs.declared.limits.TheConstants.{PARTY_LIMIT};
ghost use Rattle.options_machine.specs.Law.{AreSets};
ghost use Rattle.options_machine.specs.State.{in_force, opening};
ghost use Rattle.turn_lock.specs.Passes.{unused_lock_pass};
ghost use Rattle.desk_book.specs.Askers.{newcomer};
ghost use Rattle.desk_book.specs.Standing.{Runs, Stands, law_of};

use crate::book::DeskBook;
use crate::end::{Keeper, discard};
use crate::pass::BookPass;
use audit_log::{LogTake, log_queue};
use no_memory::NoMemory;
use policy::DeskRules;
use seat_book::Book;
use stat_board::{Board, BoardPass, Ruling};
use std::alloc::Global;
use std::sync::Wait;
use turn_lock::{TurnPass, Turns};

/// Tells the rule sets of a book. It has no values.
pub enum SetsOf {}

impl Ruling<Book> for SetsOf {
    ghost sets = { λ b. b.sets };
}

/// A book behind its lock, in the opening state, with one to four rule sets of one count; the passes of the parties 0
/// to `n` - 1, in order, 1 to 256; and the end of its log at which entries come out.
///
/// It takes all memory that book, lock, log and board ever need. `NoMemory` comes where there is not so much. It waits
/// for nobody, since the board has no reader yet.
pub fn lock_book<R: Wait>(
    rt: &R,
    alloc: Global,
    sets: Vec<DeskRules>,
    n: u32,
) -> Result<(Turns<DeskBook>, Vec<BookPass>, Keeper), NoMemory>
    requires sets { AreSets sets.items (in_force sets.items opening).count }
    requires parties { (1 ≤ n) × (n ≤ PARTY_LIMIT) }
    ensures lock { IfOk result (λ made. (made.0.id.parties ≡ n) × (made.0.law.parties ≡ n) × (made.0.law.sets ≡ sets.items)) }
    ensures passes { IfOk result (λ made. (vec_len made.1 ≡ n) × EachIndex made.1.items (λ i. slice_get made.1.items i ≡ Some (newcomer made.0 i))) }
    ensures keeper { IfOk result (λ made. (made.2.queue ≡ made.0.law.queue) × (made.2.taken ≡ []) × (n ≤ made.2.room)) }
{
    let mut passes = Vec::with_capacity(alloc, n as usize)?;
    let (book, take, mut views) = open_book(rt, alloc, sets, n)?;
    match Turns::make(alloc, book, n) {
        Ok((turns, mut tickets)) => {
            pair(&turns, &mut tickets, &mut views, &mut passes);
            Ok((turns, passes, Keeper { take, tickets }))
        }
        Err((_, book)) => {
            discard(rt, book);
            Err(NoMemory)
        }
    }
}

/// A book in the opening state, the end of its log at which entries come out, and what each party reads its board with.
fn open_book<R: Wait>(
    rt: &R,
    alloc: Global,
    sets: Vec<DeskRules>,
    n: u32,
) -> Result<(DeskBook, LogTake, Vec<BoardPass>), NoMemory>
    requires sets { AreSets sets.items (in_force sets.items opening).count }
    requires parties { (1 ≤ n) × (n ≤ PARTY_LIMIT) }
    ensures law { IfOk result (λ made. ((law_of made.0).sets ≡ sets.items) × ((law_of made.0).parties ≡ n)) }
    ensures opens { IfOk result (λ made. Stands made.0 [] × Runs (law_of made.0) []) }
    ensures log { IfOk result (λ made. (made.1.queue ≡ (law_of made.0).queue) × (made.1.taken ≡ [])) }
    ensures board { IfOk result (λ made. (vec_len made.2 ≡ n) × All (λ p. p ≡ (law_of made.0).board) made.2.items) }
{
    let book = Book::make_many(alloc, sets, n)?;
    let (log, take) = log_queue(alloc)?;
    let glance = book.glance(0);
    let (board, views) = Board::make::<R, Book, SetsOf>(rt, alloc, &book, glance, n)?;
    let made = DeskBook {
        book,
        log,
        cut: false,
        board,
    };
    Ok((made, take, views))
}

/// Gives each pass of the lock, in order, its view of the board.
fn pair(
    turns: &Turns<DeskBook>,
    tickets: &mut Vec<TurnPass<DeskBook>>,
    views: &mut Vec<BoardPass>,
    passes: &mut Vec<BookPass>,
)
    requires whole { turns.now.law.parties ≡ turns.now.id.parties }
    requires opens { Runs turns.now.law [] }
    requires long { vec_len views.old ≡ vec_len tickets.old }
    requires tickets { EachIndex tickets.old.items (λ i. slice_get tickets.old.items i ≡ Some (unused_lock_pass turns.now i)) }
    requires views { All (λ v. v ≡ turns.now.law.board) views.old.items }
    requires room { (passes.old.items ≡ []) × (vec_len tickets.old ≤ vec_capacity passes.old) }
    ensures empty { (tickets.new.items ≡ []) × (vec_capacity tickets.new ≡ vec_capacity tickets.old) }
    ensures passes { (vec_len passes.new ≡ vec_len tickets.old) × EachIndex passes.new.items (λ i. slice_get passes.new.items i ≡ Some (newcomer turns.now i)) }
{
    while let Some(ticket) = tickets.pop() {
        let Some(view) = views.pop() else {
            unreachable!()
        };
        passes.push_reserved(BookPass::of(ticket, view));
    }
    passes.reverse();
}
