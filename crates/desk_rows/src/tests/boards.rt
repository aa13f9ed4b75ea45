//! The board of a desk with one seat, in one thread and in two.
ghost use Rattle.std.specs.Prelude.{◌≡◌, ◌≤◌, true, [], vec_len, All, IfOk};
ghost use Rattle.stat_board.specs.OneSeat.{one_seat, IsIdle};

use crate::tests::client;
use lic_types::Client;
use options_machine::{Charge, EntryRef, Kind, Reply, Request};
use stat_board::{Board, BoardPass, Glance, NoMemory, Ruling};
use std::alloc::Global;
use std::sync::Wait;
use std::test::Fail;
use std::thread::{Threads, for_each_mut, join_mut};

/// The desk has one seat.
struct OneSeat;

impl Ruling<()> for OneSeat {
    ghost use Rattle.stat_board.specs.OneSeat.{one_seat};

    ghost sets = { λ _. one_seat };
}

const OPENING: Glance = Glance {
    front: 0,
    held: 0,
    lingering: 0,
    taken: 0,
    free: 1,
    queued: 0,
};

/// The board of a desk with one seat.
fn opened<R: Wait>(rt: &R, alloc: Global, n: u32) -> Result<(Board, Vec<BoardPass>), NoMemory>
    requires { (1 ≤ n) × (n ≤ 256) }
    ensures sets { IfOk result (λ r. r.0.front.sets ≡ one_seat) }
    ensures empty { IfOk result (λ r. r.0.front.list ≡ []) }
    ensures count { IfOk result (λ r. vec_len r.1 ≡ n) }
    ensures passes { IfOk result (λ r. All (λ p. p ≡ r.0.front) r.1.items) }
{
    Board::make::<R, (), OneSeat>(rt, alloc, &(), OPENING, n)
}

/// Party 0 takes the seat, and party 1 waits for it. What a pass reads after each.
fn seat_and_wait<R: Wait>(
    rt: &R,
    board: &mut Board,
    pass: &mut BoardPass,
    client: &Client,
) -> (Glance, Glance)
    requires sets { board.old.front.sets ≡ one_seat }
    requires empty { board.old.front.list ≡ [] }
{
    let checkout = Request {
        party: 0,
        client: *client,
        kind: Kind::Checkout,
    };
    let granted = EntryRef::of(&checkout, 0, Reply::Granted(Charge::Open));
    let one_held = Glance {
        held: 1,
        taken: 1,
        ..OPENING
    };
    board.publish(rt, &granted, one_held);
    let first = pass.glance();
    let queue = Request {
        party: 1,
        client: *client,
        kind: Kind::Queue,
    };
    let waits = EntryRef::of(&queue, 0, Reply::Queued(1));
    let one_waits = Glance {
        queued: 1,
        ..one_held
    };
    board.publish(rt, &waits, one_waits);
    (first, pass.glance())
}

#[test]
fn a_pass_reads_what_was_published(rt: HostRuntime) -> Result<(), Fail> {
    let ann = client(b"ann")?;
    let made = opened(&rt, rt.alloc(), 1);
    assert!(rt; made.is_ok());
    let Ok((mut board, mut passes)) = made else {
        return Ok(());
    };
    let mut pass = passes.pop().unwrap();
    let opening = pass.glance();
    let (first, second) = seat_and_wait(&rt, &mut board, &mut pass, &ann);
    let live = board.is_live();
    let last = board.note().glance();
    board.end(&rt);
    let numbers = |g: Glance| (g.front, g.held, g.lingering, g.taken, g.free, g.queued);
    assert_eq!(rt; numbers(opening), (0, 0, 0, 0, 1, 0));
    assert_eq!(rt; numbers(first), (1, 1, 0, 1, 1, 0));
    assert_eq!(rt; numbers(second), (2, 1, 0, 1, 1, 1));
    assert!(rt; live && last == second && pass.glance() == second);
    Ok(())
}

/// Publishes that party 0 looks for its seat, and has none.
fn look<R: Wait>(rt: &R, client: &Client, board: &mut Board)
    requires sets { board.old.front.sets ≡ one_seat }
    requires idle { IsIdle board.old.front.list }
    ensures sets { board.new.front.sets ≡ one_seat }
    ensures idle { IsIdle board.new.front.list }
    ensures board { board.new.front.board ≡ board.old.front.board }
{
    let request = Request {
        party: 0,
        client: *client,
        kind: Kind::Look,
    };
    let looked = EntryRef::of(&request, 0, Reply::NotHeld);
    board.publish(rt, &looked, OPENING);
}

/// Publishes so many entries, and gives how many of them before the board was live no more.
fn publish_many<R: Wait>(rt: &R, client: &Client, board: &mut Board, times: u64) -> u64
    requires sets { board.old.front.sets ≡ one_seat }
    requires idle { IsIdle board.old.front.list }
{
    let mut published = 0;
    for _time in 0..times {
        look(rt, client, board);
        if board.is_live() {
            published += 1;
        }
    }
    published
}

/// Reads so often, and tells whether a front fell, and the last.
fn watch(pass: &mut BoardPass, times: u64) -> (bool, u64) {
    let mut last = 0;
    let mut fell = false;
    for _time in 0..times {
        let front = pass.glance().front;
        fell = fell || front < last;
        last = front;
    }
    (fell, last)
}

const MANY: u64 = 10_000;

/// A party that reads the board, and whether a front fell that it read.
#[derive(Drop)]
struct Watcher {
    pass: BoardPass,
    fell: bool,
}

/// Each party reads so often.
fn watch_all<R: Threads + Sync>(rt: &R, watchers: &mut [Watcher]) {
    let watching = |_party: usize, watcher: &mut Watcher| {
        let (fell, _last) = watch(&mut watcher.pass, MANY);
        watcher.fell = fell;
    };
    for_each_mut(rt, watchers, 8, &watching);
}

/// One thread publishes so many entries, and eight read as often. Whether a front fell, and whether each reads the last
/// at the end.
fn publish_and_watch_all<R: Threads + Wait + Sync>(
    rt: &R,
    mut board: Board,
    mut watchers: Vec<Watcher>,
    client: Client,
) -> (bool, bool)
    requires sets { board.front.sets ≡ one_seat }
    requires idle { IsIdle board.front.list }
{
    let shared = &client;
    let (published, ()) = join_mut(
        rt,
        &mut || publish_many(rt, shared, &mut board, MANY),
        &mut || watch_all(rt, watchers.as_mut_slice()),
    );
    let mut fell = false;
    let mut fresh = published == MANY;
    for watcher in watchers.iter_mut() {
        fell = fell || watcher.fell;
        fresh = fresh && watcher.pass.glance().front == MANY;
    }
    board.end(rt);
    (fell, fresh)
}

/// Eight passes share the reader, which is there again when nobody reads.
#[test]
fn eight_threads_share_the_reader(rt: HostRuntime) -> Result<(), Fail> {
    let ann = client(b"ann")?;
    let made = opened(&rt, rt.alloc(), 8);
    assert!(rt; made.is_ok());
    let Ok((board, passes)) = made else {
        return Ok(());
    };
    let watching = passes
        .into_iter()
        .map(|pass| Watcher { pass, fell: false })
        .collect(rt.alloc());
    let Ok(watchers) = watching else {
        board.end(&rt);
        panic!(rt; "no memory")
    };
    assert_eq!(rt;
        publish_and_watch_all(&rt, board, watchers, ann),
        (false, true)
    );
    Ok(())
}
