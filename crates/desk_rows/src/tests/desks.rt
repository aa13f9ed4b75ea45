//! A desk in one thread and in several.
ghost use Rattle.std.specs.Prelude.{◌≡◌, ◌+◌, ◌*◌, ◌<◌, ◌≤◌, min, [], All, IfOk, length, vec_len, vec_capacity};
ghost use Rattle.options_machine.specs.Rules.{IsSound};
ghost use Rattle.options_machine.specs.Run.{IsBelow};
ghost use Rattle.options_machine.specs.Step.{set_asked};
ghost use Rattle.feature_desk.specs.Closings.{AreClosable, IsKeeperOf, Rests};
ghost use Rattle.feature_desk.specs.Sitters.{IsOf};

use crate::tests::client;
use counter::{Asked, Counter, Glance};
use desk_book::DeskLog;
use feature_desk::{Desk, DeskKeeper, DeskPass, DeskState, DeskTally, Noted, Seating};
use feature_lines::Pool;
use kex_net::chain;
use lic_types::{Client, Expiry, Name, Version};
use options_machine::{Charge, Kind, Reply};
use options_text::read_options;
use policy::DeskRules;
use std::process::Abort;
use std::sync::Wait;
use std::test::Fail;
use std::thread::{Threads, for_each_mut, yield_now};

const ROUNDS: u32 = 50;

/// A pool of so many licences.
fn pool_of(count: u32) -> Result<Pool, Fail>
    ensures { IfOk result (λ pool. pool.count ≡ count) }
{
    Ok(Pool {
        name: Name::read(b"edit")?,
        version: Version { key: 2_000_000_000 },
        version_text: Name::read(b"2.0")?,
        vendor: Name::read(b"acme")?,
        expiry: Expiry::Never,
        count,
        line: 1,
    })
}

/// The rules of so many licences, by an options file.
fn rules_of(rt: &(impl Abort + AllocGlobal), file: &[u8], count: u32) -> Result<DeskRules, Fail>
    ensures sound { IfOk result IsSound }
    ensures count { IfOk result (λ rules. rules.count ≡ count) }
{
    let pool = pool_of(count)?;
    assert!(rt; file.len() < 1 << 32);
    let options = read_options(rt.alloc(), file)?;
    let rules = DeskRules::of(rt.alloc(), &options, &pool)?;
    assert!(rt; rules.count() == count);
    Ok(rules)
}

/// A desk of so many licences and parties, by an options file.
fn desk_of(
    rt: &(impl Abort + Wait + AllocGlobal),
    file: &[u8],
    count: u32,
    parties: u32,
) -> Result<(Desk, Vec<DeskPass>, DeskKeeper), Fail>
    requires { (1 ≤ count) × (2 ≤ parties) × (parties ≤ 256) }
    ensures own { IfOk result (λ made. (vec_len made.1 ≡ parties) × (made.0.lock.id.parties ≡ parties) × All (λ p. IsOf p made.0) made.1.items) }
    ensures keeper { IfOk result (λ made. IsKeeperOf made.2 made.0) }
{
    let rules = rules_of(rt, file, count)?;
    let net = chain(rt.alloc(), parties, count)?;
    assert!(rt; net.parties() == parties);
    assert!(rt; net.width() == count.min(net.parties()));
    Ok(Desk::make(rt, rt.alloc(), rules, net)?)
}

/// A desk of so many licences and parties with no options, behind a gate.
fn gated_desk_of(
    rt: &(impl Abort + Wait + AllocGlobal),
    count: u32,
    parties: u32,
) -> Result<(Desk, Vec<DeskPass>, DeskKeeper), Fail>
    requires { (1 ≤ count) × (2 ≤ parties) × (2 * min count parties < parties) × (parties + min count parties ≤ 256) }
    ensures own { IfOk result (λ made. (vec_len made.1 ≡ parties) × (made.0.lock.id.parties ≡ parties) × All (λ p. IsOf p made.0) made.1.items) }
    ensures keeper { IfOk result (λ made. IsKeeperOf made.2 made.0) }
{
    let sets = vec![in rt.alloc(); rules_of(rt, b"", count)?]?;
    Ok(Desk::make_gated(rt, rt.alloc(), sets, parties)?)
}

/// One call of a party, at a moment.
fn asks<R: Wait>(
    rt: &R,
    desk: &Desk,
    pass: &mut DeskPass,
    kind: Kind,
    client: &Client,
    moment: u64,
) -> Asked
    requires of { IsOf pass.old desk.now }
    requires fits { IsBelow (set_asked kind) (length pass.old.ticket.law.sets) }
    ensures { IsOf pass.new desk.now }
{
    pass.ask(rt, desk, kind, client, moment)
}

/// Checks out until a seat is granted.
fn check_out<R: Wait>(rt: &R, desk: &Desk, pass: &mut DeskPass, client: &Client)
    requires { IsOf pass.old desk.now }
    ensures { IsOf pass.new desk.now }
{
    for _ in rt.forever() {
        if asks(rt, desk, pass, Kind::Checkout, client, 0).held {
            return;
        }
        yield_now();
    }
    unreachable!()
}

/// Quits.
fn quit<R: Wait>(rt: &R, desk: &Desk, pass: &mut DeskPass, client: &Client, moment: u64)
    requires { IsOf pass.old desk.now }
    ensures { IsOf pass.new desk.now × Rests pass.new }
{
    pass.ask(rt, desk, Kind::Quit, client, moment);
}

/// Checks out and in, so often, and quits.
fn come_and_go<R: Wait>(rt: &R, desk: &Desk, pass: &mut DeskPass, client: &Client)
    requires { IsOf pass.old desk.now }
    ensures { IsOf pass.new desk.now × Rests pass.new }
{
    for _round in 0..ROUNDS {
        check_out(rt, desk, pass, client);
        asks(rt, desk, pass, Kind::Checkin, client, 0);
    }
    quit(rt, desk, pass, client, 0);
}

/// Each party comes and goes in a thread of its own.
fn come_and_go_all<R: Threads + Wait + Sync>(
    rt: &R,
    desk: &Desk,
    passes: &mut [DeskPass],
    client: &Client,
)
    requires { All (λ p. IsOf p desk.now) passes.old }
    ensures len { length passes.new ≡ length passes.old }
    ensures own { All (λ p. IsOf p desk.now) passes.new }
    ensures rest { All Rests passes.new }
{
    let coming = |_party: usize, pass: &mut DeskPass|
        requires { IsOf pass.old desk.now }
        ensures { IsOf pass.new desk.entry.now × Rests pass.new }
    { come_and_go(rt, desk, pass, client) };
    for_each_mut(rt, passes, 4, &coming);
}

/// Each party comes and goes, and then the desk is closed.
fn tally_of<R: Threads + Wait + Sync>(
    rt: &R,
    desk: Desk,
    mut passes: Vec<DeskPass>,
    keeper: DeskKeeper,
    client: &Client,
) -> DeskTally
    requires count { vec_len passes ≡ desk.lock.id.parties }
    requires own { All (λ p. IsOf p desk) passes.items }
    requires keeper { IsKeeperOf keeper desk }
{
    come_and_go_all(rt, &desk, passes.as_mut_slice(), client);
    desk.close(rt, passes, keeper)
}

#[test]
fn four_threads_take_turns_at_two_seats(rt: HostRuntime) -> Result<(), Fail> {
    let ann = client(b"ann")?;
    let (desk, passes, keeper) = desk_of(&rt, b"", 2, 4)?;
    let DeskTally { grants, uses, .. } = tally_of(&rt, desk, passes, keeper, &ann);
    assert_eq!(rt; (grants, uses), (200, 200));
    Ok(())
}

#[test]
fn eight_parties_take_turns_at_two_seats_behind_a_gate(rt: HostRuntime) -> Result<(), Fail> {
    let ann = client(b"ann")?;
    let (desk, passes, keeper) = gated_desk_of(&rt, 2, 8)?;
    let DeskTally { grants, uses, .. } = tally_of(&rt, desk, passes, keeper, &ann);
    assert_eq!(rt; (grants, uses), (400, 400));
    Ok(())
}

/// Enters a checkout into the book, and no seat yet.
fn enters<R: Wait>(rt: &R, desk: &Desk, pass: DeskPass, client: &Client, moment: u64) -> Noted
    requires { IsOf pass desk.now }
    ensures { IsOf result.sitter desk.now }
{
    desk.enter_book(rt, pass, Kind::Checkout, client, moment)
}

/// Takes so many steps towards a seat, none of which is the last.
fn waits(rt: &impl Abort, desk: &Desk, mut noted: Noted, steps: u32) -> Noted
    requires { IsOf noted.sitter desk.now }
    ensures { IsOf result.sitter desk.now }
{
    for _step in 0..steps {
        match desk.turn_seat(noted) {
            Seating::Again(next) => noted = next,
            Seating::Matched(..) => panic!(rt; "a seat is entered that another holds"),
        }
    }
    noted
}

/// Takes the last step towards a seat.
fn seated(rt: &impl Abort, desk: &Desk, noted: Noted) -> DeskPass
    requires { IsOf noted.sitter desk.now }
    ensures { IsOf result desk.now }
{
    let Seating::Matched(pass, _asked) = desk.turn_seat(noted) else {
        panic!(rt; "the seat is not entered");
    };
    pass
}

/// The party tells the other what it knows of the board, and the other reads it.
fn told_glance(desk: &Desk, one: &DeskPass, two: &mut DeskPass) -> Glance
    requires one { IsOf one.now desk.now }
    requires two { IsOf two.old desk.now }
    ensures { IsOf two.new desk.now }
{
    two.hear(&one.note());
    two.glance(desk)
}

/// The last pass.
fn last(rt: &impl Abort, desk: &Desk, passes: &mut Vec<DeskPass>) -> DeskPass
    requires { All (λ p. IsOf p desk.now) passes.old.items }
    ensures { IsOf result desk.now × All (λ p. IsOf p desk.now) passes.new.items }
{
    passes.pop().expect(rt, "a pass")
}

/// Both passes, in a list that has room for them.
fn both(_desk: &Desk, mut room: Vec<DeskPass>, one: DeskPass, two: DeskPass) -> Vec<DeskPass>
    requires room { (room.items ≡ []) × (2 ≤ vec_capacity room) }
    requires one { IsOf one _desk.now × Rests one }
    requires two { IsOf two _desk.now × Rests two }
    ensures count { vec_len result ≡ 2 }
    ensures all { AreClosable _desk.now result.items }
{
    room.push_reserved(one);
    room.push_reserved(two);
    room
}

/// Closes a desk of two parties, whose passes are these.
fn closed<R: Wait>(
    rt: &R,
    desk: Desk,
    room: Vec<DeskPass>,
    one: DeskPass,
    two: DeskPass,
    keeper: DeskKeeper,
) -> (DeskTally, DeskLog)
    requires parties { desk.lock.id.parties ≡ 2 }
    requires room { (room.items ≡ []) × (2 ≤ vec_capacity room) }
    requires one { IsOf one desk × Rests one }
    requires two { IsOf two desk × Rests two }
    requires keeper { IsKeeperOf keeper desk }
{
    let passes = both(&desk, room, one, two);
    desk.close_with_log(rt, passes, keeper)
}

#[test]
fn a_reclaimed_seat_is_left_before_another_enters(rt: HostRuntime) -> Result<(), Fail> {
    let (ann, bob) = (client(b"ann")?, client(b"bob")?);
    let room = Vec::with_capacity(rt.alloc(), 2)?;
    let (desk, mut passes, mut keeper) = desk_of(&rt, b"TIMEOUT edit 10\n", 1, 2)?;
    let two = last(&rt, &desk, &mut passes);
    let mut one = last(&rt, &desk, &mut passes);
    let asked = asks(&rt, &desk, &mut one, Kind::Checkout, &ann, 0);
    assert_eq!(rt; asked.reply, Reply::Granted(Charge::Open));
    assert_eq!(rt; (one.seat(), one.state()), (Some(0), DeskState::Hold(0)));
    assert_eq!(rt;
        asks(&rt, &desk, &mut one, Kind::Look, &ann, 899).reply,
        Reply::Held
    );
    let noted = enters(&rt, &desk, two, &bob, 900);
    assert_eq!(rt; noted.asked().reply, Reply::Granted(Charge::Open));
    assert_eq!(rt; noted.seat(), None);
    let noted = waits(&rt, &desk, noted, 10);
    assert_eq!(rt;
        asks(&rt, &desk, &mut one, Kind::Beat, &ann, 901).reply,
        Reply::NotHeld
    );
    assert_eq!(rt; one.state(), DeskState::Out);
    let mut two = seated(&rt, &desk, noted);
    assert_eq!(rt; two.seat(), Some(0));
    let glance = told_glance(&desk, &one, &mut two);
    assert_eq!(rt; (glance.front, glance.held), (4, 1));
    quit(&rt, &desk, &mut one, &ann, 901);
    quit(&rt, &desk, &mut two, &bob, 901);
    assert!(rt; keeper.take(&rt));
    let (tally, log) = closed(&rt, desk, room, one, two, keeper);
    assert_eq!(rt; (tally.calls, tally.grants, tally.uses), (6, 2, 2));
    assert_eq!(rt; (log.entries.len(), log.cut), (6, false));
    Ok(())
}

/// The party of this pass has no seat.
fn rested(rt: &impl Abort, _desk: &Desk, pass: DeskPass) -> DeskPass
    requires { IsOf pass _desk.now }
    ensures { IsOf result _desk.now × Rests result }
{
    assert!(rt; !pass.holding());
    pass
}

/// Looks so often, one second after another.
fn look_often<R: Wait>(rt: &R, desk: &Desk, pass: &mut DeskPass, client: &Client, times: u64)
    requires { IsOf pass.old desk.now }
    ensures { IsOf pass.new desk.now }
{
    for moment in 0..times {
        asks(rt, desk, pass, Kind::Look, client, moment);
    }
}

#[test]
fn a_log_is_cut_behind_entry_4096(rt: HostRuntime) -> Result<(), Fail> {
    let ann = client(b"ann")?;
    let room = Vec::with_capacity(rt.alloc(), 2)?;
    let (desk, mut passes, keeper) = desk_of(&rt, b"", 1, 2)?;
    let two = last(&rt, &desk, &mut passes);
    let mut one = last(&rt, &desk, &mut passes);
    look_often(&rt, &desk, &mut one, &ann, 4097);
    let (one, two) = (rested(&rt, &desk, one), rested(&rt, &desk, two));
    let (tally, log) = closed(&rt, desk, room, one, two, keeper);
    assert_eq!(rt; (tally.calls, tally.grants, tally.uses), (4097, 0, 0));
    assert_eq!(rt; (log.entries.len(), log.cut), (4096, true));
    let last = log.entries.last().map(|entry| (entry.moment, entry.reply));
    assert_eq!(rt; last, Some((4095, Reply::NotHeld)));
    Ok(())
}
