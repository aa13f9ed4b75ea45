//! Rows of the listing by step calls.
ghost use Rattle.std.specs.Prelude.{◌≡◌, ◌≤◌, [], IfOk, IfSome, vec_capacity};
ghost use Rattle.kex_words.specs.Sorts.{pass_in_next, pass_in_back};

use kex_core::{NoMemory, Place};
use kex_net::chain;
use kex_words::{Back, Entering, Hold, KexTable, Leaving, Next, Out};
use std::alloc::Global;
use std::test::Fail;

/// The access of a pass among the stages.
fn stage_step(table: &KexTable, e: Entering) -> Next
    requires { e.table ≡ table.now }
    ensures { (pass_in_next result).table ≡ table.now }
{
    match e.place() {
        Place::Mark(_) => Next::Entering(table.mark(e)),
        Place::Look(_) => table.look(e),
        Place::Spin(_) => table.spin(e),
        _ => table.dec(e),
    }
}

/// So many accesses on the way in, up to Named.
fn inward(table: &KexTable, mut next: Next, steps: u32) -> Next
    requires { (pass_in_next next).table ≡ table.now }
    ensures { (pass_in_next result).table ≡ table.now }
{
    for _step in 0..steps {
        next = match next {
            Next::Entering(e) => stage_step(table, e),
            Next::Naming(n) => table.test_set(n),
            named => named,
        };
    }
    next
}

/// The access of a pass that leaves.
fn leave_step(table: &KexTable, l: Leaving) -> Back
    requires { l.table ≡ table.now }
    ensures { (pass_in_back result).table ≡ table.now }
{
    match l.place() {
        Place::Clearing(_) => table.clear(l),
        Place::Inc(_) => Back::Leaving(table.inc(l)),
        _ => table.unmark(l),
    }
}

/// So many accesses on the way out, up to Out.
fn outward(table: &KexTable, mut back: Back, steps: u32) -> Back
    requires { (pass_in_back back).table ≡ table.now }
    ensures { (pass_in_back result).table ≡ table.now }
{
    for _step in 0..steps {
        back = match back {
            Back::Leaving(l) => leave_step(table, l),
            out => out,
        };
    }
    back
}

/// Enters in so many accesses, with the card's among them.
fn hold(table: &KexTable, out: Out, steps: u32) -> Option<Hold>
    requires { out.table ≡ table.now }
    ensures { IfSome result (λ h. h.pass.table ≡ table.now) }
{
    match inward(table, table.begin(out), steps.saturating_sub(1)) {
        Next::Named(n) => Some(table.card_out(n)),
        _ => None,
    }
}

/// Leaves in so many accesses, with the card's among them.
fn leave(table: &KexTable, hold: Hold, steps: u32) -> Option<Out>
    requires { hold.pass.table ≡ table.now }
    ensures { IfSome result (λ o. o.table ≡ table.now) }
{
    match outward(table, table.card_in(hold), steps.saturating_sub(1)) {
        Back::Out(out) => Some(out),
        _ => None,
    }
}

/// Where a pass on its way in stands. Of Named it is told without its number.
fn place_in(next: &Next) -> Option<Place> {
    match next {
        Next::Entering(e) => Some(e.place()),
        Next::Naming(n) => Some(n.place()),
        Next::Named(_) => None,
    }
}

/// Where a pass on its way out stands.
fn place_back(back: &Back) -> Place {
    match back {
        Back::Leaving(l) => l.place(),
        Back::Out(_) => Place::Out,
    }
}

/// A table of chain(3, 2), with its passes 0, 1 and 2. It has one stage of capacity 2, one bit and the numbers 0 and 1.
fn three(alloc: Global) -> Result<(KexTable, Out, Out, Out), NoMemory>
    ensures { IfOk result (λ t. (t.1.table ≡ t.0) × (t.2.table ≡ t.0) × (t.3.table ≡ t.0)) }
{
    let net = chain(alloc, 3, 2)?;
    let (table, mut passes) = KexTable::make(alloc, net)?;
    let two = passes.pop().unwrap();
    let one = passes.pop().unwrap();
    let zero = passes.pop().unwrap();
    Ok((table, zero, one, two))
}

/// Parties 0 and 1 hold.
fn two_hold(table: &KexTable, zero: Out, one: Out) -> Option<(Hold, Hold)>
    requires zero { zero.table ≡ table.now }
    requires one { one.table ≡ table.now }
    ensures { IfSome result (λ t. (t.0.pass.table ≡ table.now) × (t.1.pass.table ≡ table.now)) }
{
    Some((hold(table, zero, 3)?, hold(table, one, 3)?))
}

/// Parties 0 and 1 hold, and party 2 waits. Party 0 leaves up to its Inc: party 2 still waits. Party 0 unmarks: party 2
/// passes.
fn unmarking(table: &KexTable, zero: Hold, two: Out) -> ([Option<Place>; 3], [Place; 2])
    requires zero { zero.pass.table ≡ table.now }
    requires two { two.table ≡ table.now }
{
    let two = inward(table, table.begin(two), 3);
    let waiting = place_in(&two);
    let zero = outward(table, table.card_in(zero), 2);
    let raised = place_back(&zero);
    let two = inward(table, two, 1);
    let still = place_in(&two);
    let zero = outward(table, zero, 1);
    let two = inward(table, two, 1);
    (
        [waiting, still, place_in(&two)],
        [raised, place_back(&zero)],
    )
}

/// The numbers and seats of parties 0 and 1, where party 2 stands meanwhile, and where party 0 does.
fn third_passes(
    table: &KexTable,
    zero: Out,
    one: Out,
    two: Out,
) -> Option<([(u32, u32); 2], [Option<Place>; 3], [Place; 2])>
    requires zero { zero.table ≡ table.now }
    requires one { one.table ≡ table.now }
    requires two { two.table ≡ table.now }
{
    let (zero, one) = two_hold(table, zero, one)?;
    let seats = [(zero.number(), zero.seat()), (one.number(), one.seat())];
    let (waiter, leaver) = unmarking(table, zero, two);
    Some((seats, waiter, leaver))
}

#[test]
fn a_waiter_passes_once_a_leaver_unmarks(rt: HostRuntime) -> Result<(), Fail> {
    let (table, zero, one, two) = three(rt.alloc())?;
    let waiter = [Place::Spin(0), Place::Spin(0), Place::Naming(0)];
    let leaver = [Place::Unmark(0), Place::Out];
    let expected = ([(0, 0), (1, 1)], waiter.map(Some), leaver);
    assert_eq!(rt; third_passes(&table, zero, one, two), Some(expected));
    Ok(())
}

/// Parties 0 and 1 hold, and party 2 stops before its Mark. Party 0 leaves wholly, comes again and waits. Party 2's
/// Mark lets it go, and then party 2 waits.
fn late_mark(table: &KexTable, zero: Hold, two: Out) -> Option<[Option<Place>; 4]>
    requires zero { zero.pass.table ≡ table.now }
    requires two { two.table ≡ table.now }
{
    let two = inward(table, table.begin(two), 1);
    let counted = place_in(&two);
    let zero = leave(table, zero, 4)?;
    let zero = inward(table, table.begin(zero), 4);
    let waiting = place_in(&zero);
    let two = inward(table, two, 1);
    let zero = inward(table, zero, 1);
    let two = inward(table, two, 2);
    Some([counted, waiting, place_in(&zero), place_in(&two)])
}

/// Where parties 0 and 2 stand then, and the seat of party 1.
fn first_goes(table: &KexTable, zero: Out, one: Out, two: Out) -> Option<([Option<Place>; 4], u32)>
    requires zero { zero.table ≡ table.now }
    requires one { one.table ≡ table.now }
    requires two { two.table ≡ table.now }
{
    let (zero, one) = two_hold(table, zero, one)?;
    Some((late_mark(table, zero, two)?, one.seat()))
}

#[test]
fn a_late_mark_lets_the_waiter_go(rt: HostRuntime) -> Result<(), Fail> {
    let (table, zero, one, two) = three(rt.alloc())?;
    let places = [
        Place::Mark(0),
        Place::Spin(0),
        Place::Naming(0),
        Place::Spin(0),
    ];
    assert_eq!(rt;
        first_goes(&table, zero, one, two),
        Some((places.map(Some), 1))
    );
    Ok(())
}

/// A table of chain(2, k), with its passes 0 and 1, and an empty list with room for them.
fn pair(alloc: Global, k: u32) -> Result<(KexTable, Vec<Out>, Out, Out), NoMemory>
    requires { 1 ≤ k }
    ensures { IfOk result (λ t. (t.0.net.parties ≡ 2) × (t.1.items ≡ []) × (2 ≤ vec_capacity t.1) × (t.2.table ≡ t.0) × (t.3.table ≡ t.0)) }
{
    let net = chain(alloc, 2, k)?;
    let (table, mut passes) = KexTable::make(alloc, net)?;
    let one = passes.pop().unwrap();
    let zero = passes.pop().unwrap();
    Ok((table, passes, zero, one))
}

/// The uses of all cards together, once both passes are back.
fn uses_of(table: KexTable, mut passes: Vec<Out>, zero: Out, one: Out) -> u64
    requires parties { table.net.parties ≡ 2 }
    requires room { (passes.items ≡ []) × (2 ≤ vec_capacity passes) }
    requires zero { zero.table ≡ table }
    requires one { one.table ≡ table }
{
    passes.push_reserved(zero);
    passes.push_reserved(one);
    let mut uses: u64 = 0;
    for card in &table.close(passes) {
        uses = uses.wrapping_add(card.uses);
    }
    uses
}

/// Enters and leaves, and tells its number, the seat and the uses.
fn trip(table: &KexTable, out: Out) -> Option<(Out, [u64; 3])>
    requires { out.table ≡ table.now }
    ensures { IfSome result (λ t. t.0.table ≡ table.now) }
{
    let held = hold(table, out, 2)?;
    let told = [
        u64::from(held.number()),
        u64::from(held.seat()),
        held.uses(),
    ];
    Some((leave(table, held, 3)?, told))
}

/// Chain(2, 1) has one stage, no bit and the number 0.
#[test]
fn a_card_counts_its_uses(rt: HostRuntime) -> Result<(), Fail> {
    let (table, passes, zero, one) = pair(rt.alloc(), 1)?;
    let (one, first) = trip(&table, one).expect(&rt, "party 1 is back");
    let (zero, second) = trip(&table, zero).expect(&rt, "party 0 is back");
    assert_eq!(rt; [first, second], [[1, 0, 1], [0, 0, 2]]);
    assert_eq!(rt; uses_of(table, passes, zero, one), 2);
    Ok(())
}
