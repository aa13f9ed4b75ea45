//! Asking one desk, or several one after another.
ghost use Rattle.std.specs.Prelude.{◌≡◌, ◌<◌, ◌∷◌, [], List, length};
ghost use Rattle.std.specs.Option.{option_copied};
ghost use Rattle.counter.specs.Account.{Asking};
ghost use Rattle.options_machine.specs.Run.{IsBelow};
ghost use Rattle.options_machine.specs.Step.{set_asked};
ghost use Rattle.session.specs.Acts.{Act, Enter, Look, Shown};
ghost use Rattle.session.specs.Asks.{AsksOnly, AsksUpTo, IsLeftIdle};
ghost use Rattle.session.specs.Did.{Agrees};
ghost use Rattle.session.specs.Pass.{AreOf, Gains};
ghost use Rattle.session.specs.Table.{AsksAny, Setup, IsAsking};
ghost use Rattle.session.specs.Told.{IsAnswer, seat_with};

use crate::asked::Whom;
use counter::{Counter, Glance};
use lic_types::Client;
use office_view::OfficeView;
use options_machine::{Kind, Reply};
use session_outside::Clock;
use std::sync::Wait;

/// What a desk answered, with the seat that the answer brought.
#[derive(Clone, Copy)]
pub(crate) struct Answered {
    pub(crate) reply: Reply,
    pub(crate) place: u64,
    pub(crate) seat: Option<u32>,
}

/// The seat that a reply brought.
fn seat_with<C: Counter>(counter: &C, reply: &Reply) -> Option<u32>
    ensures { result ≡ seat_with (C.account counter.now) reply.now }
{
    if reply.brings_seat() {
        counter.seat()
    } else {
        None
    }
}

/// Asks one desk.
pub(crate) fn ask_at<R: Wait, C: Counter>(
    rt: &R,
    office: &OfficeView<C::Desk>,
    pass: &mut [C],
    i: usize,
    kind: Kind,
    client: &Client,
    moment: u64,
) -> Answered
    requires of { AreOf C.is_of C.account pass.old office.now }
    requires within { i < length pass.old }
    requires fits { IsBelow (set_asked kind) office.now.sets }
    ensures asked { (a : Asking) × Gains C.account (Enter i a ∷ []) pass.old pass.new × IsAsking client.now kind moment a × IsAnswer a result }
    ensures of { AreOf C.is_of C.account pass.new office.now }
    ensures left { IsLeftIdle C.account kind i pass.old pass.new }
{
    let desk = office.desk(i);
    let counter = &mut pass[i];
    let asked = counter.ask(rt, desk, kind, client, moment);
    let seat = seat_with(counter, &asked.reply);
    Answered {
        reply: asked.reply,
        place: asked.place,
        seat,
    }
}

/// Glances at one desk.
pub(crate) fn glance_at<C: Counter>(
    office: &OfficeView<C::Desk>,
    pass: &mut [C],
    i: usize,
) -> Glance
    requires of { AreOf C.is_of C.account pass.old office.now }
    requires within { i < length pass.old }
    ensures shown { (s : Shown) × Gains C.account (Look i s ∷ []) pass.old pass.new × (result ≡ s.glance) }
    ensures of { AreOf C.is_of C.account pass.new office.now }
{
    let desk = office.desk(i);
    let counter = &mut pass[i];
    counter.glance(desk)
}

/// Whether a desk is meant.
pub(crate) fn is_meant<C: Counter>(whom: Whom, counter: &C) -> bool
    ensures { result ≡ Rattle.session.specs.Asks.is_meant_at whom (C.account counter.now) }
{
    whom.is_meant(counter.holding(), counter.queued())
}

/// Asks each desk that is meant, in order, each with the next moment.
pub(crate) fn ask_each<R: Wait, C: Counter, K: Clock>(
    rt: &R,
    office: &OfficeView<C::Desk>,
    pass: &mut [C],
    clock: &mut K,
    whom: Whom,
    kind: Kind,
    client: &Client,
)
    requires of { AreOf C.is_of C.account pass.old office.now }
    requires fits { IsBelow (set_asked kind) office.now.sets }
    ensures asked { (o : Setup) (before : List Act) → Agrees C.account office.now o before pass.old →
        (new : List Act) × AsksUpTo C.account K.gave o client.now whom kind before (length pass.old) pass.old pass.new clock.old clock.new new }
    ensures of { AreOf C.is_of C.account pass.new office.now }
    ensures idle { Rattle.session.specs.Asks.LeavesIdle C.account whom kind pass.new (length pass.new) }
{
    for i in 0..pass.len() {
        if is_meant(whom, &pass[i]) {
            let at = clock.now();
            let _answered = ask_at(rt, office, pass, i, kind, client, at);
        }
    }
}

/// Asks each desk that is meant. Before HELLO there is no client, and none is asked.
pub(crate) fn ask_any<R: Wait, C: Counter, K: Clock>(
    rt: &R,
    office: &OfficeView<C::Desk>,
    pass: &mut [C],
    clock: &mut K,
    whom: Whom,
    kind: Kind,
    client: Option<&Client>,
)
    requires of { AreOf C.is_of C.account pass.old office.now }
    requires fits { IsBelow (set_asked kind) office.now.sets }
    ensures asked { (o : Setup) (before : List Act) → Agrees C.account office.now o before pass.old →
        (new : List Act) × AsksOnly C.account K.gave pass.old pass.new clock.old clock.new new × AsksAny whom o before (option_copied client.entry) kind new }
    ensures of { AreOf C.is_of C.account pass.new office.now }
    ensures idle { Rattle.session.specs.Asks.LeavesIdleWhere C.account whom kind (option_copied client.entry) pass.new }
{
    match client {
        None => {}
        Some(client) => {
            ask_each(rt, office, pass, clock, whom, kind, client);
        }
    }
}
