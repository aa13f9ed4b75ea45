//! What each request does.
ghost use Rattle.std.specs.Prelude.{◌≡◌, ◌∷◌, List, [], nat_lt, Some, None};
ghost use Rattle.std.specs.Option.{option_copied};
ghost use Rattle.line_protocol.specs.Requests.{request_of};
ghost use Rattle.office_view.specs.View.{first_named};
ghost use Rattle.options_machine.specs.Step.{set_asked};
ghost use Rattle.session.specs.Acts.{Act, Ring};
ghost use Rattle.session.specs.Did.{Agrees, Did};
ghost use Rattle.session.specs.Pass.{AreOf};
ghost use Rattle.session.specs.Table.{Answers, AsksNoSet, Does, Setup, Leaves, Meets, Obeys, Rereads, Serves, Shows, kept_pool, or_else};

use crate::asked::{Feature, Input, Whom, input_of};
use crate::asking::{ask_any, ask_at, ask_each, glance_at};
use crate::end::SessionEnd;
use crate::finding::{find, find_shown};
use crate::talking::{first_party, say, say_stopping};
use counter::Counter;
use feature_lines::Found;
use lic_types::{Client, NameRef};
use line_protocol::{Told, read_request};
use office_view::OfficeView;
use options_machine::Kind;
use session_outside::{Bell, Clock, Gate, GatePlace, Link};
use std::sync::Wait;

/// Answers a feature request.
fn serve_feature<R: Wait, C: Counter, L: Link, K: Clock, G: Gate, B: Bell>(
    rt: &R,
    office: &OfficeView<C::Desk>,
    pass: &mut [C],
    link: &mut L,
    clock: &mut K,
    gate: &mut G,
    bell: &mut B,
    text: &mut [u8; 160],
    client: &Client,
    asked: &Feature<'_>,
) -> Option<SessionEnd>
    requires of { AreOf C.is_of C.account pass.old office.now }
    requires fits { set_asked asked.now.kind ≡ None }
    ensures served { (o : Setup) (before : List Act) → Agrees C.account office.now o before pass.old →
        (new : List Act) × Did C.account L.tells L.faults L.quiets K.gave B.answered B.tolls B.rings new pass.old pass.new link.old link.new clock.old clock.new bell.old bell.new × Serves o before client.now asked.now new result }
    ensures of { AreOf C.is_of C.account pass.new office.now }
{
    let at = clock.now();
    match find(office, pass, &asked.name, at, asked.version) {
        Found::Unknown => say(rt, link, gate, text, &Told::Unknown, None),
        Found::Expired(day) => say(rt, link, gate, text, &Told::Expired(day), None),
        Found::Pool(i) => {
            let answered = ask_at(rt, office, pass, i, asked.kind, client, at);
            gate.after(rt, GatePlace::Asked);
            let told = Told::Desk {
                reply: answered.reply,
                seat: answered.seat,
                place: answered.place,
            };
            say(rt, link, gate, text, &told, None)
        }
    }
}

/// Answers a glance.
fn show<R: Wait, C: Counter, L: Link, K: Clock, G: Gate, B: Bell>(
    rt: &R,
    office: &OfficeView<C::Desk>,
    pass: &mut [C],
    link: &mut L,
    clock: &mut K,
    gate: &mut G,
    bell: &mut B,
    text: &mut [u8; 160],
    name: &NameRef<'_>,
) -> Option<SessionEnd>
    requires { AreOf C.is_of C.account pass.old office.now }
    ensures shown { (o : Setup) (before : List Act) → Agrees C.account office.now o before pass.old →
        (new : List Act) × Did C.account L.tells L.faults L.quiets K.gave B.answered B.tolls B.rings new pass.old pass.new link.old link.new clock.old clock.new bell.old bell.new × Shows (or_else (kept_pool o before name.now) (first_named o.pools name.now)) new result }
    ensures of { AreOf C.is_of C.account pass.new office.now }
{
    match find_shown(office, pass, name) {
        None => say(rt, link, gate, text, &Told::Unknown, None),
        Some(i) => {
            let glance = glance_at(office, pass, i);
            say(rt, link, gate, text, &Told::Glance(glance), None)
        }
    }
}

/// Asks all desks for a rule set, where there is one of that number.
fn reread<R: Wait, C: Counter, L: Link, K: Clock, G: Gate, B: Bell>(
    rt: &R,
    office: &OfficeView<C::Desk>,
    pass: &mut [C],
    link: &mut L,
    clock: &mut K,
    gate: &mut G,
    bell: &mut B,
    text: &mut [u8; 160],
    client: &Client,
    set: u32,
) -> Option<SessionEnd>
    requires { AreOf C.is_of C.account pass.old office.now }
    ensures reread { (o : Setup) (before : List Act) → Agrees C.account office.now o before pass.old →
        (new : List Act) × Did C.account L.tells L.faults L.quiets K.gave B.answered B.tolls B.rings new pass.old pass.new link.old link.new clock.old clock.new bell.old bell.new × Rereads o before client.now set (nat_lt set o.sets) new result }
    ensures of { AreOf C.is_of C.account pass.new office.now }
{
    if set >= office.sets() {
        return say(rt, link, gate, text, &Told::NoRules(set), None);
    }
    ask_each(
        rt,
        office,
        pass,
        clock,
        Whom::Everyone,
        Kind::Reread(set),
        client,
    );
    say(rt, link, gate, text, &Told::Reread(set), None)
}

/// Gives back, and says goodbye.
fn leave<R: Wait, C: Counter, L: Link, K: Clock, G: Gate, B: Bell>(
    rt: &R,
    office: &OfficeView<C::Desk>,
    pass: &mut [C],
    link: &mut L,
    clock: &mut K,
    gate: &mut G,
    bell: &mut B,
    text: &mut [u8; 160],
    client: Option<&Client>,
) -> Option<SessionEnd>
    requires { AreOf C.is_of C.account pass.old office.now }
    ensures left { (o : Setup) (before : List Act) → Agrees C.account office.now o before pass.old →
        (new : List Act) × Did C.account L.tells L.faults L.quiets K.gave B.answered B.tolls B.rings new pass.old pass.new link.old link.new clock.old clock.new bell.old bell.new × Leaves o before (option_copied client.entry) Told.Bye [] SessionEnd.Quit new result }
    ensures of { AreOf C.is_of C.account pass.new office.now }
{
    ask_any(rt, office, pass, clock, Whom::Keeping, Kind::Quit, client);
    say(rt, link, gate, text, &Told::Bye, Some(SessionEnd::Quit))
}

/// Gives back, says that all sessions are to end, and rings the bell.
fn shut_down<R: Wait, C: Counter, L: Link, K: Clock, G: Gate, B: Bell>(
    rt: &R,
    office: &OfficeView<C::Desk>,
    pass: &mut [C],
    link: &mut L,
    clock: &mut K,
    gate: &mut G,
    bell: &mut B,
    text: &mut [u8; 160],
    client: Option<&Client>,
) -> Option<SessionEnd>
    requires { AreOf C.is_of C.account pass.old office.now }
    ensures down { (o : Setup) (before : List Act) → Agrees C.account office.now o before pass.old →
        (new : List Act) × Did C.account L.tells L.faults L.quiets K.gave B.answered B.tolls B.rings new pass.old pass.new link.old link.new clock.old clock.new bell.old bell.new × Leaves o before (option_copied client.entry) Told.Stopping (Ring ∷ []) SessionEnd.Down new result }
    ensures of { AreOf C.is_of C.account pass.new office.now }
{
    ask_any(rt, office, pass, clock, Whom::Keeping, Kind::Quit, client);
    Some(say_stopping(rt, link, gate, bell, text))
}

/// Answers a request of a client.
fn obey<R: Wait, C: Counter, L: Link, K: Clock, G: Gate, B: Bell>(
    rt: &R,
    office: &OfficeView<C::Desk>,
    pass: &mut [C],
    link: &mut L,
    clock: &mut K,
    gate: &mut G,
    bell: &mut B,
    text: &mut [u8; 160],
    client: &Client,
    input: &Input<'_>,
) -> Option<SessionEnd>
    requires of { AreOf C.is_of C.account pass.old office.now }
    requires fits { AsksNoSet input.now }
    ensures done { (o : Setup) (before : List Act) → Agrees C.account office.now o before pass.old →
        (new : List Act) × Did C.account L.tells L.faults L.quiets K.gave B.answered B.tolls B.rings new pass.old pass.new link.old link.new clock.old clock.new bell.old bell.new × Does o before client.now input.now new result }
    ensures of { AreOf C.is_of C.account pass.new office.now }
{
    match input {
        Input::Hello(_) => say(rt, link, gate, text, &Told::Greeted, None),
        Input::Ask(asked) => serve_feature(
            rt, office, pass, link, clock, gate, bell, text, client, asked,
        ),
        Input::Glance(name) => show(rt, office, pass, link, clock, gate, bell, text, name),
        Input::Reread(set) => reread(
            rt, office, pass, link, clock, gate, bell, text, client, *set,
        ),
        Input::Quit => leave(
            rt,
            office,
            pass,
            link,
            clock,
            gate,
            bell,
            text,
            Some(client),
        ),
        Input::Shutdown => shut_down(
            rt,
            office,
            pass,
            link,
            clock,
            gate,
            bell,
            text,
            Some(client),
        ),
    }
}

/// Answers a request before HELLO.
fn meet<R: Wait, C: Counter, L: Link, K: Clock, G: Gate, B: Bell>(
    rt: &R,
    office: &OfficeView<C::Desk>,
    pass: &mut [C],
    link: &mut L,
    clock: &mut K,
    gate: &mut G,
    bell: &mut B,
    text: &mut [u8; 160],
    client: &mut Option<Client>,
    input: &Input<'_>,
) -> Option<SessionEnd>
    requires of { AreOf C.is_of C.account pass.old office.now }
    requires stranger { client.old ≡ None }
    ensures met { (o : Setup) (before : List Act) → Agrees C.account office.now o before pass.old →
        (new : List Act) × Did C.account L.tells L.faults L.quiets K.gave B.answered B.tolls B.rings new pass.old pass.new link.old link.new clock.old clock.new bell.old bell.new × Meets o before input.now new client.new result }
    ensures of { AreOf C.is_of C.account pass.new office.now }
{
    match input {
        Input::Hello(who) => {
            *client = Some(who.client());
            let party = first_party(pass);
            say(rt, link, gate, text, &Told::Welcome(party), None)
        }
        Input::Ask(_) | Input::Glance(_) | Input::Reread(_) => say(
            rt,
            link,
            gate,
            text,
            &Told::NoHello,
            None,
        ),
        Input::Quit => leave(rt, office, pass, link, clock, gate, bell, text, None),
        Input::Shutdown => shut_down(rt, office, pass, link, clock, gate, bell, text, None),
    }
}

/// Answers a line.
pub(crate) fn answer<R: Wait, C: Counter, L: Link, K: Clock, G: Gate, B: Bell>(
    rt: &R,
    office: &OfficeView<C::Desk>,
    pass: &mut [C],
    link: &mut L,
    clock: &mut K,
    gate: &mut G,
    bell: &mut B,
    text: &mut [u8; 160],
    client: &mut Option<Client>,
    line: &[u8],
) -> Option<SessionEnd>
    requires { AreOf C.is_of C.account pass.old office.now }
    ensures answered { (o : Setup) (before : List Act) → Agrees C.account office.now o before pass.old →
        (new : List Act) × Did C.account L.tells L.faults L.quiets K.gave B.answered B.tolls B.rings new pass.old pass.new link.old link.new clock.old clock.new bell.old bell.new × Answers o before client.old (request_of line.now) new client.new result }
    ensures of { AreOf C.is_of C.account pass.new office.now }
{
    match read_request(line) {
        Err(fault) => say(rt, link, gate, text, &Told::Bad(fault.number()), None),
        Ok(request) => {
            let input = input_of(request);
            match client {
                None => meet(
                    rt, office, pass, link, clock, gate, bell, text, client, &input,
                ),
                Some(known) => obey(
                    rt, office, pass, link, clock, gate, bell, text, known, &input,
                ),
            }
        }
    }
}
