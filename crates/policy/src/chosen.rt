//! The exclude and include lines of a pool, by their places in its options file.
ghost use Rattle.std.specs.Prelude.{◌≡◌, ◌<◌, false, filter, find, IfOk, IsTrue, Some, length, slice_get, true};
ghost use Rattle.std.specs.List.{list_any};
ghost use Rattle.std.specs.Option.{option_map};
ghost use Rattle.options_machine.specs.Decide.{number_of_line};
ghost use Rattle.options_machine.specs.Rules.{applies};
ghost use Rattle.policy.specs.Barring.{bars};
ghost use Rattle.policy.specs.Passing.{AreOthers, grouped_of, is_group, names_group, printed_of};
ghost use Rattle.policy.specs.Places.{AreThere, lines_at};

use crate::matching::applies;
use crate::selection::{Barring, bars};
use group_roster::{Printed, Prints, Roster, name_print};
use lic_types::{Client, Name, NoMemory, RuleLine, Who, WhoKind};
use options_text::RuleLines;
use std::alloc::Global;
use std::marker::Model;

/// Some of the lines of an options file, which a clause sees as their list. It keeps their places in the file's lines,
/// from 0, and shares those lines, so that a line takes no more room for each pool than three numbers.
#[derive(Drop)]
pub(crate) struct ChosenLines {
    all: RuleLines,
    places: Vec<usize>,
    // The places of those that name a group.
    grouped: Vec<usize>,
    // The places of the others, by the prints of what they name.
    printed: Prints,
}

impl Model for ChosenLines {
    ghost use Rattle.std.specs.Prelude.{List};
    ghost use Rattle.lic_types.specs.declared.client.RuleLine.{RuleLine};
    ghost use Rattle.policy.specs.Places.{AreSorted, lines_at};

    ghost Value = { List RuleLine };

    ghost view = { λ c. lines_at c.all c.places.items };

    ghost invariant = { λ c. AreSorted c.all c.places.items c.grouped.items c.printed };
}

/// Whether it is a group's name, of users or of hosts.
fn is_group(kind: WhoKind) -> bool
    ensures { result ≡ is_group kind }
{
    matches!(kind, WhoKind::Group | WhoKind::HostGroup)
}

/// Whether a line names a group.
fn names_group(who: &Option<Who>) -> bool
    ensures { result ≡ names_group who.now }
{
    match who {
        Some(who) => is_group(who.kind),
        None => false,
    }
}

/// Whether two lines name the same group.
fn name_one_group(a: &Option<Who>, b: &Option<Who>) -> bool
    ensures group { IsTrue result → names_group a.now ≡ true }
    ensures same { IsTrue result → a.now ≡ b.now }
{
    names_group(a) && a == b
}

/// The first of the lines at these places that speaks of the client. The group that was looked up last isn't looked up
/// again, so many lines of one group take about the time of one; any other name is compared with the client alone.
fn first_at(groups: &Roster, client: &Client, lines: &[RuleLine], places: &[usize]) -> Option<u32>
    requires { AreThere lines.now places.now }
    ensures { result ≡ option_map number_of_line (find (applies groups.now client.now) (lines_at lines.now places.now)) }
{
    let mut passed = None;
    for place in places {
        let line = &lines[*place];
        if !name_one_group(&line.who, &passed) {
            if applies(groups, client, line) {
                return Some(line.line);
            }
            if names_group(&line.who) {
                passed = line.who;
            }
        }
    }
    None
}

/// The places of the lines of this kind of the feature's pools, in their order.
fn places_of(
    alloc: Global,
    lines: &[RuleLine],
    feature: &Name,
    barring: Barring,
) -> Result<Vec<usize>, NoMemory>
    ensures found { IfOk result (λ places. lines_at lines.now places.items ≡ filter (bars barring feature.now) lines.now) }
    ensures there { IfOk result (λ places. AreThere lines.now places.items) }
{
    let mut places = Vec::new(alloc);
    for place in 0..lines.len() {
        if bars(barring, feature, &lines[place]) {
            places.push(place)?;
        }
    }
    Ok(places)
}

/// The places of those among the lines at these places that name a group, and those of the others by the prints of what
/// they name.
fn sorted(
    alloc: Global,
    lines: &[RuleLine],
    places: &[usize],
) -> Result<(Vec<usize>, Vec<Printed>), NoMemory>
    requires { AreThere lines.now places.now }
    ensures there { IfOk result (λ kept. AreThere lines.now kept.0.items) }
    ensures groups { IfOk result (λ kept. lines_at lines.now kept.0.items ≡ grouped_of (lines_at lines.now places.now)) }
    ensures others { IfOk result (λ kept. kept.1.items ≡ printed_of lines.now places.now) }
{
    let mut grouped = Vec::new(alloc);
    let mut printed = Vec::new(alloc);
    for place in places {
        match &lines[*place].who {
            None => {}
            Some(who) => {
                if is_group(who.kind) {
                    grouped.push(*place)?;
                } else {
                    printed.push(Printed {
                        print: name_print(who.name.bytes()),
                        place: *place,
                    })?;
                }
            }
        }
    }
    Ok((grouped, printed))
}

impl ChosenLines {
    /// The lines of this kind of the feature's pools, in their order.
    pub(crate) fn of(
        alloc: Global,
        all: &RuleLines,
        feature: &Name,
        barring: Barring,
    ) -> Result<ChosenLines, NoMemory>
        ensures { IfOk result (λ found. found ≡ filter (bars barring feature.now) all.now) }
    {
        let places = places_of(alloc, all.as_slice(), feature, barring)?;
        ChosenLines::at_places(alloc, all, places)
    }

    /// The lines at these places.
    fn at_places(
        alloc: Global,
        all: &RuleLines,
        places: Vec<usize>,
    ) -> Result<ChosenLines, NoMemory>
        requires { AreThere all.now places.items }
        ensures { IfOk result (λ chosen. chosen ≡ lines_at all.now places.items) }
    {
        let (grouped, printed) = sorted(alloc, all.as_slice(), places.as_slice())?;
        Ok(ChosenLines {
            all: all.share()?,
            places,
            grouped,
            printed: Prints::of(alloc, printed)?,
        })
    }

    /// How many lines they are.
    pub(crate) fn len(&self) -> usize
        ensures { result ≡ length self.now }
    {
        self.places.len()
    }

    /// The line at a place among them.
    pub(crate) fn at(&self, i: usize) -> &RuleLine
        requires { i < length self.now }
        ensures { slice_get self.now i ≡ Some result.now }
    {
        let lines = self.all.as_slice();
        &lines[self.places[i]]
    }

    /// The number of the first that speaks of the client. Where none has a name of the client's, which one look at each
    /// name mostly tells, those alone are gone through that name a group.
    pub(crate) fn first_applying(&self, groups: &Roster, client: &Client) -> Option<u32>
        ensures { result ≡ option_map number_of_line (find (applies groups.now client.now) self.now) }
    {
        if self.places.is_empty() {
            return None;
        }
        let lines = self.all.as_slice();
        if may_name(&self.printed, client) {
            first_at(groups, client, lines, self.places.as_slice())
        } else {
            first_at(groups, client, lines, self.grouped.as_slice())
        }
    }

    /// Whether the line to which a name leads speaks of the client.
    fn leads_to_one(&self, name: &Name, groups: &Roster, client: &Client) -> bool
        ensures { IsTrue result → list_any (applies groups.now client.now) self.now ≡ true }
    {
        let lines = self.all.as_slice();
        match self.printed.place_of(name) {
            Some(place) => applies(groups, client, &lines[place]),
            None => false,
        }
    }

    /// Whether one of them speaks of the client. One that names it alone is looked up first.
    pub(crate) fn any_applies(&self, groups: &Roster, client: &Client) -> bool
        ensures { result ≡ list_any (applies groups.now client.now) self.now }
    {
        if self.places.is_empty() {
            return false;
        }
        self.leads_to_one(&client.user, groups, client)
            || self.leads_to_one(&client.host, groups, client)
            || self.leads_to_one(&client.display, groups, client)
            || self.leads_to_one(&client.project, groups, client)
            || self.first_applying(groups, client).is_some()
    }
}

/// Whether one of these has the print of a name of the client.
fn may_name(printed: &Prints, client: &Client) -> bool
    ensures { result ≡ false → AreOthers printed.now client.now }
{
    printed.place_of(&client.user).is_some()
        || printed.place_of(&client.host).is_some()
        || printed.place_of(&client.display).is_some()
        || printed.place_of(&client.project).is_some()
}
