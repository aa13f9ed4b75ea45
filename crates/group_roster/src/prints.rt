//! Numbers made of names, by which a name is looked up among many.
ghost use Rattle.std.specs.Prelude.{◌≡◌, ◌<◌, ◌%◌, ◌==◌, false, true, IfNone, IfOk, IfSome, IsPermutation};
ghost use Rattle.std.specs.List.{list_any};
ghost use Rattle.group_roster.specs.Listings.{name_print};
ghost use Rattle.group_roster.specs.Printed.{AreMarked, has_print, is_entry, leads_to};

use crate::listing::print_after;
use lic_types::Name;
use no_memory::NoMemory;
use std::alloc::Global;
use std::marker::Model;

/// How many marks there are for each name: so one in nine of the names that are none of theirs is looked for in vain.
const MARKS_EACH: usize = 8;

/// The print of the name of these bytes: a number made of them, which differs for most names that differ.
pub fn name_print(name: &[u8]) -> u64
    ensures { result ≡ name_print name.now }
{
    print_after(0, name)
}

/// The print of a name, and a place to which the name leads.
#[derive(Clone, Copy)]
pub struct Printed {
    /// The print.
    pub print: u64,
    /// The place.
    pub place: usize,
}

/// Names by their prints, each with a place, which a clause sees as a list. Most are told by one look, at the mark of
/// their print: it points nowhere where the name is none of theirs, and else mostly to the name. The others are looked up
/// in as many steps as the number of names has bits, since those stand in the order of their prints.
#[derive(Drop)]
pub struct Prints {
    sorted: Vec<Printed>,
    // A print's mark is at its remainder by their number. Those of these names point to some of them.
    marks: Vec<Option<u32>>,
}

impl Model for Prints {
    ghost use Rattle.std.specs.Prelude.{List};
    ghost use Rattle.group_roster.specs.Printed.{IsKept};
    ghost use Rattle.group_roster.specs.declared.prints.Printed.{Printed};

    ghost Value = { List Printed };

    ghost view = { λ p. p.sorted.items };

    ghost invariant = { λ p. IsKept p.marks.items p.sorted.items };
}

/// Where the mark of a print is, among so many.
fn mark_at(print: u64, marks: usize) -> usize
    requires { 0 < marks }
    ensures at { result ≡ print % marks }
    ensures within { result < marks }
{
    (print % marks as u64) as usize
}

/// The marks of these names.
fn marks_of(alloc: Global, names: &[Printed]) -> Result<Vec<Option<u32>>, NoMemory>
    ensures { IfOk result (λ marks. AreMarked marks.items names.now) }
{
    let count = names.len().saturating_mul(MARKS_EACH).saturating_add(1);
    let mut marks = vec![in alloc; None; count]?;
    for (at, name) in names.iter().enumerate() {
        marks[mark_at(name.print, count)] = Some(u32::try_from(at).unwrap_or(0));
    }
    Ok(marks)
}

impl Prints {
    /// These names, put in order. It is refused only where there is too little memory.
    pub fn of(alloc: Global, mut names: Vec<Printed>) -> Result<Prints, NoMemory>
        ensures { IfOk result (λ made. IsPermutation names.items made) }
    {
        names.sort_unstable_by_key(|name| name.print);
        let marks = marks_of(alloc, names.as_slice())?;
        Ok(Prints {
            sorted: names,
            marks,
        })
    }

    /// A place to which a name of this print leads; None where there is none, and then the name is none of theirs.
    pub fn place_of(&self, name: &Name) -> Option<usize>
        ensures found { IfSome result (λ place. leads_to name.now place self.now ≡ true) }
        ensures none { IfNone result (has_print name.now self.now ≡ false) }
    {
        let print = name_print(name.bytes());
        let at = self.marks[mark_at(print, self.marks.len())]?;
        match self.sorted.get(at as usize) {
            Some(first) if first.print == print => Some(first.place),
            _ => self.searched(print),
        }
    }

    /// A place to which a name of this print leads, by a search by halves among all of them.
    fn searched(&self, print: u64) -> Option<usize>
        ensures found { IfSome result (λ place. list_any (is_entry print place) self.now ≡ true) }
        ensures none { IfNone result (list_any (λ e. e.print == print) self.now ≡ false) }
    {
        match self.sorted.binary_search_by_key(&print, |name| name.print) {
            Ok(at) => Some(self.sorted[at].place),
            Err(_) => None,
        }
    }
}
