ghost use Rattle.std.specs.Prelude.{◌≡◌, ◌^◌, ◌<◌, ◌≤◌, ◌↔◌, length, true, false, IfErr, OnOk, Ok};
ghost use Rattle.std.specs.List.{list_all, list_any};
ghost use Rattle.lic_text.specs.LinesLeft.{item_view};
ghost use Rattle.lic_text.specs.Reads.{IsFaultOf, Reads};
ghost use Rattle.feature_lines.specs.Draft.{sofar_of};
ghost use Rattle.feature_lines.specs.Line.{said_or_fault};
ghost use Rattle.feature_lines.specs.Steps.{sofar_after_line};
ghost use Rattle.feature_lines.specs.Licence.{are_apart, fault_told, has_licences, licence_of};
ghost use Rattle.feature_lines.specs.Route.{IsThere, is_new_enough, route};
ghost use Rattle.feature_lines.specs.declared.route.Found.TheVariants.{Unknown};

use crate::draft::{Draft, take};
use crate::fault::LicenceFault;
use crate::line::read_line;
use crate::pool::Pool;
use crate::route::{Found, find_pool};
use lic_text::{Line, TextFault, lines};
use lic_types::{Name, Note, Version};
use std::alloc::Global;
use std::collections::BTreeSet;
use std::marker::Model;

/// A licence file that was read: its pools and its notes.
#[derive(Drop)]
pub struct Licence {
    pools: Vec<Pool>,
    notes: Vec<Note>,
}

impl Model for Licence {
    ghost use Rattle.feature_lines.specs.Licence.{ArePools, Contents};

    ghost Value = { Contents };

    ghost view = { λ a. record { pools = a.pools.items; notes = a.notes.items } };

    ghost invariant = { λ a. ArePools a.pools.items };
}

impl Licence {
    /// The pools, in the order of their first lines. There are 64 at most, each has from 1 to 65,535 licences, and no
    /// two are of one name, version and expiry.
    pub fn pools(&self) -> &[Pool]
        ensures pools { result.now ≡ self.now.pools }
        ensures few { length self.now.pools ≤ 64 }
        ensures counts { list_all has_licences self.now.pools ≡ true }
        ensures apart { are_apart self.now.pools ≡ true }
    {
        self.pools.as_slice()
    }

    /// What was noticed of the lines that grant nothing, in the order of the lines.
    pub fn notes(&self) -> &[Note]
        ensures { result.now ≡ self.now.notes }
    {
        self.notes.as_slice()
    }

    /// Which pool serves a checkout of a version of a feature at a moment, in seconds since 1970-01-01 UTC: the first
    /// one of that name, in the order of the file, whose version is at least the asked one and that hasn't expired. A
    /// pool is good to the end of its day in UTC. Versions are compared as decimal numbers (this project).
    pub fn find(&self, name: &Name, version: Version, moment: u64) -> Found
        ensures found { result ≡ route self.now.pools name.now version.key moment }
        ensures there { IsThere (length self.now.pools) result }
        ensures unknown { (result ≡ Unknown) ↔ (list_any (is_new_enough name.now version.key) self.now.pools ≡ false) }
    {
        find_pool(self.pools.as_slice(), name, version, moment)
    }
}

/// Takes the next line.
fn take_line(draft: &mut Draft, line: Result<Line<'_>, TextFault>) -> Result<(), LicenceFault>
    ensures ok { OnOk result (sofar_after_line (sofar_of draft.old) (said_or_fault (item_view line.entry)) ≡ Ok (sofar_of draft.new)) }
    ensures err { IfErr result (IsFaultOf fault_told (sofar_after_line (sofar_of draft.old) (said_or_fault (item_view line.entry)))) }
{
    let said = read_line(line)?;
    take(draft, &said)
}

/// Reads a licence file (the profile of FlexNet's licence lines that is this project's own): its pools and notes, or
/// the fault of its first line at fault. It makes one pass over the file. Want of memory may be answered at any line.
pub fn read_licence(alloc: Global, file: &[u8]) -> Result<Licence, LicenceFault>
    requires { length file.now < 2 ^ 32 }
    ensures { Reads (λ licence. licence) fault_told (licence_of file.now) result }
{
    let mut draft = Draft {
        pools: Vec::new(alloc),
        notes: Vec::new(alloc),
        features: BTreeSet::new(alloc),
    };
    for line in lines(file) {
        take_line(&mut draft, line)?;
    }
    Ok(Licence {
        pools: draft.pools,
        notes: draft.notes,
    })
}
