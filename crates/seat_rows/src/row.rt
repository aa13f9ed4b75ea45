//! The row of a party.
ghost use Rattle.std.specs.Prelude.{◌≡◌, None, Some, is_some, true};
ghost use Rattle.std.specs.Option.{option_copied, option_map};
ghost use Rattle.options_machine.specs.declared.rows.Holder.{Holder};
ghost use Rattle.options_machine.specs.Apply.{told_if};
ghost use Rattle.seat_rows.specs.Seats.{charged_if};

use lic_types::Client;
use options_machine::{Charge, Holder};
use std::marker::Model;

/// With the eight bytes in which a row ends this is a line of 64 bytes.
const APART: usize = 7;

/// The seat of a party, if it has one, which is what a clause sees. A seat that goes leaves its holder behind: so it
/// takes one mark to empty a row, and the holder's names, which may fill six lines of the processor's, stay as they are.
#[derive(Drop)]
pub struct Row {
    is_held: bool,
    // Who holds the seat, or held the last.
    holder: Option<Holder>,
    // What lies between two rows, so that no line of a processor's memory has parts of both: each party's requests write
    // at both ends of its row.
    apart: [u64; APART],
}

impl Model for Row {
    ghost use Rattle.std.specs.Prelude.{Option};
    ghost use Rattle.options_machine.specs.declared.rows.Holder.{Holder};
    ghost use Rattle.seat_rows.specs.Rows.{held_by};

    ghost Value = { Option Holder };

    ghost view = { λ r. held_by r.is_held r.holder };
}

impl Row {
    /// The row of a party that has no seat.
    pub fn vacant() -> Row
        ensures { result ≡ None }
    {
        Row {
            is_held: false,
            holder: None,
            apart: [0; APART],
        }
    }

    /// The party's seat; `None` where it has none.
    pub fn holder(&self) -> Option<&Holder>
        ensures { option_copied result ≡ self.now }
    {
        if self.is_held {
            self.holder.as_ref()
        } else {
            None
        }
    }

    /// Gives the party a seat of this client, with this charge. It was heard at the moment `beat`, in seconds since
    /// 1970-01-01 UTC, and it was told of the seat or not. The names are written where those of the last holder are.
    pub fn put(&mut self, party: u32, client: &Client, charge: Charge, beat: u64, told: bool)
        ensures { self.new ≡ Some (record { party = party; client = client.now; charge = charge; beat = beat; told = told }) }
    {
        match &mut self.holder {
            None => {
                self.holder = Some(Holder {
                    party,
                    client: *client,
                    charge,
                    beat,
                    told,
                });
            }
            Some(holder) => {
                holder.client = *client;
                holder.party = party;
                holder.charge = charge;
                holder.beat = beat;
                holder.told = told;
            }
        }
        self.is_held = true;
    }

    /// Takes the party's seat away, if it has one.
    pub fn clear(&mut self)
        ensures { self.new ≡ None }
    {
        self.is_held = false;
    }

    /// Tells the party of its seat, or hears it, at this moment, in seconds since 1970-01-01 UTC, and says whether it has
    /// one. Nothing changes where it has none.
    pub fn tell(&mut self, now: u64) -> bool
        ensures told { self.new ≡ option_map (λ h. told_if true now h) self.old }
        ensures held { result ≡ is_some self.old }
    {
        if !self.is_held {
            return false;
        }
        let Some(holder) = &mut self.holder else {
            return false;
        };
        holder.told = true;
        holder.beat = now;
        true
    }

    /// Charges the party's seat anew. Nothing changes where it has none.
    pub fn set_charge(&mut self, charge: Charge)
        ensures { self.new ≡ option_map (λ h. charged_if true charge h) self.old }
    {
        if let Some(holder) = &mut self.holder {
            holder.charge = charge;
        }
    }
}
