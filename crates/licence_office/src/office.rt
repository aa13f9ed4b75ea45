//! An office, as those see it who work there.
ghost use Rattle.std.specs.Prelude.{◌≡◌};

use crate::closing::OfficeEnd;
use crate::logs::DeskEnd;
use feature_desk::{Desk, DeskPass};
use office_view::OfficeView;
use std::marker::Model;

/// A party's passes, one for each desk, in order.
pub type OfficePass = Vec<DeskPass>;

/// The desks that were opened, with what their end takes.
pub(crate) struct Opened {
    // In the order of the pools.
    pub(crate) desks: Vec<Desk>,
    // One for each desk.
    pub(crate) ends: Vec<DeskEnd>,
    // Empty, with room for what each desk tells.
    pub(crate) told: OfficeEnd,
}

/// The desks of all pools of a licence, which threads share by reference.
///
/// Contracts see it as an `OfficeSeen`: the `view` of its pools and desks, and the number of its `parties`. It can't be
/// dropped, since its desks can't: [`Office::close_with_log`] or [`Office::close`] ends it.
pub struct Office {
    pub(crate) view: OfficeView<Desk>,
    pub(crate) parties: u32,
}

impl Model for Office {
    ghost use Rattle.licence_office.specs.Offices.{OfficeSeen};
    ghost use Rattle.licence_office.specs.Rooms.{IsOffice};

    ghost Value = { OfficeSeen };

    ghost view = { λ o. record { view = o.view; parties = o.parties } };

    ghost invariant = { IsOffice };
}

impl Office {
    /// The pools with their desks, for sessions.
    pub fn view(&self) -> &OfficeView<Desk>
        ensures { result.now ≡ self.now.view }
    {
        &self.view
    }

    /// The number of parties, each of which has one pass of each desk.
    pub fn parties(&self) -> u32
        ensures { result ≡ self.now.parties }
    {
        self.parties
    }
}
