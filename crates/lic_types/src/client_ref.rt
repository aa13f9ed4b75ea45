ghost use Rattle.std.specs.Prelude.{◌≡◌};

use crate::client::Client;
use crate::name_ref::NameRef;
use std::marker::Model;

/// Who asks for a licence, by names as they stand in a text. A clause sees it as the [`Client`] of these names.
#[derive(Drop)]
pub struct ClientRef<'a> {
    user: NameRef<'a>,
    host: NameRef<'a>,
    display: NameRef<'a>,
    project: NameRef<'a>,
}

impl<'a> Model for ClientRef<'a> {
    ghost use Rattle.lic_types.specs.declared.client.Client.{Client};

    ghost Value = { Client };

    ghost view = { λ c. record { user = c.user; host = c.host; display = c.display; project = c.project } };
}

impl<'a> ClientRef<'a> {
    /// The client of these four names.
    pub fn of(
        user: NameRef<'a>,
        host: NameRef<'a>,
        display: NameRef<'a>,
        project: NameRef<'a>,
    ) -> ClientRef<'a>
        ensures { result ≡ record { user = user.entry; host = host.entry; display = display.entry; project = project.entry } }
    {
        ClientRef {
            user,
            host,
            display,
            project,
        }
    }

    /// The client with copies of the names.
    pub fn client(&self) -> Client
        ensures { result ≡ self.now }
    {
        Client {
            user: self.user.name(),
            host: self.host.name(),
            display: self.display.name(),
            project: self.project.name(),
        }
    }
}
