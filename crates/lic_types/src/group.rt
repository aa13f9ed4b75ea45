ghost use Rattle.std.specs.Prelude.{◌≡◌};
ghost use Rattle.lic_types.specs.Groups.{GroupLine};

use crate::name::Name;
use std::marker::Model;

/// A GROUP line of an options file, which lists users, or a HOST_GROUP line, which lists hosts (FlexNet License
/// Administration Guide, chapter on the options file). Lines of one kind and name count together.
#[derive(Debug, Drop)]
pub struct Group {
    line: u32,
    of_hosts: bool,
    name: Name,
    members: Vec<Name>,
}

impl Model for Group {
    ghost use Rattle.lic_types.specs.Groups.{GroupLine};

    ghost Value = { GroupLine };

    ghost view = { λ g. record { line = g.line; of_hosts = g.of_hosts; name = g.name; members = g.members.items } };
}

impl Group {
    /// The GROUP line, or the HOST_GROUP line where `of_hosts`, at this physical line, of this name and with these
    /// members.
    pub fn of(line: u32, of_hosts: bool, name: Name, members: Vec<Name>) -> Group
        ensures { result ≡ record { line = line; of_hosts = of_hosts; name = name; members = members.items } }
    {
        Group {
            line,
            of_hosts,
            name,
            members,
        }
    }

    /// Its physical line in the file, from 1.
    pub fn line(&self) -> u32
        ensures { result ≡ self.now.line }
    {
        self.line
    }

    /// Whether it is a HOST_GROUP line.
    pub fn of_hosts(&self) -> bool
        ensures { result ≡ self.now.of_hosts }
    {
        self.of_hosts
    }

    /// Its name.
    pub fn name(&self) -> &Name
        ensures { result.now ≡ self.now.name }
    {
        &self.name
    }

    /// The names that it lists.
    pub fn members(&self) -> &[Name]
        ensures { result.now ≡ self.now.members }
    {
        self.members.as_slice()
    }
}
