ghost use Rattle.std.specs.Prelude.{◌≡◌, ◌≤◌, length};
ghost use Rattle.lic_types.specs.Name.{IsName, filled_room, name_of};

use crate::name_ref::NameRef;
use crate::same::same_bytes;
use std::cmp::Ordering;
use std::fmt;
use std::fmt::Write;
use std::marker::Model;
use thiserror::Error;

/// Why a word is no name. The faults are tried in this order.
#[derive(Clone, Copy, Debug, PartialEq, Eq, Error)]
pub enum NameFault {
    /// It has no byte.
    #[error("an empty name")]
    Empty,
    /// It has more than 64 bytes.
    #[error("a name of more than 64 bytes")]
    TooLong,
    /// The byte at this offset, counted from 0, is the first that isn't from 33 to 126.
    #[error("a name with a bad byte at {0}")]
    BadByte(u32),
}

/// The name of a feature, a vendor, a user, a host, a display, a project or a group: 1 to 64 bytes from 33 to 126,
/// which a clause sees as their list. Names are compared as exact bytes, and are in the order of their bytes (this
/// project).
#[derive(Clone, Copy)]
pub struct Name {
    len: u8,
    room: [u8; 64],
}

impl Model for Name {
    ghost use Rattle.std.specs.Prelude.{List, ℕ, length, take, ◌++◌, replicate, ◌-◌};
    ghost use Rattle.lic_types.specs.NameRoom.{IsStored, from_bytes, room_again};

    ghost Value = { List ℕ };

    ghost view = { λ n. take n.len n.room };

    ghost invariant = { λ n. IsStored n.len n.room };

    ghost inverse = { from_bytes };

    ghost inverse_ok = { room_again };
}

impl PartialEq for Name {
    ghost use Rattle.std.specs.Prelude.{nat_eq};
    ghost use Rattle.std.specs.Cmp.Lexicographic.{pointwise, nat_list_eq_equiv};
    ghost use Rattle.std.specs.Cmp.{partial_equiv_from_equiv};

    ghost eq = { pointwise nat_eq };

    ghost laws = { partial_equiv_from_equiv nat_list_eq_equiv };

    fn eq(&self, other: &Self) -> bool {
        same_bytes(self.bytes(), other.bytes())
    }
}

impl PartialOrd for Name {
    ghost use Rattle.std.specs.Prelude.{Some};
    ghost use Rattle.std.specs.Cmp.Lexicographic.{slice_cmp, texts_po};
    ghost use Rattle.std.specs.Ordering.{nat_cmp};

    ghost partial_cmp = { λ x y. Some (slice_cmp nat_cmp x y) };

    ghost laws = { texts_po };

    fn partial_cmp(&self, other: &Self) -> Option<Ordering> {
        Some(self.cmp(other))
    }
}

impl Ord for Name {
    ghost use Rattle.std.specs.Prelude.{refl};
    ghost use Rattle.std.specs.Cmp.Lexicographic.{nat_list_cmp_total, slice_cmp, texts_ties};
    ghost use Rattle.std.specs.Ordering.{nat_cmp};

    ghost cmp = { slice_cmp nat_cmp };

    ghost total = { nat_list_cmp_total };

    ghost matches_partial_cmp = { λ x y. refl };

    ghost matches_eq = { texts_ties };

    fn cmp(&self, other: &Self) -> Ordering {
        self.bytes().cmp(other.bytes())
    }
}

impl fmt::Display for Name {
    fn fmt<W: fmt::Write>(&self, f: &mut fmt::Formatter<W>) -> fmt::Result {
        for byte in self.bytes() {
            f.write_char(char::from(*byte))?;
        }
        Ok(())
    }
}

impl fmt::Debug for Name {
    fn fmt<W: fmt::Write>(&self, f: &mut fmt::Formatter<W>) -> fmt::Result {
        write!(f, "Name({self})")
    }
}

impl Eq for Name {
    ghost use Rattle.std.specs.Cmp.Lexicographic.{nat_list_eq_equiv};

    ghost laws = { nat_list_eq_equiv };
}

/// The word, and zeros after it.
fn room_of(word: &[u8]) -> [u8; 64]
    requires { length word.now ≤ 64 }
    ensures { result ≡ filled_room word.now }
{
    let mut room = [0u8; 64];
    room[..word.len()].copy_from_slice(word);
    room
}

impl Name {
    /// The name that a word spells: the same bytes, or the first fault of the word.
    pub fn read(word: &[u8]) -> Result<Name, NameFault>
        ensures { result ≡ name_of word.now }
    {
        match NameRef::read(word) {
            Ok(name) => Ok(name.name()),
            Err(fault) => Err(fault),
        }
    }

    /// The name of these bytes.
    pub(crate) fn of_bytes(bytes: &[u8]) -> Name
        requires { IsName bytes.now }
        ensures { result ≡ bytes.now }
    {
        Name {
            len: bytes.len() as u8,
            room: room_of(bytes),
        }
    }

    /// Its bytes, in order.
    pub fn bytes(&self) -> &[u8]
        ensures bytes { result.now ≡ self.now }
        ensures name { IsName self.now }
    {
        &self.room[..self.len as usize]
    }
}
