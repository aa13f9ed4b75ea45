ghost use Rattle.std.specs.Prelude.{◌≡◌, ◌<◌, ◌≤◌, IfSome, length, not};
ghost use Rattle.std.specs.List.{position_from};
ghost use Rattle.lic_types.specs.Name.{IsName, is_name_byte, name_of};

use crate::name::{Name, NameFault};
use std::marker::Model;

/// A name as it stands in a text: a slice of the text, with no copy of its bytes. A clause sees it as it sees a
/// [`Name`], as the list of its bytes.
#[derive(Drop)]
pub struct NameRef<'a> {
    bytes: &'a [u8],
}

impl<'a> Model for NameRef<'a> {
    ghost use Rattle.std.specs.Prelude.{List, ℕ};
    ghost use Rattle.lic_types.specs.Name.{IsName};

    ghost Value = { List ℕ };

    ghost view = { λ n. n.bytes.now };

    ghost invariant = { λ n. IsName n.bytes.now };
}

fn is_name_byte(b: u8) -> bool
    ensures { result ≡ is_name_byte b }
{
    33 <= b && b <= 126
}

/// The first byte that no name has.
fn first_bad(word: &[u8]) -> Option<usize>
    ensures first { result ≡ position_from (λ b. not (is_name_byte b)) 0 word.now }
    ensures within { IfSome result (λ at. at < length word.now) }
{
    word.iter().position(|b| !is_name_byte(*b))
}

impl<'a> NameRef<'a> {
    /// The name that a word spells: the word itself, or its first fault.
    pub fn read(word: &'a [u8]) -> Result<NameRef<'a>, NameFault>
        ensures { result ≡ name_of word.now }
    {
        if word.is_empty() {
            return Err(NameFault::Empty);
        }
        if word.len() > 64 {
            return Err(NameFault::TooLong);
        }
        match first_bad(word) {
            Some(at) => Err(NameFault::BadByte(at as u32)),
            None => Ok(NameRef { bytes: word }),
        }
    }

    /// Its bytes, in order.
    pub fn bytes(&self) -> &'a [u8]
        ensures bytes { result.now ≡ self.now }
        ensures name { IsName self.now }
    {
        self.bytes
    }

    /// The name with a copy of its bytes.
    pub fn name(&self) -> Name
        ensures { result ≡ self.now }
    {
        Name::of_bytes(self.bytes)
    }
}
