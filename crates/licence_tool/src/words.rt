ghost use Rattle.std.specs.Prelude.{◌≡◌, ◌≢◌, IfOk, IfErr};
ghost use Rattle.std.specs.IoError.{error_kind};
ghost use Rattle.std.specs.Vec.Iter.{into_iter_items};
ghost use Rattle.licence_tool.specs.Words.{IsRead};

use std::alloc::Global;
use std::env::Args;
use std::io;
use std::io::ErrorKind;

/// What the command line has behind the program's name.
#[derive(Debug, Drop)]
pub enum Words {
    /// These words.
    Text(Vec<String>),
    /// A word that is no UTF-8.
    NotText,
    /// More words than there was memory for.
    NoMemory,
}

/// The words without the first, which is the program's name.
fn behind_first(alloc: Global, args: Args) -> Words
    ensures { IsRead (into_iter_items args) result }
{
    let mut rest = args;
    let _ = rest.next();
    let mut words = Vec::new(alloc);
    while let Some(word) = rest.next() {
        if words.push(word).is_err() {
            return Words::NoMemory;
        }
    }
    Words::Text(words)
}

/// What the command line has, by the outcome of reading it: `NoMemory` where memory was wanted, `NotText` for every
/// other fault.
pub fn words_of(alloc: Global, read: io::Result<Args>) -> Words
    ensures text { IfOk read (λ args. IsRead (into_iter_items args) result) }
    ensures memory { IfErr read (λ fault. error_kind fault ≡ ErrorKind.OutOfMemory → result ≡ Words.NoMemory) }
    ensures not_text { IfErr read (λ fault. error_kind fault ≢ ErrorKind.OutOfMemory → result ≡ Words.NotText) }
{
    match read {
        Ok(args) => behind_first(alloc, args),
        Err(fault) => {
            if fault.kind() == ErrorKind::OutOfMemory {
                Words::NoMemory
            } else {
                Words::NotText
            }
        }
    }
}
