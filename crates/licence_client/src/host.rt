//! The name of this host.
ghost use Rattle.std.specs.Prelude.{◌≡◌, ◌==◌, ◌≤◌, IfOk, IfSome, Some, length, string_bytes};
ghost use Rattle.std.specs.List.{position, position_or_len};
ghost use Rattle.licence_client.specs.Asked.{host_in};

use lic_text::words_in;
use outside::{FileFault, read_all};
use std::alloc::{AllocError, Global};
use std::io::ErrorKind;
use std::rt::Files;
use std::{fs, str};

/// Where the system tells its name.
const HOST_FILE: &str = "/proc/sys/kernel/hostname";

/// The most bytes of that file that are read.
const HOST_LIMIT: usize = 256;

/// Where the first LF stands.
fn first_feed(text: &[u8]) -> Option<usize>
    ensures { result ≡ position (λ b. b == 10) text.now }
{
    text.iter().position(|b| *b == b'\n')
}

/// How many bytes stand before the first LF.
#[tactic(auto, using(lic_text::proofs::Ends::ends))]
fn line_end(text: &[u8]) -> usize
    ensures place { result ≡ position_or_len (λ b. b == 10) text.now }
    ensures within { result ≤ length text.now }
{
    first_feed(text).unwrap_or(text.len())
}

/// The first word of the first line of a text. `None` comes where there is none, or where it is no UTF-8.
fn host_in(alloc: Global, text: &[u8]) -> Result<Option<String>, AllocError>
    ensures { IfOk result (λ host. IfSome host (λ host. host_in text.now ≡ Some (string_bytes host))) }
{
    let Some(word) = words_in(&text[..line_end(text)]).next() else {
        return Ok(None);
    };
    match str::from_utf8(word) {
        Ok(host) => Ok(Some(String::from_str(alloc, host)?)),
        Err(_) => Ok(None),
    }
}

/// The name of this host, where the system tells it.
pub fn system_host(system: &impl Files, alloc: Global) -> Result<Option<String>, AllocError> {
    let mut file = match fs::open(system, HOST_FILE) {
        Ok(file) => file,
        Err(fault) if fault.kind() == ErrorKind::OutOfMemory => return Err(AllocError),
        Err(_) => return Ok(None),
    };
    match read_all(alloc, &mut file, HOST_LIMIT) {
        Ok(text) => host_in(alloc, text.as_slice()),
        Err(FileFault::NoMemory) => Err(AllocError),
        Err(_) => Ok(None),
    }
}
