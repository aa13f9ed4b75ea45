//! Tests of the lock, the log, the board and the desk.
mod boards;
mod desks;
mod locks;
mod logs;

use lic_types::{Client, Name};
use std::test::Fail;

/// A client of this user, on host h1.
fn client(user: &[u8]) -> Result<Client, Fail> {
    Ok(Client {
        user: Name::read(user)?,
        host: Name::read(b"h1")?,
        display: Name::read(b"d1")?,
        project: Name::read(b"p1")?,
    })
}
