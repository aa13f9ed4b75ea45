//! Who a client says it is.
use lic_types::NameFault;

/// Which word of a HELLO.
#[derive(Clone, Copy, Debug, PartialEq, Eq)]
pub enum ClientWord {
    /// The user.
    User,
    /// The host.
    Host,
    /// The display.
    Display,
    /// The project.
    Project,
}

/// A word of a HELLO that is no name.
#[derive(Clone, Copy, Debug, PartialEq, Eq)]
pub struct BadWord {
    /// Which one.
    pub word: ClientWord,
    /// Why it is none.
    pub fault: NameFault,
}

/// The words of a HELLO.
#[derive(Clone, Copy, Debug, PartialEq, Eq)]
pub struct Client<'a> {
    /// The user.
    pub user: &'a str,
    /// The host.
    pub host: &'a str,
    /// The display.
    pub display: &'a str,
    /// The project.
    pub project: &'a str,
}
