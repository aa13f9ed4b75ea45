use crate::name::Name;

/// Who asks for a licence. A client states all four itself, and nothing checks what it states (this project).
#[derive(Clone, Copy, Debug, PartialEq, Eq)]
pub struct Client {
    /// The user.
    pub user: Name,
    /// The host on which the program runs.
    pub host: Name,
    /// The display that shows it.
    pub display: Name,
    /// The project that the work is for.
    pub project: Name,
}

/// What the name of a rule line is the name of: the types of the options file (FlexNet License Administration Guide,
/// chapter on the options file). `USER_GROUP` is read as `GROUP` (this project).
#[derive(Clone, Copy, Debug, PartialEq, Eq)]
pub enum WhoKind {
    /// The user of that name.
    User,
    /// The host of that name.
    Host,
    /// The display of that name.
    Display,
    /// The project of that name.
    Project,
    /// The users that the GROUP lines of that name list.
    Group,
    /// The hosts that the HOST_GROUP lines of that name list.
    HostGroup,
}

/// Whom a rule line speaks of.
#[derive(Clone, Copy, Debug, PartialEq, Eq)]
pub struct Who {
    /// What the name is the name of.
    pub kind: WhoKind,
    /// The name.
    pub name: Name,
}

/// What a rule line says (FlexNet License Administration Guide, chapter on the options file).
#[derive(Clone, Copy, Debug, PartialEq, Eq)]
pub enum Rule {
    /// Only those that an include line speaks of get a licence.
    Include,
    /// Those that it speaks of get none.
    Exclude,
    /// Those that it speaks of have this many licences together at most.
    Max(u32),
    /// This many licences are kept for those that it speaks of.
    Reserve(u32),
    /// A seat that is given back lingers for this many seconds.
    Linger(u64),
    /// A holder that isn't heard for this many seconds loses its seat. The number is kept as the file has it.
    Timeout(u64),
}

/// One rule of an options file.
#[derive(Clone, Copy, Debug, PartialEq, Eq)]
pub struct RuleLine {
    /// Its physical line in the file, from 1.
    pub line: u32,
    /// The feature that it speaks of, or `None` for all features, as in the ALL forms.
    pub feature: Option<Name>,
    /// What it says.
    pub rule: Rule,
    /// Whom it speaks of, or `None` where it names nobody, as LINGER and TIMEOUT do.
    pub who: Option<Who>,
}
