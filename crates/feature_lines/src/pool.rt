use lic_types::{Expiry, Name, Version};

/// A pool of licences: all that the lines of one name, version and expiry grant together.
#[derive(Clone, Copy, Debug, PartialEq, Eq)]
pub struct Pool {
    /// The feature.
    pub name: Name,
    /// The highest version that the pool is good for.
    pub version: Version,
    /// The version as the pool's first line writes it.
    pub version_text: Name,
    /// The vendor that the pool's first line names.
    pub vendor: Name,
    /// How long the pool is good.
    pub expiry: Expiry,
    /// How many licences it has, from 1 to 65,535: the sum of its lines.
    pub count: u32,
    /// The physical line of its first line, from 1.
    pub line: u32,
}
