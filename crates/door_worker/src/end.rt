//! How a worker ends.
/// How a worker at a door ended.
#[derive(Clone, Copy, Debug, PartialEq, Eq)]
pub enum DoorEnd {
    /// The bell had rung, where nothing came for a while or an accept failed.
    Rung,
    /// A thousand accepts failed with no link between them.
    Broken,
}
