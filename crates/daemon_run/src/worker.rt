//! One worker.
use daemon_outside::Post;
use door_worker::DoorEnd;

/// One worker: its party's counters, its post, and how it ended.
#[derive(Drop)]
pub struct Worker<P, D, K, B, G> {
    /// Its party's counters, one for each desk.
    pub pass: P,
    /// Its post.
    pub post: Post<D, K, B, G>,
    /// How it ended.
    pub end: DoorEnd,
}
