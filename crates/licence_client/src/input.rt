//! The bell that the end of standard input rings.
use daemon_outside::SharedBell;
use session_outside::Bell;
use std::alloc::Global;
use std::io::{ErrorKind, Read};
use std::sync::Arc;
use std::sync::atomic::AtomicU64;
use std::thread::{Threads, spawn};

/// Reads to the end, or to a read that fails.
fn read_out<I: Read>(input: &mut I) {
    let mut room = [0u8; 512];
    for _ in 0..u64::MAX {
        match input.read(&mut room) {
            Ok(0) => return,
            Ok(_) => {}
            Err(error) if error.kind() == ErrorKind::Interrupted => {}
            Err(_) => return,
        }
    }
}

/// A bell that rings once the input has ended. A thread of its own reads the input; it isn't waited for, since it may
/// wait for its input when the program ends. `None` comes where there was no memory or no thread for it.
pub fn bell_at_end<T: Threads, I: Read + Send + Drop + 'static>(
    threads: &T,
    alloc: Global,
    input: I,
) -> Option<SharedBell> {
    let flag = Arc::new(alloc, AtomicU64::new(0)).ok()?;
    let mut ringer = SharedBell::of(Arc::try_clone(&flag).ok()?);
    let mut input = input;
    let reader = move || {
        read_out(&mut input);
        ringer.ring();
    };
    match spawn(threads, reader) {
        Ok(_) => Some(SharedBell::of(flag)),
        Err(_) => None,
    }
}
