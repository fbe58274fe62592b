//! How a lock is taken: it is tried for a while before a thread waits.

use crate::limits::{PAUSES, TRIES};
use std::hint::spin_loop;
use std::sync::{RwLock, RwLockReadGuard, RwLockWriteGuard, Wait};
use std::thread::yield_now;

// Waits before the lock is tried again: for a pause that doubles with each turn, and then until
// other threads had their turn.
fn give_way(turn: u32) {
    if turn < PAUSES {
        for _pause in 0..1u32 << turn {
            spin_loop();
        }
    } else {
        yield_now();
    }
}

/// The value to read in.
pub(crate) fn reading<'l, T>(lock: &'l RwLock<T>, rt: &impl Wait) -> RwLockReadGuard<'l, T> {
    for turn in 0..TRIES {
        if let Some(value) = lock.try_read() {
            return value;
        }
        give_way(turn);
    }
    lock.read(rt)
}

/// The value to change.
pub(crate) fn writing<'l, T>(lock: &'l RwLock<T>, rt: &impl Wait) -> RwLockWriteGuard<'l, T> {
    for turn in 0..TRIES {
        if let Some(value) = lock.try_write() {
            return value;
        }
        give_way(turn);
    }
    lock.write(rt)
}
