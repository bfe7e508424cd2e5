//! Plain atomic operations on shared words, like those of jobs.

use std::alloc::{AllocError, Global};
use std::sync::atomic::{AtomicU64, Ordering};
use std::thread;
use std::thread::Threads;

/// The words of a lock, of what the lock protects, and of the turns.
#[derive(Default, Drop)]
struct Words {
    lock: AtomicU64,
    bank: AtomicU64,
    turns: AtomicU64,
}

/// Makes the operation of one step of a job, and returns the number found. The job has six steps:
/// it requests a lock, seizes it, reads what the lock protects, takes a turn, changes what the
/// lock protects, and frees the lock. An addition takes the place of each operation on bits.
fn make(words: &Words, step: u32, seen: u64) -> u64 {
    match step % 6 {
        0 => words.lock.fetch_add(1, Ordering::SeqCst),
        1 => match words
            .lock
            .compare_exchange(seen, seen, Ordering::SeqCst, Ordering::SeqCst)
        {
            Ok(found) | Err(found) => found,
        },
        2 => words.bank.load(Ordering::SeqCst),
        3 => words.turns.fetch_add(1, Ordering::SeqCst),
        4 => words.bank.fetch_add(1, Ordering::SeqCst),
        _ => words.lock.fetch_add(1, Ordering::SeqCst),
    }
}

/// Makes `steps` operations, one after another.
fn make_all(words: &Words, steps: u32) -> u64 {
    let mut seen = 0;
    for step in 0..steps {
        seen = make(words, step, seen);
    }
    seen
}

/// Has `count` threads make `steps` plain atomic operations each, on the same three words.
pub fn operate<R: Threads + Sync>(
    rt: &R,
    alloc: Global,
    count: u32,
    steps: u32,
) -> Result<(), AllocError> {
    let words = Words::default();
    let _seen = thread::map_indices(rt, alloc, count as usize, &|_| make_all(&words, steps))?;
    Ok(())
}
