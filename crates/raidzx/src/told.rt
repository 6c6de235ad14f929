// How a sync goes that a thread of its own makes.

use bank_trait::Failed;
use std::fs::File;
use std::sync::atomic::{AtomicBool, Ordering};
use std::sync::{Arc, Wait};
use std::thread::{self, Parker, Threads};

/// What the thread of a sync tells whoever waits for its end: one sync at a time.
#[derive(Drop)]
pub struct Told {
    failed: AtomicBool,
    ended: Parker,
}

impl Told {
    pub fn new() -> Told {
        Told {
            failed: AtomicBool::new(false),
            ended: Parker::new(),
        }
    }

    fn tell(&self, failed: bool) {
        self.failed.store(failed, Ordering::SeqCst);
        self.ended.unpark();
    }

    /// Waits until the sync that was begun has ended. Once for each one alone: a second wait would have no end.
    pub fn wait<R: Wait>(&self, rt: &R) -> Result<(), Failed> {
        self.ended.park(rt);
        if self.failed.load(Ordering::SeqCst) {
            return Err(Failed);
        }
        Ok(())
    }
}

/// Begins a sync of this file in a thread of its own, and tells whether it did: there may be no descriptor, no memory
/// and no thread for it. The thread has a descriptor of its own, which it gives back before it tells of the end. It is
/// not joined, since its end is told.
pub fn sync_beside<R: Threads>(rt: &R, file: &File, told: &Arc<Told>) -> bool {
    let Ok(file) = file.try_clone() else {
        return false;
    };
    let Ok(told) = Arc::try_clone(told) else {
        return false;
    };
    let begun = thread::spawn(rt, move || {
        let failed = file.sync_data().is_err();
        drop(file);
        told.tell(failed);
    });
    begun.is_ok()
}
