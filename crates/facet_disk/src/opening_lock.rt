use std::cell::Cell;
use std::fs::File;
use std::io;

/// Keeps openings and commits of different processes apart. Many openings may hold it at once, and a commit holds it
/// alone. Its parts are locks of the operating system, which end with the process.
///
/// These locks are not fair. So there is a second one, which is held only while waiting for the first: openings that
/// begin while a commit waits, wait for it, and cannot keep it waiting for ever.
#[derive(Drop)]
pub(crate) struct OpeningLock {
    queue: Option<File>,
    inside: File,
    is_held: Cell<bool>,
}

impl OpeningLock {
    /// Returns the lock of two open folders, held by nobody in this process. Without a queue it is not fair.
    pub(crate) fn new(queue: Option<File>, inside: File) -> OpeningLock {
        OpeningLock {
            queue,
            inside,
            is_held: Cell::new(false),
        }
    }

    /// Takes the lock for an opening, unless it is held. Waits while a commit holds it.
    pub(crate) fn take_shared(&self) -> io::Result<()> {
        if self.is_held.get() {
            return Ok(());
        }
        if let Some(queue) = &self.queue {
            queue.lock_shared()?;
        }
        let taken = self.inside.lock_shared();
        self.end_taking(taken)
    }

    /// Takes the lock for a commit, unless it is held. Waits while an opening holds it.
    pub(crate) fn take_alone(&self) -> io::Result<()> {
        if self.is_held.get() {
            return Ok(());
        }
        if let Some(queue) = &self.queue {
            queue.lock()?;
        }
        let taken = self.inside.lock();
        self.end_taking(taken)
    }

    // Leaves the queue, also if the lock was not taken.
    fn end_taking(&self, taken: io::Result<()>) -> io::Result<()> {
        if let Some(queue) = &self.queue {
            queue.unlock()?;
        }
        taken?;
        self.is_held.set(true);
        Ok(())
    }

    /// Releases the lock, if it is held. If the system does not release it, it is held until the process ends.
    pub(crate) fn release(&self) {
        if self.is_held.get() && self.inside.unlock().is_ok() {
            self.is_held.set(false);
        }
    }
}
