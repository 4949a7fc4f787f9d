use facet_shell::Gate;
use std::sync::atomic::{AtomicBool, Ordering};
use std::thread;

/// Holds one session until another session was answered. It gives up after a number of yields. Session 0 means none.
#[derive(Drop)]
pub struct HoldsOne {
    held: u32,
    is_answered: AtomicBool,
    gave_up: AtomicBool,
}

impl HoldsOne {
    /// Holds this session, or none for 0.
    pub fn new(held: u32) -> HoldsOne {
        HoldsOne {
            held,
            is_answered: AtomicBool::new(false),
            gave_up: AtomicBool::new(false),
        }
    }

    /// Returns whether it gave up.
    pub fn gave_up(&self) -> bool {
        self.gave_up.load(Ordering::SeqCst)
    }
}

impl Gate for HoldsOne {
    fn before(&self, session: u32, _line: u64) {
        if session != self.held {
            return;
        }
        for _ in 0..100_000_000u32 {
            if self.is_answered.load(Ordering::SeqCst) {
                return;
            }
            thread::yield_now();
        }
        self.gave_up.store(true, Ordering::SeqCst);
    }

    fn after(&self, session: u32, _line: u64) {
        if session != self.held {
            self.is_answered.store(true, Ordering::SeqCst);
        }
    }
}
