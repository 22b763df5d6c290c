// A gate at which two workers wait for each other, as one worker after another cannot.
use office_http::Gate;
use std::sync::atomic::{AtomicBool, Ordering};
use std::thread;

/// How often a worker looks whether it may go on, before it gives up.
const TRIES: u32 = 100_000_000;

/// It notes which of the four calls came for message 1 of worker 0 and of worker 1. Worker 0 waits before it, until worker 1 is done; and worker 1 waits before
/// it, until worker 0 is there.
#[derive(Drop)]
pub struct Handover {
    first_before: AtomicBool,
    first_after: AtomicBool,
    second_before: AtomicBool,
    second_after: AtomicBool,
    gave_up: AtomicBool,
}

impl Handover {
    /// A gate through which nobody came.
    pub fn new() -> Handover {
        Handover {
            first_before: AtomicBool::new(false),
            first_after: AtomicBool::new(false),
            second_before: AtomicBool::new(false),
            second_after: AtomicBool::new(false),
            gave_up: AtomicBool::new(false),
        }
    }

    /// Whether all four calls came, and no worker gave up.
    pub fn all_came(&self) -> bool {
        is_set(&self.first_before)
            && is_set(&self.first_after)
            && is_set(&self.second_before)
            && is_set(&self.second_after)
            && !is_set(&self.gave_up)
    }

    /// Waits until a call was noted.
    fn wait_for(&self, noted: &AtomicBool) {
        for _ in 0..TRIES {
            if is_set(noted) {
                return;
            }
            thread::yield_now();
        }
        self.gave_up.store(true, Ordering::SeqCst);
    }
}

/// Whether a call was noted.
fn is_set(noted: &AtomicBool) -> bool {
    noted.load(Ordering::SeqCst)
}

impl Gate for Handover {
    fn before(&self, worker: u32, message: u32) {
        match (worker, message) {
            (0, 1) => {
                self.first_before.store(true, Ordering::SeqCst);
                self.wait_for(&self.second_after);
            }
            (1, 1) => {
                self.second_before.store(true, Ordering::SeqCst);
                self.wait_for(&self.first_before);
            }
            _ => {}
        }
    }

    fn after(&self, worker: u32, message: u32) {
        match (worker, message) {
            (0, 1) => self.first_after.store(true, Ordering::SeqCst),
            (1, 1) => self.second_after.store(true, Ordering::SeqCst),
            _ => {}
        }
    }
}
