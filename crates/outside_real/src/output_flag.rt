use std::sync::atomic::{AtomicBool, Ordering};

/// True once standard output has failed. A reader that waits for the input looks at it.
#[derive(Drop)]
pub struct OutputFlag {
    has_failed: AtomicBool,
}

impl OutputFlag {
    /// Returns a flag that isn't raised.
    pub fn new() -> OutputFlag {
        OutputFlag {
            has_failed: AtomicBool::new(false),
        }
    }

    pub(crate) fn raise(&self) {
        self.has_failed.store(true, Ordering::SeqCst);
    }

    pub(crate) fn has_failed(&self) -> bool {
        self.has_failed.load(Ordering::SeqCst)
    }
}
