use std::alloc::Global;
use std::sync::Arc;
use std::sync::atomic::AtomicU64;
use std::sync::atomic::Ordering::SeqCst;

/// One of the connections that are open.
pub struct Open {
    count: Arc<AtomicU64, Global>,
}

impl Open {
    /// Counts one more, or nothing where there are `most` already.
    pub fn count(count: &Arc<AtomicU64, Global>, most: u64) -> Option<Open> {
        let count = Arc::try_clone(count).ok()?;
        let before = count.fetch_add(1, SeqCst);
        let open = Open { count };
        if before < most { Some(open) } else { None }
    }
}

// One that ends is open no more.
impl Drop for Open {
    fn drop(self) {
        let Open { count } = self;
        count.fetch_sub(1, SeqCst);
    }
}
