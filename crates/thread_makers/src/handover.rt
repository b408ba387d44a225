use etcd_types::NoMemory;
use std::alloc::Global;
use std::sync::{Arc, Condvar, Mutex, Wait};

/// What one thread lays for another.
#[derive(Drop)]
pub struct Handover<T> {
    laid: Mutex<Option<T>>,
    told: Condvar,
}

impl<T: Drop> Handover<T> {
    /// Nothing laid yet, for two threads.
    pub fn new(
        alloc: Global,
    ) -> Result<(Arc<Handover<T>, Global>, Arc<Handover<T>, Global>), NoMemory> {
        let one = Arc::new(
            alloc,
            Handover {
                laid: Mutex::new(None),
                told: Condvar::new(),
            },
        )?;
        let other = Arc::try_clone(&one)?;
        Ok((one, other))
    }

    /// Lays a thing, once none lies there.
    pub fn lay<R: Wait>(&self, rt: &R, thing: T) {
        let mut laid = self.laid.lock(rt);
        for _ in rt.forever() {
            if laid.is_none() {
                *laid = Some(thing);
                drop(laid);
                self.told.notify_all();
                return;
            }
            laid = self.told.wait(rt, laid);
        }
        unreachable!()
    }

    /// Takes what is laid, once it is. Its frame is gone while the part runs.
    #[inline(never)]
    pub fn take<R: Wait>(&self, rt: &R) -> T {
        let mut laid = self.laid.lock(rt);
        for _ in rt.forever() {
            if let Some(thing) = (*laid).take() {
                drop(laid);
                self.told.notify_all();
                return thing;
            }
            laid = self.told.wait(rt, laid);
        }
        unreachable!()
    }
}
