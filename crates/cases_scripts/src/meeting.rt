//! `Meeting`: a place where the first that comes waits for a second.

use nf_value::Mem;
use std::alloc::Global;
use std::sync::{Arc, Mutex, Wait};

/// So many turns the first that comes waits for a second (own).
const TURNS: u32 = 4_000_000;

/// One of several doors to a place where the first that comes waits for a second (own).
#[derive(Drop)]
pub(crate) struct Meeting<R> {
    rt: R,
    came: Arc<Mutex<u64>>,
}

impl<R: Wait + Copy + Drop> Meeting<R> {
    /// A place to which nobody has come.
    ///
    /// # Errors
    ///
    /// `Mem` if there is no memory for it.
    pub(crate) fn new(rt: R, alloc: Global) -> Result<Meeting<R>, Mem> {
        let came = Arc::new(alloc, Mutex::new(0))?;
        Ok(Meeting { rt, came })
    }

    /// One more door to the same place.
    ///
    /// # Errors
    ///
    /// `Mem` if there is no memory for it.
    pub(crate) fn share(&self) -> Result<Meeting<R>, Mem> {
        let came = Arc::try_clone(&self.came)?;
        Ok(Meeting { rt: self.rt, came })
    }

    /// Comes, and waits until a second has come. `false` where none came in all turns.
    pub(crate) fn meet(&self) -> bool {
        self.come();
        for _ in 0..TURNS {
            if self.has_second() {
                return true;
            }
        }
        false
    }

    fn come(&self) {
        let mut came = self.came.lock(&self.rt);
        *came = came.saturating_add(1);
    }

    // Whether a second has come. This is a turn: it takes the lock once, and releases it.
    fn has_second(&self) -> bool {
        *self.came.lock(&self.rt) > 1
    }
}
