ghost use Rattle.std.specs.Prelude.{◌≡◌, ◌≢◌, ◌+◌, ◌%◌, ◌^◌};

use std::sync::{Condvar, Mutex, Wait};

/// A bell, whose rings are counted. Who reads the count, then looks, and then waits for another count misses no ring.
#[derive(Drop)]
pub struct Bell {
    number: Mutex<u64>,
    rung: Condvar,
}

impl Bell {
    /// A bell that was not rung yet.
    pub fn new() -> Bell {
        Bell::rung_before(0)
    }

    /// A bell that was rung so many times.
    pub(crate) fn rung_before(number: u64) -> Bell {
        Bell {
            number: Mutex::new(number),
            rung: Condvar::new(),
        }
    }

    /// Raises the count by 1, from 2^64-1 to 0, and wakes all who wait.
    pub fn ring<R: Wait>(&self, rt: &R) {
        raise(&mut self.number.lock(rt));
        self.rung.notify_all();
    }

    /// The count.
    pub fn count<R: Wait>(&self, rt: &R) -> u64 {
        *self.number.lock(rt)
    }

    /// Waits until the count is another than the one seen, and answers it.
    pub fn wait_past<R: Wait>(&self, rt: &R, seen: u64) -> u64
        ensures { result ≢ seen }
    {
        let number = self
            .rung
            .wait_while(rt, self.number.lock(rt), |number| *number == seen);
        *number
    }
}

/// The number is raised by 1, from 2^64-1 to 0.
fn raise(number: &mut u64)
    ensures { number.new ≡ (number.old + 1) % 2 ^ 64 }
{
    *number = number.wrapping_add(1);
}
