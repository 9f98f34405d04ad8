// The record of a shelf.
ghost use Rattle.std.specs.Prelude.{◌≡◌};
ghost use Rattle.model.specs.Tasks.{position};
ghost use Rattle.shelves.specs.Shelves.{bit_of};
ghost use Rattle.records.specs.Records.{bytes_of, on};

use crate::bits::{bit, bytes_for};
use frame::frame::Frame;

// A shelf in memory: its frame, and where its bytes begin in the pool. A number and not a slice: the pool is lent as a whole.
#[derive(Clone, Copy)]
pub struct Shelf {
    pub frame: Frame,
    pub at: usize,
}

impl Shelf {
    // Whether the code c is on the shelf.
    fn has_code(&self, pool: &[u8], c: usize) -> bool
        ensures { result ≡ bit_of (bytes_of pool.now self.now) c }
    {
        c / 8 < bytes_for(self.frame.size())
            && pool.get(self.at..).is_some_and(|bytes| bit(bytes, c))
    }

    // Whether the position with these values is on the shelf.
    pub fn holds(&self, pool: &[u8], values: &[u16]) -> bool
        ensures { result ≡ on pool.now self.now (position values.now) }
    {
        self.has_code(pool, self.frame.code(values))
    }
}
