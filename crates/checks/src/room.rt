// The memory that the caller lends, and room in it for one shelf more.
ghost use Rattle.std.specs.Prelude.{◌≤◌, Decides};
ghost use Rattle.checks.specs.Wrong.{Checks, MemoryWrong, RoomWrong};

use crate::fault::RegisterFault;

// The most shelf records, and the most bytes of pool.
const MAX_RECORDS: usize = 1024;

const MAX_POOL: usize = 1_048_576;

// Whether a length is neither 0 nor above its limit.
fn fits(length: usize, limit: usize) -> bool
    ensures { Decides result ((1 ≤ length) × (length ≤ limit)) }
{
    (1..=limit).contains(&length)
}

// The caller's memory: how many shelf records, and how many bytes of pool.
#[derive(Clone, Copy, PartialEq, Eq, Debug)]
pub struct Memory {
    pub records: usize,
    pub pool: usize,
}

impl Memory {
    // Accepts 1 to 1,024 records, and 1 to 1,048,576 bytes.
    pub fn check(self) -> Result<(), RegisterFault>
        ensures { Checks (MemoryWrong self) result }
    {
        if !fits(self.records, MAX_RECORDS) {
            return Err(RegisterFault::BadMemory(self.records));
        }
        if !fits(self.pool, MAX_POOL) {
            return Err(RegisterFault::BadMemory(self.pool));
        }
        Ok(())
    }

    // Accepts where one of the records is free, and the pool has the bytes needed for all shelves with the new one.
    pub fn check_room(self, taken: usize, needed: usize) -> Result<(), RegisterFault>
        ensures { Checks (RoomWrong self.records taken self.pool needed) result }
    {
        if taken >= self.records {
            return Err(RegisterFault::NoRecord(self.records));
        }
        if self.pool < needed {
            return Err(RegisterFault::PoolTooShort(needed));
        }
        Ok(())
    }
}
