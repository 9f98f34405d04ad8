// The bytes of a claim.
ghost use Rattle.std.specs.Prelude.{◌≡◌, ◌*◌, ◌<◌, ◌≤◌, true, length};
ghost use Rattle.model.specs.Orders.{Least};
ghost use Rattle.shelves.specs.Shelves.{bit_of};
ghost use Rattle.checks.specs.Wrong.{Checks, BytesWrong};

use crate::fault::RegisterFault;
use frame::frame::Frame;
use records::bits::{bit, bytes_for};

// The lowest bit from `size` on that is set. The place and not the fault: that it is the least one is all that the chain has to prove.
fn spare_bit(bytes: &[u8], size: usize) -> Option<usize>
    requires { length bytes.now ≤ 2048 }
    ensures { Least (λ b. (size ≤ b) × (b < 8 * length bytes.now) × (bit_of bytes.now b ≡ true)) result }
{
    (size..8 * bytes.len()).find(|&b| bit(bytes, b))
}

// Accepts as many bytes as the frame's codes take, whose spare bits are not set.
pub fn check_bytes(frame: &Frame, bytes: &[u8]) -> Result<(), RegisterFault>
    ensures { Checks (BytesWrong frame.now.size bytes.now) result }
{
    let size = frame.size();
    if bytes.len() != bytes_for(size) {
        return Err(RegisterFault::WrongLength(bytes.len()));
    }
    match spare_bit(bytes, size) {
        Some(b) => Err(RegisterFault::SpareBit(b)),
        None => Ok(()),
    }
}
