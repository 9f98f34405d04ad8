// The sizes of a task's variables, and the strides of a mask.
ghost use Rattle.std.specs.Prelude.{◌≡◌, ◌≤◌};
ghost use Rattle.frame.specs.Held.{size_in, Sized};
ghost use Rattle.frame.specs.Wrong.{Measured};

use crate::fault::FrameFault;
use std::array;
use task::mask::contains;
use task::moves::{MAX_VARIABLES, size_or_one};
use task::source::TaskSource;

// The most codes that a frame has.
const LIMIT: u32 = 16_384;

// The sizes of the task's variables, and 1 past them.
pub fn sizes_of<S: TaskSource>(source: &S) -> [u16; MAX_VARIABLES]
    ensures { size_in result ≡ (S.TaskSource.task source.now).size }
{
    array::from_fn(
        |v| -> u16
            ensures { result ≡ (S.TaskSource.task source.entry.now).size v }
        { size_or_one(source, v) },
    )
}

// The stride of each of n variables, the product of the sizes of the mask's lower variables, and 1 past them; and the product of all of
// them. Declined at the variable at which it passes the limit.
pub(crate) fn measure(
    sizes: &[u16; MAX_VARIABLES],
    mask: u32,
    n: usize,
) -> Result<([u32; MAX_VARIABLES], u32), FrameFault>
    requires sized { Sized sizes.now }
    requires few { n ≤ 32 }
    ensures { Measured sizes.now mask n result }
{
    let mut strides = [1; MAX_VARIABLES];
    let mut size = 1;
    // A loop, not a chain: the running product's bound is its invariant.
    for v in 0..n {
        strides[v] = size;
        if contains(mask, v) {
            size *= sizes[v] as u32;
            if size > LIMIT {
                return Err(FrameFault::TooLarge(v));
            }
        }
    }
    Ok((strides, size))
}
