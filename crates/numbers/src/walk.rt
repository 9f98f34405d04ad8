// Counting while the variables are walked up.
ghost use Rattle.std.specs.Prelude.{◌≡◌, ◌-◌, ◌^◌, ◌≤◌, min};
ghost use Rattle.numbers.specs.Numbers.{count, before};

use counts::subsets;
use task::moves::MAX_VARIABLES;

// The mask of the variables below n. A shift by 32 would pass the end of 32 bits, and not of 64.
pub(crate) fn lowest(n: usize) -> u32
    ensures { result ≡ 2 ^ min n 32 - 1 }
{
    ((1_u64 << n.min(MAX_VARIABLES)) - 1) as u32
}

// How many variables the mask has.
pub(crate) fn members(mask: u32) -> usize
    ensures { result ≡ count mask 32 0 }
{
    mask.count_ones() as usize
}

// How many sets have the next candidate, of those that have this many variables to come, where so many candidates follow it.
pub(crate) fn sets_before(left: usize, wanted: usize) -> u32
    requires { (left ≤ 32) × (wanted ≤ 33) }
    ensures { result ≡ before left wanted }
{
    if wanted == 0 {
        return 0;
    }
    subsets(left, wanted - 1)
}
