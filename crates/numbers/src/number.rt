// From a frame to its number and back. Candidates and frames are masks, plain numbers as everywhere.
ghost use Rattle.std.specs.Prelude.{◌≡◌, ◌<◌, length, slice_index};
ghost use Rattle.numbers.specs.Numbers.{frames, Listed, Lowest, Numbered, FrameOf, FrameAfter};

use crate::walk::{lowest, members, sets_before};
use counts::subsets;
use task::mask::contains;
use task::moves::MAX_VARIABLES;

// The mask of the variables below n, of which there are 32 at most.
pub fn all_variables(n: usize) -> u32
    ensures { Lowest n result }
{
    lowest(n)
}

// How many sets of k candidates there are.
#[tactic(auto, using(crate::proofs::Windows::frames_counted))]
pub fn frame_count(candidates: u32, k: usize) -> u32
    ensures count { result ≡ length (frames candidates k) }
    ensures order { Listed candidates k }
{
    subsets(members(candidates), k)
}

// The number of a set of candidates among all that have as many variables.
#[tactic(auto, using(crate::proofs::Walking::count_up_in, crate::proofs::Windows::count_le))]
pub fn number_of(candidates: u32, mask: u32) -> Option<u32>
    ensures { Numbered candidates mask result }
{
    // A loop, not a chain: three numbers change together.
    let mut left = members(candidates);
    let mut wanted = members(mask);
    let mut number = 0;
    for v in 0..MAX_VARIABLES {
        if !contains(candidates, v) {
            if contains(mask, v) {
                return None;
            }
            continue;
        }
        left -= 1;
        if contains(mask, v) {
            wanted -= 1;
        } else {
            number += sets_before(left, wanted);
        }
    }
    Some(number)
}

// The set of k candidates with this number.
pub fn frame_of(candidates: u32, k: usize, number: u32) -> Option<u32>
    ensures { FrameOf candidates k number result }
{
    (number < frame_count(candidates, k)).then(|| set_at(candidates, k, number))
}

// The set of k candidates with a number that there is.
#[tactic(auto, using(crate::proofs::Walking::count_up_in, crate::proofs::Windows::count_le))]
fn set_at(candidates: u32, k: usize, number: u32) -> u32
    requires { number < length (frames candidates k) }
    ensures { result ≡ slice_index (frames candidates k) number }
{
    // A loop, not a chain: four numbers change together.
    let mut left = members(candidates);
    let mut wanted = k;
    let mut rest = number;
    let mut mask = 0;
    for v in 0..MAX_VARIABLES {
        if !contains(candidates, v) {
            continue;
        }
        left -= 1;
        let with = sets_before(left, wanted);
        if rest < with {
            wanted -= 1;
            mask += 1 << v;
        } else {
            rest -= with;
        }
    }
    mask
}

// The set after this one, of those that have as many variables.
#[tactic(auto, using(crate::proofs::Windows::frames_few))]
pub fn frame_after(candidates: u32, mask: u32) -> Option<u32>
    ensures { FrameAfter candidates mask result }
{
    let number = number_of(candidates, mask)?;
    frame_of(candidates, members(mask), number + 1)
}
