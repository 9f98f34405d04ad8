// Looking shelves up, by their frames and by the positions on them.
ghost use Rattle.std.specs.Prelude.{◌≡◌, ℕ, ◌<◌, ◌&&◌, List, length, MatchOption, ◌==◌};
ghost use Rattle.model.specs.Tasks.{position};
ghost use Rattle.model.specs.Frames.{strictly_inside};
ghost use Rattle.shelves.specs.Shelves.{place};
ghost use Rattle.records.specs.Records.{shelves_of, on, covered_in};

use crate::shelf::Shelf;

// Whether the one set of variables lies strictly inside the other.
pub fn strictly_inside(inner: u32, outer: u32) -> bool
    ensures { result ≡ strictly_inside inner outer }
{
    inner & outer == inner && inner != outer
}

// Whether this is the shelf of the mask.
fn is_of(shelf: &Shelf, mask: u32) -> bool
    ensures { result ≡ (shelf.now.frame.mask == mask) }
{
    shelf.frame.mask() == mask
}

// The shelves in memory, by their numbers, and the pool that has their bytes.
#[derive(Clone, Copy)]
pub struct Shelves<'r, 'p> {
    pub records: &'r [Shelf],
    pub pool: &'p [u8],
}

impl Shelves<'_, '_> {
    // The number of the shelf of this mask.
    pub fn place_of(&self, mask: u32) -> Option<usize>
        ensures { (pool : List ℕ) → let rs = self.now.records.now in let at = place (shelves_of pool rs) mask in MatchOption result (at ≡ length rs) (λ i. (i < length rs) × (at ≡ i)) }
    {
        self.records.iter().position(|shelf| is_of(shelf, mask))
    }

    // Whether the position is on the shelf, and the shelf's frame lies strictly inside this mask.
    fn covers(&self, shelf: &Shelf, mask: u32, values: &[u16]) -> bool
        ensures { result ≡ (strictly_inside shelf.now.frame.mask mask && on self.now.pool.now shelf.now (position values.now)) }
    {
        strictly_inside(shelf.frame.mask(), mask) && shelf.holds(self.pool, values)
    }

    // Whether the position is on some shelf whose frame lies strictly inside this mask.
    pub fn is_covered(&self, mask: u32, values: &[u16]) -> bool
        ensures { result ≡ covered_in self.now.pool.now self.now.records.now mask (position values.now) }
    {
        self.records
            .iter()
            .any(|shelf| self.covers(shelf, mask, values))
    }
}
