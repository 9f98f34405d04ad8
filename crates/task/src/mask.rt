// Sets of variables as masks of 32 bits: bit v stands for the variable v. A plain number, since callers hand it over as one.
ghost use Rattle.std.specs.Prelude.{◌≡◌, ◌≤◌, true, if◌then◌else◌, None};
ghost use Rattle.model.specs.Orders.{Least};
ghost use Rattle.model.specs.LeaveOut.{has};

use crate::moves::MAX_VARIABLES;

// Whether the mask has the variable v.
pub fn contains(mask: u32, v: usize) -> bool
    ensures { result ≡ has mask v }
{
    v < MAX_VARIABLES && (mask >> v) % 2 == 1
}

// The value of v, if the mask has v and there is one.
pub fn kept(mask: u32, v: usize, value: Option<u16>) -> Option<u16>
    ensures { result ≡ (if has mask v then value else None) }
{
    value.filter(|_| contains(mask, v))
}

// The lowest variable of the mask from n on. A variable, not a fault: callers of two layers tell it as faults of their own.
pub fn stray_variable(mask: u32, n: usize) -> Option<usize>
    ensures { Least (λ v. (n ≤ v) × (has mask v ≡ true)) result }
{
    (n..MAX_VARIABLES).find(
        |&v| -> bool
            ensures { result ≡ has mask v }
        { contains(mask, v) },
    )
}
