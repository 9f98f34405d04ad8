// The verdict on the start position.
ghost use Rattle.std.specs.Prelude.{◌≡◌, true, MatchOption};
ghost use Rattle.shelves.specs.Filing.{judged, found, is_hopeless};

#[derive(Clone, Copy, PartialEq, Eq, Debug)]
pub enum Verdict {
    // the start is on no shelf, and no plan is known
    Open,
    // the shelf with this number was the first to hold the start
    Hopeless(usize),
    // a plan of this many operators is known
    Feasible(usize),
}

impl Verdict {
    // The verdict after a filing, given the number of the shelf that was filed on where it now holds the start.
    pub fn after_filing(self, holder: Option<usize>) -> Verdict
        ensures { MatchOption holder (result ≡ self) (λ shelf. result ≡ judged self true shelf) }
    {
        match (self, holder) {
            (Verdict::Open, Some(shelf)) => Verdict::Hopeless(shelf),
            _ => self,
        }
    }

    // The verdict after a plan of this many operators.
    pub fn after_plan(self, operators: usize) -> Verdict
        ensures { result ≡ found self operators }
    {
        match self {
            Verdict::Open => Verdict::Feasible(operators),
            other => other,
        }
    }

    pub fn is_hopeless(self) -> bool
        ensures { result ≡ is_hopeless self }
    {
        matches!(self, Verdict::Hopeless(_))
    }
}
