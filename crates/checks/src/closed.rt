// Whether a claimed set of codes is closed.
ghost use Rattle.std.specs.Prelude.{◌≡◌, not, ◌&&◌, Decides};
ghost use Rattle.shelves.specs.Shelves.{bit_of};
ghost use Rattle.records.specs.Records.{shelves_of};
ghost use Rattle.checks.specs.Wrong.{Checks, Leaves, SetWrong};
ghost use Rattle.checks.specs.Closing.{Fits, code_covered};

use crate::fault::RegisterFault;
use frame::frame::Frame;
use records::bits::bit;
use records::lookup::Shelves;
use task::source::TaskSource;

// The shelves that a claim may rest on, its frame and its bits.
#[derive(Clone, Copy)]
pub struct Claim<'r, 'p, 'f, 'b> {
    pub shelves: Shelves<'r, 'p>,
    pub frame: &'f Frame,
    pub bytes: &'b [u8],
}

impl Claim<'_, '_, '_, '_> {
    // Whether the code c is on a shelf whose frame lies strictly inside the claim's.
    fn covers(&self, c: usize) -> bool
        ensures { result ≡ code_covered self.now c }
    {
        self.shelves
            .is_covered(self.frame.mask(), &self.frame.values(c))
    }

    // Whether the code c is claimed, and not covered.
    fn is_open(&self, c: usize) -> bool
        ensures { result ≡ (bit_of self.now.bytes.now c && not (code_covered self.now c)) }
    {
        bit(self.bytes, c) && !self.covers(c)
    }

    // Whether the code c is neither claimed nor covered.
    fn is_out(&self, c: usize) -> bool
        ensures { result ≡ (not (bit_of self.now.bytes.now c) && not (code_covered self.now c)) }
    {
        !bit(self.bytes, c) && !self.covers(c)
    }

    // Whether the operator o leads from the code c to one that is neither claimed nor covered.
    fn leads_out<S: TaskSource>(&self, source: &S, c: usize, o: usize) -> bool
        ensures { let q = self.now in let t = S.TaskSource.task source.now in Fits t q.frame.now q.shelves.records.now → Decides result (Leaves t (shelves_of q.shelves.pool.now q.shelves.records.now) q.frame.now.mask (bit_of q.bytes.now) c o) }
    {
        // A match, not `is_some_and`: the proof does not close over what the closure asks of the claim.
        match self.frame.step(source, o, c) {
            Some(d) => self.is_out(d),
            None => false,
        }
    }

    // Accepts a set that is closed over the shelves of smaller frames. The lowest code at which it is not decides: that it meets the goal,
    // or else the lowest operator that leads out.
    pub fn check<S: TaskSource>(&self, source: &S) -> Result<(), RegisterFault>
        ensures { let q = self.now in let t = S.TaskSource.task source.now in Fits t q.frame.now q.shelves.records.now → Checks (SetWrong t (shelves_of q.shelves.pool.now q.shelves.records.now) q.frame.now.mask (bit_of q.bytes.now)) result }
    {
        // Labelled loops, not chains: what decides at a code, its goal or an operator, ends the walk over all codes.
        let mut answer = Ok(());
        let m = source.operators();
        let size = self.frame.size();
        'codes: for c in 0..size {
            if !self.is_open(c) {
                continue;
            }
            if self.frame.meets_goal(source, c) {
                answer = Err(RegisterFault::MeetsGoal(c));
                break 'codes;
            }
            for o in 0..m {
                if self.leads_out(source, c, o) {
                    answer = Err(RegisterFault::LeadsOut(c, o));
                    break 'codes;
                }
            }
        }
        answer
    }
}
