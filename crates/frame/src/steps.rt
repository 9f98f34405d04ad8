// What operators do to codes: exactly what they do in the projection onto the frame's variables.
ghost use Rattle.std.specs.Prelude.{◌≡◌, if◌then◌else◌, None, Decides};
ghost use Rattle.model.specs.Tasks.{Applies, Holds, after};
ghost use Rattle.model.specs.LeaveOut.{has};
ghost use Rattle.model.specs.Frames.{onto};
ghost use Rattle.frame.specs.Held.{size_in};
ghost use Rattle.frame.specs.Codes.{values_of, code_of};
ghost use Rattle.frame.specs.Steps.{LeadsTo};

use crate::frame::Frame;
use task::mask::kept;
use task::moves::MAX_VARIABLES;
use task::source::TaskSource;

impl Frame {
    // Whether the value of v that is wanted at the code c is there, if v is in the frame and one is wanted.
    pub(crate) fn holds(&self, c: usize, v: usize, wanted: Option<u16>) -> bool
        ensures { Decides result (Holds (if has self.now.mask v then wanted else None) (values_of self.now c v)) }
    {
        kept(self.mask, v, wanted).is_none_or(|x| self.value(c, v) == x)
    }

    // Whether the operator o applies at the code c: a chain of one line, as at a position, over values that are read another way.
    pub fn applies<S: TaskSource>(&self, source: &S, o: usize, c: usize) -> bool
        ensures { Decides result (Applies (onto self.now.mask (S.TaskSource.task source.now)) o (values_of self.now c)) }
    {
        (0..self.n).all(|v| self.has_needed(source, o, c, v))
    }

    // Whether the value of v that the operator o needs is there at the code c, if v is in the frame and one is needed.
    fn has_needed<S: TaskSource>(&self, source: &S, o: usize, c: usize, v: usize) -> bool
        ensures { Decides result (Holds ((onto self.now.mask (S.TaskSource.task source.now)).needed o v) (values_of self.now c v)) }
    {
        self.holds(c, v, source.needed(o, v))
    }

    // The code of what the operator o makes of the code c.
    fn made<S: TaskSource>(&self, source: &S, o: usize, c: usize) -> usize
        ensures { result ≡ code_of self.now (after (onto self.now.mask (S.TaskSource.task source.now)) o (values_of self.now c)) }
    {
        let mut values = [0; MAX_VARIABLES];
        for (v, value) in values[..self.n].iter_mut().enumerate() {
            *value = kept(self.mask, v, source.made(o, v)).unwrap_or(self.value(c, v));
        }
        self.code(&values)
    }

    // The code that the operator o leads to from the code c, if it applies there. Said over sizes and a count, not of a frame: the check of a
    // claim reads it over those of the task.
    pub fn step<S: TaskSource>(&self, source: &S, o: usize, c: usize) -> Option<usize>
        ensures { LeadsTo (onto self.now.mask (S.TaskSource.task source.now)) (size_in self.now.sizes) self.now.mask self.now.n o c result }
    {
        self.applies(source, o, c).then(|| self.made(source, o, c))
    }
}
