// Whether a code meets the goal of the projection onto the frame's variables: kept apart from the steps, which need no goal.
ghost use Rattle.std.specs.Prelude.{Decides};
ghost use Rattle.model.specs.Tasks.{IsGoal, Holds};
ghost use Rattle.model.specs.Frames.{onto};
ghost use Rattle.frame.specs.Codes.{values_of};

use crate::frame::Frame;
use task::source::TaskSource;

impl Frame {
    // Whether the code c meets the goal.
    pub fn meets_goal<S: TaskSource>(&self, source: &S, c: usize) -> bool
        ensures { Decides result (IsGoal (onto self.now.mask (S.TaskSource.task source.now)) (values_of self.now c)) }
    {
        (0..self.n).all(|v| self.has_wanted(source, c, v))
    }

    // Whether the value of v that the goal wants is there at the code c, if v is in the frame and one is wanted.
    fn has_wanted<S: TaskSource>(&self, source: &S, c: usize, v: usize) -> bool
        ensures { Decides result (Holds ((onto self.now.mask (S.TaskSource.task source.now)).goal v) (values_of self.now c v)) }
    {
        self.holds(c, v, source.goal(v))
    }
}
