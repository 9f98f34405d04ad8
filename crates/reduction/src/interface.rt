// The interface of reductions.
ghost use Rattle.std.specs.Prelude.{◌≡◌, ℕ};
ghost use Rattle.model.specs.Tasks.{Task, Lawful};
ghost use Rattle.model.specs.Reductions.{Reduces, image_in, PlansGoUp, HopelessGoesDown, ReductionsCompose};

use task::source::TaskSource;

// A source that is a coarser task over another, or a pile of such over a lowest source. It also tells where the values of the lowest
// task go. Its law: start goes to start, goal positions go to goal positions, and operators lead from image to image.
pub trait Reduction: TaskSource {
    // the task at the foot of the pile
    ghost lowest: { Self → Task };

    // the image of a variable's value of the lowest task
    ghost sends: { Self → ℕ → ℕ → ℕ };

    // The image of the value x of the variable v of the lowest task.
    fn image(&self, v: usize, x: u16) -> Option<u16>
        ensures { result ≡ image_in (lowest self.now) (sends self.now) v x };

    ghost grounded: { (s : Self) → Lawful (lowest s) };

    ghost reduces: { (s : Self) → Reduces (lowest s) (Self.TaskSource.task s) (sends s) };
}

// The image of a value of the lowest task, in any pile. Each plan of the lowest task is a plan of the pile's task, so a position whose
// image is hopeless in the pile's task is hopeless in the lowest.
pub fn image_of<R: Reduction>(pile: &R, v: usize, x: u16) -> Option<u16>
    ensures value { result ≡ image_in (R.Reduction.lowest pile.now) (R.Reduction.sends pile.now) v x }
    ensures plans { PlansGoUp (R.Reduction.lowest pile.now) (R.TaskSource.task pile.now) }
    ensures hopeless { HopelessGoesDown (R.Reduction.lowest pile.now) (R.TaskSource.task pile.now) (R.Reduction.sends pile.now) }
{
    pile.image(v, x)
}

// A reduction of a reduction is one.
pub fn reductions_compose()
    ensures { ReductionsCompose }
{}
