// Making a frame of a task.
ghost use Rattle.std.specs.Prelude.{◌≡◌, replicate, IfOk, MatchResult};
ghost use Rattle.frame.specs.Held.{size_in};
ghost use Rattle.frame.specs.Wrong.{Frames};

use crate::fault::FrameFault;
use crate::frame::Frame;
use crate::measure::{measure, sizes_of};
use task::mask::stray_variable;
use task::moves::MAX_VARIABLES;
use task::source::TaskSource;

impl Frame {
    // The frame of one variable with one value, to be lent and written.
    pub fn least() -> Self
        ensures least { (result.n ≡ 1) × (result.mask ≡ 1) × (result.size ≡ 1) }
        ensures ones { (result.sizes ≡ replicate 32 1) × (result.strides ≡ replicate 32 1) }
    {
        Frame {
            n: 1,
            mask: 1,
            sizes: [1; MAX_VARIABLES],
            strides: [1; MAX_VARIABLES],
            size: 1,
        }
    }

    // Makes it the frame of this mask over the task. Declined, it stays as it was.
    pub fn set<S: TaskSource>(&mut self, source: &S, mask: u32) -> Result<(), FrameFault>
        ensures frames { Frames (S.TaskSource.task source.now) mask result }
        ensures holds { MatchResult result (λ _. (self.new.mask ≡ mask) × (self.new.n ≡ (S.TaskSource.task source.now).n) × (size_in self.new.sizes ≡ (S.TaskSource.task source.now).size)) (λ _. self.new ≡ self.old) }
    {
        *self = build(source, mask)?;
        Ok(())
    }
}

fn build<S: TaskSource>(source: &S, mask: u32) -> Result<Frame, FrameFault>
    ensures frames { Frames (S.TaskSource.task source.now) mask result }
    ensures holds { IfOk result (λ f. (f.mask ≡ mask) × (f.n ≡ (S.TaskSource.task source.now).n) × (size_in f.sizes ≡ (S.TaskSource.task source.now).size)) }
{
    if mask == 0 {
        return Err(FrameFault::EmptyMask);
    }
    let n = source.variables();
    if let Some(v) = stray_variable(mask, n) {
        return Err(FrameFault::NoSuchVariable(v));
    }
    let sizes = sizes_of(source);
    let (strides, size) = measure(&sizes, mask, n)?;
    Ok(Frame {
        n,
        mask,
        sizes,
        strides,
        size,
    })
}
