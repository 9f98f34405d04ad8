// The foot of a pile.
ghost use Rattle.std.specs.Prelude.{◌≡◌};
ghost use Rattle.model.proofs.Reducing.{reduces_self};

use crate::interface::Reduction;
use task::source::TaskSource;

// Any source as the reduction of itself, which changes nothing. It is no `Over`, since that is a reduction only over a reduction.
#[derive(Drop)]
pub struct Ground<S> {
    source: S,
}

impl<S: TaskSource> Ground<S> {
    pub fn over(source: S) -> Self
        ensures { result.source ≡ source }
    {
        Ground { source }
    }
}

// Each question is passed on by itself, as the interface asks it.
impl<S: TaskSource> TaskSource for Ground<S> {
    ghost task = { λ s. S.TaskSource.task s.source };

    ghost lawful = { λ s. S.TaskSource.lawful s.source };

    fn variables(&self) -> usize {
        self.source.variables()
    }

    fn size(&self, v: usize) -> Option<u16> {
        self.source.size(v)
    }

    fn operators(&self) -> usize {
        self.source.operators()
    }

    fn needed(&self, o: usize, v: usize) -> Option<u16> {
        self.source.needed(o, v)
    }

    fn made(&self, o: usize, v: usize) -> Option<u16> {
        self.source.made(o, v)
    }

    fn start(&self, v: usize) -> Option<u16> {
        self.source.start(v)
    }

    fn goal(&self, v: usize) -> Option<u16> {
        self.source.goal(v)
    }
}

impl<S: TaskSource> Reduction for Ground<S> {
    ghost lowest = { λ s. S.TaskSource.task s.source };

    ghost sends = { λ s v x. x };

    ghost grounded = { λ s. S.TaskSource.lawful s.source };

    ghost reduces = { λ s. reduces_self (S.TaskSource.task s.source) };

    fn image(&self, v: usize, x: u16) -> Option<u16> {
        let size = self.source.size(v)?;
        (x < size).then_some(x)
    }
}
