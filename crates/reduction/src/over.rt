// A source under a layer, or under a list of layers, the lowest first.
ghost use Rattle.std.specs.Prelude.{◌≡◌, [], ◌∷◌, ◌++◌, map, MatchResult};
ghost use Rattle.model.specs.Stack.{layered, stack_image, stacked};
ghost use Rattle.model.proofs.Reducing.{compose};
ghost use Rattle.model.proofs.Stacking.{stacked_lawful};
ghost use Rattle.reduction.specs.Settings.{Tests, PutTests, Puts};

use crate::coarsening::{Coarsening, Neutral, Single};
use crate::fault::{PutError, ReductionFault};
use crate::ground::Ground;
use crate::interface::Reduction;
use task::source::TaskSource;

// The task that the layers make of the source's, and over a pile a higher pile.
#[derive(Drop)]
pub struct Over<S, L> {
    source: S,
    layer: L,
}

impl<S: TaskSource, L: Neutral> Over<S, L> {
    // Nothing is changed yet.
    pub fn over(source: S) -> Self
        ensures below { result.source ≡ source }
        ensures nothing { stacked (L.layers result.layer) (S.TaskSource.task source) ≡ S.TaskSource.task source }
    {
        Over {
            source,
            layer: L::neutral(),
        }
    }
}

impl<S: TaskSource, L: Single + Drop> Over<S, L> {
    // Takes this layer in place of the one before. Declined, it stays as it was.
    pub fn set(&mut self, layer: L) -> Result<(), ReductionFault>
        ensures tests { Tests (L.wrong (S.TaskSource.task self.old.source) layer) result }
        ensures below { self.new.source ≡ self.old.source }
        ensures sets { MatchResult result (λ _. self.new.layer ≡ layer) (λ _. self.new.layer ≡ self.old.layer) }
    {
        layer.check(&self.source)?;
        self.layer = layer;
        Ok(())
    }
}

impl<S: TaskSource, L> Over<Ground<S>, Vec<L>> {
    // The layers over a bare source, the lowest first.
    pub fn with_layers(source: S, layers: Vec<L>) -> Self
        ensures below { result.source.source ≡ source }
        ensures layers { result.layer ≡ layers }
    {
        Over {
            source: Ground::over(source),
            layer: layers,
        }
    }
}

impl<S: TaskSource, L: Single + Drop> Over<S, Vec<L>> {
    // Puts a layer on top. Declined, or for want of memory, the pile stays as it was.
    #[tactic(auto, using(crate::proofs::Layers::put_on_top))]
    pub fn put(&mut self, layer: L) -> Result<(), PutError>
        ensures tests { PutTests (L.wrong (stacked (map L.layering self.old.layer.items) (S.TaskSource.task self.old.source)) layer) result }
        ensures below { self.new.source ≡ self.old.source }
        ensures puts { Puts layer self.old.layer.items result self.new.layer.items }
        ensures tops { stacked (map L.layering (self.old.layer.items ++ (layer ∷ []))) (S.TaskSource.task self.old.source) ≡ layered (L.layering layer) (stacked (map L.layering self.old.layer.items) (S.TaskSource.task self.old.source)) }
    {
        layer.check(self)?;
        self.layer.push(layer)?;
        Ok(())
    }
}

impl<S: Drop, L> Over<S, Vec<L>> {
    // The layers alone.
    pub fn into_layers(self) -> Vec<L>
        ensures { result ≡ self.layer }
    {
        self.layer
    }
}

// Each question is passed on by itself, as the interface asks it, and its answer goes through the layers.
impl<S: TaskSource, L: Coarsening> TaskSource for Over<S, L> {
    ghost task = { λ s. stacked (L.layers s.layer) (S.TaskSource.task s.source) };

    ghost lawful = { λ s. stacked_lawful (L.layers s.layer) (S.TaskSource.task s.source) (S.TaskSource.lawful s.source) };

    fn variables(&self) -> usize {
        self.source.variables()
    }

    fn size(&self, v: usize) -> Option<u16> {
        let k = self.source.size(v)?;
        Some(self.layer.size(v, k))
    }

    fn operators(&self) -> usize {
        self.source.operators()
    }

    fn needed(&self, o: usize, v: usize) -> Option<u16> {
        self.layer.wanted(v, self.source.needed(o, v))
    }

    fn made(&self, o: usize, v: usize) -> Option<u16> {
        self.layer.wanted(v, self.source.made(o, v))
    }

    fn start(&self, v: usize) -> Option<u16> {
        let x = self.source.start(v)?;
        Some(self.layer.value(v, x))
    }

    fn goal(&self, v: usize) -> Option<u16> {
        self.layer.wanted(v, self.source.goal(v))
    }
}

impl<R: Reduction, L: Coarsening> Reduction for Over<R, L> {
    ghost lowest = { λ s. R.Reduction.lowest s.source };

    ghost sends = { λ s v x. stack_image (L.layers s.layer) v (R.Reduction.sends s.source v x) };

    ghost grounded = { λ s. R.Reduction.grounded s.source };

    ghost reduces = { λ s. compose _ _ _ _ _ (R.Reduction.reduces s.source) (L.reduces s.layer (R.TaskSource.task s.source)) };

    fn image(&self, v: usize, x: u16) -> Option<u16> {
        let y = self.source.image(v, x)?;
        Some(self.layer.value(v, y))
    }
}
