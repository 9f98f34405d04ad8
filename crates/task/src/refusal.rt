// How a refusal is told: its number, the layer that it comes from, and the place that is at fault.
ghost use Rattle.std.specs.Prelude.{◌≡◌, Some};
ghost use Rattle.task.specs.declared.refusal.Refusal.{Refusal};
ghost use Rattle.task.specs.Told.{layer_name, refusal_text};

use std::fmt;

#[derive(Clone, Copy, PartialEq, Eq, Debug)]
pub enum Layer {
    Card,
    Reduction,
    Frame,
    Register,
}

impl fmt::Display for Layer {
    ghost output = { λ x. Some (layer_name x) };

    fn fmt<W: fmt::Write>(&self, f: &mut fmt::Formatter<W>) -> fmt::Result {
        f.write_str(match *self {
            Layer::Card => "card",
            Layer::Reduction => "reduction",
            Layer::Frame => "frame",
            Layer::Register => "register",
        })
    }
}

// The rules number what can be refused, and scripts print the number.
#[derive(Clone, Copy, PartialEq, Eq, Debug)]
pub struct Refusal {
    pub number: u16,
    pub layer: Layer,
    pub place: (usize, usize),
}

impl fmt::Display for Refusal {
    ghost output = { λ x. Some (refusal_text x) };

    fn fmt<W: fmt::Write>(&self, f: &mut fmt::Formatter<W>) -> fmt::Result {
        let (p, q) = self.place;
        write!(f, "{} {} at ({p}, {q})", self.number, self.layer)
    }
}

// What can be wrong with a call. Each kind of fault has one definition that gives the number, layer and place of each of its cases.
// A trait of its own, and not `From`: one bound for all kinds of faults, whose member tells callers what each is refused as.
pub trait Fault {
    ghost told: { Self → Refusal };

    fn refusal(&self) -> Refusal
        ensures { result ≡ told self.now };
}
