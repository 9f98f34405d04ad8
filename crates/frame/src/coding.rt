// The code of a position in a frame, and the values that a code stands for.
ghost use Rattle.std.specs.Prelude.{◌≡◌, ◌*◌, ◌<◌};
ghost use Rattle.model.specs.Tasks.{position};
ghost use Rattle.model.specs.Frames.{width_by};
ghost use Rattle.frame.specs.Held.{size_in};
ghost use Rattle.frame.specs.Codes.{values_of, code_of};

use crate::frame::Frame;
use task::mask::contains;
use task::moves::MAX_VARIABLES;
use task::words::word;

impl Frame {
    // How many variables the task has.
    pub fn variables(&self) -> usize
        ensures { result ≡ self.now.n }
    {
        self.n
    }

    pub fn mask(&self) -> u32
        ensures { result ≡ self.now.mask }
    {
        self.mask
    }

    // How many codes there are.
    pub fn size(&self) -> usize
        ensures { result ≡ self.now.size }
    {
        self.size as usize
    }

    // The sum of what each of the frame's variables adds.
    pub fn code(&self, values: &[u16]) -> usize
        ensures { result ≡ code_of self.now (position values.now) }
    {
        // A loop, not a sum: it takes half the time.
        let mut code = 0;
        for v in 0..self.n {
            if contains(self.mask, v) {
                code += self.digit(values, v);
            }
        }
        code
    }

    // What the value of the variable v adds to a code: itself times the product of the sizes of the frame's lower variables.
    fn digit(&self, values: &[u16], v: usize) -> usize
        requires { v < self.now.n }
        ensures { result ≡ position values.now v * width_by (size_in self.now.sizes) self.now.mask v }
    {
        word(values, v) as usize * self.strides[v] as usize
    }

    // The value of the variable v in a code, and 0 of a variable that is not in the frame.
    #[tactic(auto, using(crate::proofs::Framed::stride_some, crate::proofs::Framed::in_frame, crate::proofs::Framed::value_in))]
    pub fn value(&self, code: usize, v: usize) -> u16
        ensures { result ≡ values_of self.now code v }
    {
        if contains(self.mask, v) {
            (code / self.strides[v] as usize % self.sizes[v] as usize) as u16
        } else {
            0
        }
    }

    // The position that a code stands for.
    pub fn values(&self, code: usize) -> [u16; MAX_VARIABLES]
        ensures { position result ≡ values_of self.now code }
    {
        let mut values = [0; MAX_VARIABLES];
        for (v, value) in values[..self.n].iter_mut().enumerate() {
            *value = self.value(code, v);
        }
        values
    }

    // The code, in a frame that lies inside, of the values that a code of this frame stands for.
    pub fn code_inside(&self, inner: &Frame, code: usize) -> usize
        ensures { result ≡ code_of inner.now (values_of self.now code) }
    {
        inner.code(&self.values(code))
    }
}
