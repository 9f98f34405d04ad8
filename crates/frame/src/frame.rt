// A frame, written whole into one that the caller lends.
ghost use Rattle.std.specs.Prelude.{◌≡◌, ◌^◌, ◌<◌, ◌≤◌};
ghost use Rattle.model.specs.Frames.{width_by};
ghost use Rattle.frame.specs.Held.{size_in, Sized, Strided, OnesFrom};

use task::moves::MAX_VARIABLES;

// A set of variables with all that coding needs: the sizes of the task's variables, for each variable the product of the sizes of the
// frame's lower variables (its stride), and the product of all of them. Two lists in fixed memory, not one of pairs: the sizes are the
// task's, told and compared as a list of their own, and the strides are made from them. Ghost fields, not a model: with a model each function
// would open the frame before it reads a field, and `value` would need a proof file.
#[derive(Clone, Copy)]
pub struct Frame {
    pub(crate) n: usize,
    pub(crate) mask: u32,
    pub(crate) sizes: [u16; MAX_VARIABLES],
    pub(crate) strides: [u32; MAX_VARIABLES],
    pub(crate) size: u32,
    ghost few: { n ≤ 32 },
    ghost some: { 0 < mask },
    ghost legal: { mask < 2 ^ n },
    ghost sized: { Sized sizes },
    ghost strided: { Strided sizes mask n strides },
    ghost rest: { OnesFrom n strides },
    ghost whole: { size ≡ width_by (size_in sizes) mask n },
    ghost small: { size ≤ 16384 },
}
