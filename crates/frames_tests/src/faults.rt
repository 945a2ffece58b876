// What the tests of layer 1 expect where a call is refused.
use frames::{Fault, Layer, Refusal};

// The refusal of a call, whatever it would have answered.
pub(crate) fn refused<T>(refusal: Refusal) -> Result<T, Fault> {
    Err(Layer::Frames.refuses(refusal))
}
