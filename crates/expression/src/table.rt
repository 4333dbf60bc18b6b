// The lists of a table that its nodes see, as a caller lends them.
use crate::sizes::Shape;

// The traces and the public values.
#[derive(Clone, Copy)]
pub struct LentTraces<'a> {
    pub shape: Shape,
    pub main: &'a [u32],
    pub preprocessed: &'a [u32],
    pub public_values: &'a [u32],
}
