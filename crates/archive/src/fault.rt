// What is told of a damaged file: the refusal, the layer, the row from 1 (0 in the header), and where the first wrong field starts.
use super::layer::Layer;
use keys::Refusal;

mod made;
mod told;

#[derive(Clone, Copy, PartialEq, Eq, Debug)]
pub struct Fault {
    pub refusal: Refusal,
    pub layer: Layer,
    pub row: usize,
    pub offset: usize,
}
