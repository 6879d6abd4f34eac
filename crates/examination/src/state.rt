use crate::standing::Standing;
use bars::bars::Bars;
use wiring::wires::Wiring;

pub mod taking;

// What an examination holds besides its bank: the wiring, the bars, and how many of them stand beside the verdict.
#[derive(Drop)]
pub(crate) struct State {
    pub(crate) wiring: Wiring,
    pub(crate) bars: Bars,
    pub(crate) standing: Standing,
}
