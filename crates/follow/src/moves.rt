use fddevs::part::{External, Span};

// Why a part does not make a move.
#[derive(Clone, Copy, PartialEq, Eq, Debug)]
pub enum Stuck {
    // the formalism does not allow it, or the part does not have that phase or input
    NotAllowed,
    // the elapsed ticks pass 64 bits
    TooLong,
}

// Where an input leads, and the lifespan of the phase that it leads to.
#[derive(Clone, Copy)]
pub(crate) struct Arrival {
    pub external: External,
    pub lifespan: Span,
}
