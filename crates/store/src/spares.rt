// Spares: a store of which some sectors are served by others that lie past its end.
use crate::layer::Layer;

mod serving;

// A sector, and the spare that serves it.
#[derive(Clone, Copy, PartialEq, Eq, Debug)]
pub struct Spare {
    pub sector: u16,
    pub spare: u16,
}

// The first `visible` sectors of the store below; a paired one is served by its spare.
pub type Spares<S> = Layer<S, Pairs>;

#[derive(Drop)]
pub struct Pairs {
    visible: u16,
    pairs: Vec<Spare>,
}
