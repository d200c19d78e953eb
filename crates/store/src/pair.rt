// Two buffers: sector s lies in buffer s mod 2, at byte 512 × (s div 2). None is dead.
use crate::bottom::Bottom;

mod serving;

pub type Pair = Bottom<PairBuffers>;

#[derive(Drop)]
pub struct PairBuffers {
    even: Vec<u8>,
    odd: Vec<u8>,
}
