// One buffer: sector s lies at byte 512 × s. Its owner may declare up to eight sectors dead.
use crate::bottom::Bottom;

mod serving;

pub type Flat = Bottom<FlatBuffer>;

// The buffer, with the sectors declared dead.
#[derive(Drop)]
pub struct FlatBuffer {
    buffer: Vec<u8>,
    dead: Vec<u16>,
}
