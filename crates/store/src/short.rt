// One buffer of 68 sectors: 0x00 to 0x3F and then 0x100 to 0x103 follow one another. Those between are dead.
use crate::bottom::Bottom;

mod serving;

pub type Short = Bottom<ShortBuffer>;

#[derive(Drop)]
pub struct ShortBuffer {
    buffer: Vec<u8>,
}
