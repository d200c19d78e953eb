// Stores of 512-byte sectors: what every store means, three bottom stores and two layers over any store.
#![tactic(auto)]

ghost use Rattle.std.specs.Prelude.{◌≡◌, true, length};
ghost use Rattle.model.specs.Image.{Image, whole, access, filled, put};

pub use model::sizes::SECTOR;
use model::types::Fault;

mod bottom;
mod faults;
pub mod flat;
mod layer;
pub mod pair;
pub mod short;
pub mod spares;
mod stretch;
#[cfg(test)]
mod tests_bottoms;
pub mod window;

// The most sectors that a store has, and the most dead numbers or pairs that one is told of.
pub const MOST_SECTORS: usize = 65_535;

pub const MOST_LISTED: usize = 8;

// A store means an image: a list of sectors, each 512 bytes or dead with its place and depth. What a call answers, and
// what it leaves in the store and in the buffer, is fixed by the image at every sector number.
pub trait Store {
    ghost image: { Self → Image };

    // The count of sectors.
    fn size(&self) -> u16
        ensures { result ≡ length (image self.now) };

    // Fills the buffer from the sector, or leaves it and says why. (`&mut self`, since a chip may have to turn its own
    // registers to read; the image stays, which relates a store before and after, so that no type can say it.)
    fn read(&mut self, sector: u16, buffer: &mut [u8; SECTOR]) -> Result<(), Fault>
        ensures answer { result ≡ access (image self.old) sector }
        ensures buffer { buffer.new ≡ filled (image self.old) sector buffer.old }
        ensures image { image self.new ≡ image self.old };

    // Replaces the sector's bytes and no other sector's, or leaves all and says why.
    fn write(&mut self, sector: u16, bytes: &[u8; SECTOR]) -> Result<(), Fault>
        ensures answer { result ≡ access (image self.old) sector }
        ensures image { image self.new ≡ put (image self.old) sector bytes.now };

    // At most 65,535 sectors, and 512 bytes in each that is not dead.
    ghost wholeness: { (s : Self) → whole (image s) ≡ true };
}
