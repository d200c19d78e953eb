// The one size that every crate counts in.

// The bytes of a sector.
pub const SECTOR: usize = 512;
