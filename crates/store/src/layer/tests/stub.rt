// A store that is dead almost everywhere, so that a fault tells which sector of it was asked.
ghost use Rattle.std.specs.Prelude.{◌≡◌, ◌≤◌, length};
ghost use Rattle.model.specs.Sizes.{sector_size, most_sectors};
ghost use Rattle.model.specs.Image.{access};
ghost use Rattle.store.specs.Stubs as stubs;

use crate::faults::here;
use crate::{SECTOR, Store};
use model::types::{Cause, Fault};

// One sector is live; every other is dead, at the same depth.
#[derive(Drop)]
pub struct Stub {
    pub sectors: u16,
    pub live: u16,
    pub contents: [u8; SECTOR],
    pub depth: u8,
    ghost few: { sectors ≤ most_sectors },
    ghost long: { length contents ≡ sector_size },
}

impl Stub {
    fn check(&self, sector: u16) -> Result<(), Fault>
        ensures { result ≡ access (stubs.image self.now.sectors self.now.live self.now.contents self.now.depth) sector }
    {
        if sector >= self.sectors {
            Err(here(Cause::PastEnd, sector))
        } else if sector == self.live {
            Ok(())
        } else {
            Err(Fault {
                cause: Cause::Dead,
                place: sector,
                depth: self.depth,
            })
        }
    }
}

impl Store for Stub {
    ghost image = { λ s. stubs.image s.sectors s.live s.contents s.depth };

    ghost wholeness = { λ s. stubs.stub_whole s.sectors s.live s.contents s.depth s.few s.long };

    fn size(&self) -> u16 {
        self.sectors
    }

    fn read(&mut self, sector: u16, buffer: &mut [u8; SECTOR]) -> Result<(), Fault> {
        self.check(sector)?;
        *buffer = self.contents;
        Ok(())
    }

    fn write(&mut self, sector: u16, bytes: &[u8; SECTOR]) -> Result<(), Fault> {
        self.check(sector)?;
        self.contents = *bytes;
        Ok(())
    }
}
