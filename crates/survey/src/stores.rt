// Stores and layers: a chip with one dead sector, seen through windows and mended by a spare.
use store::flat::Flat;
use store::pair::Pair;
use store::spares::{Spare, Spares};
use store::window::Window;
use store::{SECTOR, Store};

// The sector of the table of files, which is dead on this chip, and the sector that is to serve it.
const DEAD: u16 = 0x102;

const SPARE: u16 = 260;

pub fn tour(rt: &HostRuntime) -> anyhow::Result<()> {
    println!(rt; "")?;
    println!(rt; "1. A chip of 261 sectors comes from the bench with sector {DEAD} dead.")?;
    let mut chip = worn_chip(rt)?;
    look(rt, "The chip", &mut chip)?;
    let mut window = Window::lay(chip, 0, SPARE);
    look(rt, "A window over its first 260 sectors", &mut window)?;
    let mut window = Window::lay(window, 0, SPARE);
    look(rt, "A window over that window", &mut window)?;

    println!(rt; "2. Sector {SPARE} is to serve it.")?;
    let mut spares = mended_chip(rt)?;
    look(rt, "Spares over the chip", &mut spares)?;
    copy_and_compare(rt, &mut spares)?;

    println!(rt; "3. The same on a pair of buffers, 130 sectors each, with nothing dead.")?;
    let even = vec![in rt.alloc(); 0; 130 * SECTOR]?;
    let odd = vec![in rt.alloc(); 0; 130 * SECTOR]?;
    let mut pair = Pair::lay(even, odd);
    look(rt, "The pair", &mut pair)?;
    copy_and_compare(rt, &mut pair)
}

// 261 sectors of 0x00, of which one is declared dead.
fn worn_chip(rt: &HostRuntime) -> anyhow::Result<Flat> {
    let bytes = vec![in rt.alloc(); 0; 261 * SECTOR]?;
    let dead = vec![in rt.alloc(); DEAD]?;
    Ok(Flat::lay(bytes, dead))
}

// The same chip behind spares.
pub fn mended_chip(rt: &HostRuntime) -> anyhow::Result<Spares<Flat>> {
    let mended = Spare {
        sector: DEAD,
        spare: SPARE,
    };
    Ok(Spares::lay(worn_chip(rt)?, SPARE, vec![in rt.alloc(); mended]?))
}

// Prints how large a store is, and what a read of the sector meets.
fn look<S: Store>(rt: &HostRuntime, name: &str, store: &mut S) -> anyhow::Result<()> {
    let size = store.size();
    let mut buffer = [0; SECTOR];
    match store.read(DEAD, &mut buffer) {
        Ok(()) => println!(rt; "   {name}: {size} sectors; sector {DEAD} can be read.")?,
        Err(fault) => println!(rt; "   {name}: {size} sectors; sector {DEAD} is {fault}.")?,
    }
    Ok(())
}

// Writes the sector and reads it back.
fn copy_and_compare<S: Store>(rt: &HostRuntime, store: &mut S) -> anyhow::Result<()> {
    let bytes = [0x5a; SECTOR];
    let mut back = [0; SECTOR];
    if store.write(DEAD, &bytes).is_err() || store.read(DEAD, &mut back).is_err() {
        println!(rt; "   Sector {DEAD} cannot be used.")?;
    } else if back == bytes {
        println!(rt; "   Sector {DEAD} was written and read back: the same 512 bytes.")?;
    } else {
        println!(rt; "   Sector {DEAD} came back changed.")?;
    }
    Ok(())
}
