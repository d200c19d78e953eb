// A volume on a mended chip: made, opened, drawn, closed, inspected, and then damaged in one byte at a time.
use crate::stores::mended_chip;
use model::types::Refusal;
use store::flat::Flat;
use store::spares::Spares;
use store::{SECTOR, Store};
use tables::types::Mark;
use volume::format::format;
use volume::opening::inspect;
use volume::types::Volume;

// A byte of a table, and what it would mean there.
struct Damage {
    sector: u16,
    at: usize,
    byte: u8,
    says: &'static str,
}

const DAMAGES: [Damage; 6] = [
    Damage {
        sector: 0x100,
        at: 3,
        byte: 0x00,
        says: "a reserved sector is marked free",
    },
    Damage {
        sector: 0x100,
        at: 0x20,
        byte: 0xff,
        says: "a free sector is marked used",
    },
    Damage {
        sector: 0x100,
        at: 0x110,
        byte: 0xff,
        says: "a mark stands past the data sectors",
    },
    Damage {
        sector: 0x101,
        at: 1,
        byte: 0x2f,
        says: "a directory is called `/`",
    },
    Damage {
        sector: 0x102,
        at: 1,
        byte: 0x61,
        says: "a file `a` stands in directory 0, which is free",
    },
    Damage {
        sector: 0x103,
        at: 0,
        byte: 0x0b,
        says: "a row names a sector, and its file is free: that is sound",
    },
];

pub fn tour(rt: &HostRuntime) -> anyhow::Result<()> {
    println!(rt; "4. A volume is made on the mended chip.")?;
    let mut chip = mended_chip(rt)?;
    verdict(rt, "Inspected before", inspect(&mut chip))?;
    verdict(rt, "Formatted", format(&mut chip))?;
    let volume = Volume::open(chip);
    // an open volume must be closed on every way out, so what the drawing says waits
    let drawn = draw(rt, &volume);
    let mut chip = volume.close();
    drawn?;
    verdict(rt, "Closed and inspected", inspect(&mut chip))?;

    println!(rt; "5. One byte at a time is damaged, and the volume inspected.")?;
    for damage in &DAMAGES {
        let says = damage.says;
        spoil(&mut chip, damage);
        verdict(rt, says, inspect(&mut chip))?;
        verdict_unless_ok(rt, format(&mut chip))?;
    }
    Ok(())
}

// Prints `ok`, or the refusal's number and word.
pub fn verdict(rt: &HostRuntime, what: &str, answer: Result<(), Refusal>) -> anyhow::Result<()> {
    match answer {
        Ok(()) => println!(rt; "   {what}: ok.")?,
        Err(refusal) => println!(rt; "   {what}: no, {refusal}.")?,
    }
    Ok(())
}

fn verdict_unless_ok(rt: &HostRuntime, answer: Result<(), Refusal>) -> anyhow::Result<()> {
    if answer.is_err() {
        verdict(rt, "Formatted again", answer)?;
    }
    Ok(())
}

// Sets one byte of a sector.
fn spoil(chip: &mut Spares<Flat>, damage: &Damage) {
    let mut sector = [0; SECTOR];
    if damage.at < SECTOR && chip.read(damage.sector, &mut sector).is_ok() {
        sector[damage.at] = damage.byte;
        let _ = chip.write(damage.sector, &sector);
    }
}

// Draws the allocation map as sixteen rows of sixteen letters.
pub fn draw<S: Store>(rt: &HostRuntime, volume: &Volume<S>) -> anyhow::Result<()> {
    // the refusal is printed, and the tour goes on
    let map = match volume.map() {
        Ok(map) => map,
        Err(refusal) => return verdict(rt, "The map", Err(refusal)),
    };
    println!(rt; "   The allocation map (`.` free, `#` used or reserved, `x` dead):")?;
    for row in map.chunks(16).take(16) {
        print!(rt; "      ")?;
        for mark in row {
            print!(rt; "{}", Mark(*mark))?;
        }
        println!(rt; "")?;
    }
    Ok(())
}
