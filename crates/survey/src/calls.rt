// A season's work on a volume: directories and files made, moved, listed and taken away, with the map before and after.
use crate::stores::mended_chip;
use crate::volumes::{draw, verdict};
use model::types::{Kind, Refusal};
use store::flat::Flat;
use store::spares::Spares;
use store::{SECTOR, Store};
use tables::sizes::ROOT;
use volume::format::format;
use volume::opening::inspect;
use volume::types::Volume;

// The most items that a directory can hold.
const MOST_ITEMS: usize = 64;

pub fn tour(rt: &HostRuntime) -> anyhow::Result<()> {
    println!(rt; "6. A season's work on a volume.")?;
    let mut chip = mended_chip(rt)?;
    verdict(rt, "Formatted", format(&mut chip))?;
    let mut volume = Volume::open(chip);
    // an open volume must be closed on every way out, so what the season says waits
    let worked = season(rt, &mut volume);
    let mut chip = volume.close();
    worked?;
    verdict(rt, "Closed and inspected", inspect(&mut chip))
}

fn season(rt: &HostRuntime, volume: &mut Volume<Spares<Flat>>) -> anyhow::Result<()> {
    made(rt, "mkdir raw", volume.mkdir(ROOT, b"raw"))?;
    made(rt, "mkdir legs", volume.mkdir(ROOT, b"legs"))?;
    made(rt, "mkdir loops", volume.mkdir(ROOT, b"loops"))?;
    made(rt, "mkdir raw", volume.mkdir(ROOT, b"raw"))?;
    let shots = [b'R'; 3 * SECTOR];
    made(
        rt,
        "write raw/day1",
        volume.write(ROOT, b"raw/day1", &shots),
    )?;
    made(
        rt,
        "write raw/day2",
        volume.write(ROOT, b"raw/day2", &shots[..SECTOR]),
    )?;
    verdict(
        rt,
        "rename raw/day1 legs/shaft",
        volume.rename(ROOT, b"raw/day1", b"legs/shaft"),
    )?;
    verdict(
        rt,
        "rename legs legs/old",
        volume.rename(ROOT, b"legs", b"legs/old"),
    )?;
    list(rt, volume, "")?;
    list(rt, volume, "legs")?;
    draw(rt, volume)?;
    verdict(rt, "prune legs", volume.prune(ROOT, b"legs"))?;
    verdict(rt, "unlink legs/shaft", volume.unlink(ROOT, b"legs/shaft"))?;
    list(rt, volume, "")?;
    draw(rt, volume)
}

// Prints the number of a new item, or the refusal.
fn made(rt: &HostRuntime, what: &str, answer: Result<u8, Refusal>) -> anyhow::Result<()> {
    match answer {
        Ok(number) => println!(rt; "   {what}: ok, number {number}.")?,
        Err(refusal) => println!(rt; "   {what}: no, {refusal}.")?,
    }
    Ok(())
}

// Prints the items of a directory in the order of their names.
fn list<S: Store>(rt: &HostRuntime, volume: &Volume<S>, path: &str) -> anyhow::Result<()> {
    let place = if path.is_empty() { "the root" } else { path };
    println!(rt; "   What `next` lists in {place}:")?;
    let mut after: &[u8] = b"";
    for _ in 0..MOST_ITEMS {
        let Ok(Some(item)) = volume.next(ROOT, path.as_bytes(), after) else {
            break;
        };
        let kind = match item.kind {
            Kind::Directory => "directory",
            Kind::File => "file",
        };
        let name = str::from_utf8(item.name).unwrap_or("?");
        println!(rt; "      {kind} {number} {name}", number = item.number)?;
        after = item.name;
    }
    Ok(())
}
