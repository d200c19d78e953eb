// A list of calls on a newly formatted volume, each with the answer that it must have.
use model::types::Refusal;
use std::alloc::Global;
use std::process::Abort;
use std::test::Fail;
use store::flat::Flat;
use store::{SECTOR, Store};
use tables::sizes::ROOT;
use volume::format::format;
use volume::types::Volume;

// A call with what it takes besides its start and its path.
#[derive(Clone, Copy)]
pub enum Call<'a> {
    Mkdir,
    // the count of bytes, and the byte that they all are
    Write(usize, u8),
    Unlink,
    Prune,
    Rename(&'a [u8]),
}

// A call and its answer: the number of a new item, or 0 where it makes none.
#[derive(Clone, Copy)]
pub struct Step<'a> {
    pub start: u8,
    pub path: &'a [u8],
    pub call: Call<'a>,
    pub answer: Result<u8, Refusal>,
}

// A step from the root.
fn from_root<'a>(path: &'a [u8], call: Call<'a>, answer: Result<u8, Refusal>) -> Step<'a> {
    Step {
        start: ROOT,
        path,
        call,
        answer,
    }
}

pub fn mkdir(path: &[u8], answer: Result<u8, Refusal>) -> Step<'_> {
    from_root(path, Call::Mkdir, answer)
}

pub fn write(path: &[u8], size: usize, byte: u8, answer: Result<u8, Refusal>) -> Step<'_> {
    from_root(path, Call::Write(size, byte), answer)
}

pub fn unlink(path: &[u8], answer: Result<u8, Refusal>) -> Step<'_> {
    from_root(path, Call::Unlink, answer)
}

pub fn prune(path: &[u8], answer: Result<u8, Refusal>) -> Step<'_> {
    from_root(path, Call::Prune, answer)
}

pub fn rename<'a>(from: &'a [u8], to: &'a [u8], answer: Result<u8, Refusal>) -> Step<'a> {
    from_root(from, Call::Rename(to), answer)
}

// A flat store of so many blank sectors, with these dead.
pub fn flat(alloc: Global, sectors: usize, dead: Option<u16>) -> Result<Flat, Fail> {
    let mut numbers = Vec::new(alloc);
    if let Some(sector) = dead {
        numbers.push(sector)?;
    }
    Ok(Flat::lay(
        vec![in alloc; 0u8; sectors.saturating_mul(SECTOR)]?,
        numbers,
    ))
}

// Makes the calls on the volume and compares their answers.
pub fn play<S: Store>(
    rt: &impl Abort,
    alloc: Global,
    volume: &mut Volume<S>,
    steps: &[Step<'_>],
) -> Result<(), Fail> {
    for step in steps {
        let Step {
            start,
            path,
            call,
            answer,
        } = *step;
        let given = match call {
            Call::Mkdir => volume.mkdir(start, path),
            Call::Write(size, byte) => volume.write(start, path, &vec![in alloc; byte; size]?),
            Call::Unlink => volume.unlink(start, path).map(|()| 0),
            Call::Prune => volume.prune(start, path).map(|()| 0),
            Call::Rename(to) => volume.rename(start, path, to).map(|()| 0),
        };
        assert_eq!(rt; given, answer);
    }
    Ok(())
}

// Bytes that a sector is to hold, from one of its bytes on.
pub type Bytes<'a> = (u16, usize, &'a [u8]);

// Whether the store holds these bytes.
pub fn holds<S: Store>(rt: &impl Abort, chip: &mut S, leaves: &[Bytes<'_>]) {
    for (at, from, are) in leaves {
        let mut sector = [0; SECTOR];
        assert_eq!(rt; chip.read(*at, &mut sector), Ok(()));
        for (i, byte) in are.iter().enumerate() {
            assert_eq!(rt; sector.get(from.saturating_add(i)), Some(byte));
        }
    }
}

// On a newly formatted volume of 260 sectors the steps have their answers, and leave these bytes.
pub fn shows(
    rt: &impl Abort,
    alloc: Global,
    steps: &[Step<'_>],
    leaves: &[Bytes<'_>],
) -> Result<(), Fail> {
    let mut chip = flat(alloc, 260, None)?;
    assert_eq!(rt; format(&mut chip), Ok(()));
    let mut volume = Volume::open(chip);
    let played = play(rt, alloc, &mut volume, steps);
    let mut chip = volume.close();
    played?;
    holds(rt, &mut chip, leaves);
    Ok(())
}
