// The two layers on examples, over a store that tells by its faults which sector was asked.
mod stub;

use crate::spares::{Spare, Spares};
use crate::window::Window;
use crate::{SECTOR, Store};
use model::types::{Cause, Fault};
use std::array;
use std::test::Fail;
use stub::Stub;

fn filled(sectors: u16, live: u16) -> Stub {
    Stub {
        sectors,
        live,
        contents: [7; SECTOR],
        depth: 0,
    }
}

fn pair(sector: u16, spare: u16) -> Spare {
    Spare { sector, spare }
}

fn dead(place: u16, depth: u8) -> Result<(), Fault> {
    Err(Fault {
        cause: Cause::Dead,
        place,
        depth,
    })
}

fn past_end(place: u16) -> Result<(), Fault> {
    Err(Fault {
        cause: Cause::PastEnd,
        place,
        depth: 0,
    })
}

#[test]
fn window_fits(rt: HostRuntime) {
    let below = filled(10, 0);
    for (first, count, fits) in [
        (0, 10, true),
        (3, 7, true),
        (3, 8, false),
        (10, 0, true),
        (11, 0, false),
        (65_535, 1, false),
        (65_535, 65_535, false),
    ] {
        assert_eq!(rt; Window::fits(&below, first, count).is_ok(), fits);
    }
}

#[test]
fn window_serves(rt: HostRuntime) {
    let mut window = Window::lay(filled(10, 5), 3, 4);
    let mut buffer = [0; SECTOR];
    assert_eq!(rt; window.size(), 4);
    for (sector, answer) in [
        (0, dead(3, 1)),
        (2, Ok(())),
        (3, dead(6, 1)),
        (4, past_end(4)),
        (65_535, past_end(65_535)),
    ] {
        assert_eq!(rt; window.read(sector, &mut buffer), answer);
        assert_eq!(rt; window.write(sector, &[9; SECTOR]), answer);
    }
    assert_eq!(rt; buffer[511], 7);
    let below = window.into_below();
    let first = below.contents[0];
    assert_eq!(rt; first, 9);
}

#[test]
fn spares_fit(rt: HostRuntime) {
    let below = filled(6, 0);
    assert_eq!(rt; Spares::fits(&below, 6, &[]).is_ok(), true);
    assert_eq!(rt; Spares::fits(&below, 7, &[]).is_ok(), false);
    let good = pair(3, 4);
    for (other, fits) in [
        (pair(0, 5), true),
        (pair(3, 5), false),
        (pair(4, 5), false),
        (pair(0, 4), false),
        (pair(0, 3), false),
        (pair(0, 6), false),
        (pair(0, 65_535), false),
    ] {
        assert_eq!(rt; Spares::fits(&below, 4, &[good, other]).is_ok(), fits);
        assert_eq!(rt; Spares::fits(&below, 4, &[other, good]).is_ok(), fits);
    }
}

#[test]
fn spares_are_few(rt: HostRuntime) {
    let pairs: [Spare; 9] = array::from_fn(|i| pair(i as u16, i as u16 + 9));
    let below = filled(18, 0);
    assert_eq!(rt; Spares::fits(&below, 9, &pairs[0..8]).is_ok(), true);
    assert_eq!(rt; Spares::fits(&below, 9, &pairs).is_ok(), false);
}

#[test]
fn spares_serve(rt: HostRuntime) -> Result<(), Fail> {
    let pairs = vec![in rt.alloc(); pair(1, 5), pair(2, 4)]?;
    let mut spares = Spares::lay(filled(6, 5), 4, pairs);
    let mut buffer = [0; SECTOR];
    assert_eq!(rt; spares.size(), 4);
    for (sector, answer) in [
        (0, dead(0, 1)),
        (1, Ok(())),
        (2, dead(4, 1)),
        (3, dead(3, 1)),
        (4, past_end(4)),
        (5, past_end(5)),
    ] {
        assert_eq!(rt; spares.read(sector, &mut buffer), answer);
        assert_eq!(rt; spares.write(sector, &[9; SECTOR]), answer);
    }
    assert_eq!(rt; buffer[511], 7);
    let below = spares.into_below();
    let first = below.contents[0];
    assert_eq!(rt; first, 9);
    Ok(())
}

// Laid without fitting, a layer has no sector; so the layers above it fit only if they ask none.
#[test]
fn misfits_are_empty(rt: HostRuntime) -> Result<(), Fail> {
    let window = Window::lay(filled(10, 5), 3, 8);
    assert_eq!(rt; window.size(), 0);
    let mut spares = Spares::lay(window, 1, vec![in rt.alloc()]?);
    assert_eq!(rt; spares.size(), 0);
    assert_eq!(rt; spares.read(0, &mut [0; SECTOR]), past_end(0));
    Ok(())
}

// A layer adds one to the depth, up to 255.
#[test]
fn depth_stays(rt: HostRuntime) -> Result<(), Fail> {
    let below = Stub {
        sectors: 9,
        live: 0,
        contents: [0; SECTOR],
        depth: 254,
    };
    let mut window = Window::lay(below, 1, 8);
    assert_eq!(rt; window.read(6, &mut [0; SECTOR]), dead(7, 255));
    let mut spares = Spares::lay(window, 4, vec![in rt.alloc(); pair(3, 6)]?);
    assert_eq!(rt; spares.write(3, &[0; SECTOR]), dead(7, 255));
    Ok(())
}
