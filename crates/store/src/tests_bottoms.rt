// The three bottom stores: what fits, and what the first, the last, a dead and a missing sector answer.
use crate::faults::here;
use crate::flat::Flat;
use crate::pair::Pair;
use crate::short::Short;
use crate::{SECTOR, Store};
use model::types::{Cause, Fault};
use std::process::Abort;
use std::test::Fail;

#[test]
fn flat_fits(rt: HostRuntime) -> Result<(), Fail> {
    let cases = [
        (0, 0, true),
        (511, 0, false),
        (512, 8, true),
        (512, 9, false),
        (513, 0, false),
        (65_535 * SECTOR, 0, true),
        (65_536 * SECTOR, 0, false),
    ];
    for (bytes, listed, fit) in cases {
        let buffer = vec![in rt.alloc(); 0u8; bytes]?;
        let dead = vec![in rt.alloc(); 7u16; listed]?;
        assert_eq!(rt; Flat::fits(&buffer, &dead).is_ok(), fit);
        let sectors = if fit { bytes / SECTOR } else { 0 };
        assert_eq!(rt; usize::from(Flat::lay(buffer, dead).size()), sectors);
    }
    Ok(())
}

#[test]
fn pair_fits(rt: HostRuntime) -> Result<(), Fail> {
    let cases = [
        (0, 0, true),
        (512, 512, true),
        (512, 1024, false),
        (513, 513, false),
        (32_767 * SECTOR, 32_767 * SECTOR, true),
        (32_768 * SECTOR, 32_768 * SECTOR, false),
    ];
    for (left, right, fit) in cases {
        let even = vec![in rt.alloc(); 0u8; left]?;
        let odd = vec![in rt.alloc(); 0u8; right]?;
        assert_eq!(rt; Pair::fits(&even, &odd).is_ok(), fit);
        let sectors = if fit { 2 * (left / SECTOR) } else { 0 };
        assert_eq!(rt; usize::from(Pair::lay(even, odd).size()), sectors);
    }
    Ok(())
}

#[test]
fn short_fits(rt: HostRuntime) -> Result<(), Fail> {
    for (bytes, sectors) in [(0, 0), (34_815, 0), (34_816, 260), (34_817, 0)] {
        let buffer = vec![in rt.alloc(); 0u8; bytes]?;
        assert_eq!(rt; Short::fits(&buffer).is_ok(), sectors != 0);
        assert_eq!(rt; Short::lay(buffer).size(), sectors);
    }
    Ok(())
}

// What a buffer holds before a read.
const OLD: [u8; SECTOR] = [0xAA; SECTOR];

// Fills the sector with `byte` and reads it back; or meets the fault in both, which leaves the buffer as it was.
fn go_through<S: Store>(
    rt: &impl Abort,
    store: &mut S,
    sector: u16,
    byte: u8,
    fault: Option<Fault>,
) {
    let new = [byte; SECTOR];
    let mut buffer = OLD;
    let (answer, left) = match fault {
        None => (Ok(()), new),
        Some(f) => (Err(f), OLD),
    };
    assert_eq!(rt; store.write(sector, &new), answer);
    assert_eq!(rt; store.read(sector, &mut buffer), answer);
    assert!(rt; buffer == left);
}

#[test]
fn flat_serves(rt: HostRuntime) -> Result<(), Fail> {
    let dead = vec![in rt.alloc(); 1u16, 9]?;
    let mut flat = Flat::lay(vec![in rt.alloc(); 0u8; 4 * SECTOR]?, dead);
    let cases = [
        (0, 5, None),
        (1, 6, Some(here(Cause::Dead, 1))),
        (3, 7, None),
        (4, 8, Some(here(Cause::PastEnd, 4))),
        (9, 8, Some(here(Cause::PastEnd, 9))),
    ];
    for (sector, byte, fault) in cases {
        go_through(&rt, &mut flat, sector, byte, fault);
    }
    let back = flat.into_buffer();
    for (at, byte) in [(0, 5), (511, 5), (512, 0), (1535, 0), (1536, 7), (2047, 7)] {
        assert_eq!(rt; back.get(at).copied(), Some(byte));
    }
    Ok(())
}

#[test]
fn pair_serves(rt: HostRuntime) -> Result<(), Fail> {
    let even = vec![in rt.alloc(); 0u8; 2 * SECTOR]?;
    let mut pair = Pair::lay(even, vec![in rt.alloc(); 0u8; 2 * SECTOR]?);
    for (sector, byte, fault) in [
        (0, 5, None),
        (1, 6, None),
        (3, 7, None),
        (4, 8, Some(here(Cause::PastEnd, 4))),
    ] {
        go_through(&rt, &mut pair, sector, byte, fault);
    }
    let (even, odd) = pair.into_buffers();
    for (at, low, high) in [(0, 5, 6), (511, 5, 6), (512, 0, 7), (1023, 0, 7)] {
        assert_eq!(rt; even.get(at).copied(), Some(low));
        assert_eq!(rt; odd.get(at).copied(), Some(high));
    }
    Ok(())
}

#[test]
fn short_serves(rt: HostRuntime) -> Result<(), Fail> {
    let mut short = Short::lay(vec![in rt.alloc(); 0u8; 68 * SECTOR]?);
    let cases = [
        (0x00, 5, None),
        (0x3F, 6, None),
        (0x40, 7, Some(here(Cause::Dead, 0x40))),
        (0xFF, 7, Some(here(Cause::Dead, 0xFF))),
        (0x100, 8, None),
        (0x103, 9, None),
        (0x104, 7, Some(here(Cause::PastEnd, 0x104))),
    ];
    for (sector, byte, fault) in cases {
        go_through(&rt, &mut short, sector, byte, fault);
    }
    let back = short.into_buffer();
    let kept = [
        (0, 5),
        (SECTOR, 0),
        (63 * SECTOR, 6),
        (64 * SECTOR, 8),
        (65 * SECTOR, 0),
        (67 * SECTOR, 9),
    ];
    for (at, byte) in kept {
        assert_eq!(rt; back.get(at).copied(), Some(byte));
    }
    Ok(())
}

// What was laid without fitting has no sector to read.
#[test]
fn misfits_serve_nothing(rt: HostRuntime) -> Result<(), Fail> {
    let mut flat = Flat::lay(vec![in rt.alloc(); 0u8; 513]?, Vec::new(rt.alloc()));
    go_through(&rt, &mut flat, 0, 5, Some(here(Cause::PastEnd, 0)));
    let mut pair = Pair::lay(vec![in rt.alloc(); 0u8; 512]?, Vec::new(rt.alloc()));
    go_through(&rt, &mut pair, 0, 5, Some(here(Cause::PastEnd, 0)));
    let mut short = Short::lay(vec![in rt.alloc(); 0u8; 512]?);
    go_through(&rt, &mut short, 0, 5, Some(here(Cause::PastEnd, 0)));
    Ok(())
}
