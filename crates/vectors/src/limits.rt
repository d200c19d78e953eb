// The sizes, the counts and the spellings at their edges.
use crate::session::{mkdir, shows, write};
use model::types::Refusal;
use std::test::Fail;

// The names of 32 items and of one more.
const NAMES: &[u8; 33] = b"abcdefghijklmnopqrstuvwxyzABCDEFG";

#[test]
fn sizes_of_files(rt: HostRuntime) -> Result<(), Fail> {
    let steps = [
        write(b"a", 0, 1, Err(Refusal::Size)),
        write(b"a", 511, 1, Err(Refusal::Size)),
        write(b"a", 512, 1, Ok(0)),
        write(b"b", 513, 1, Err(Refusal::Size)),
        write(b"b", 8192, 1, Ok(1)),
        write(b"c", 8704, 1, Err(Refusal::Size)),
        write(b"no/x", 511, 1, Err(Refusal::Size)),
    ];
    shows(&rt, rt.alloc(), &steps, &[])
}

#[test]
fn spellings(rt: HostRuntime) -> Result<(), Fail> {
    let steps = [
        mkdir(b"", Err(Refusal::Misspelt)),
        mkdir(b"/abc", Err(Refusal::Misspelt)),
        mkdir(b"abc/", Err(Refusal::Misspelt)),
        mkdir(b"a//b", Err(Refusal::Misspelt)),
        mkdir(b"aaaaaaaaaaaaaaaa", Err(Refusal::Misspelt)),
        mkdir(b"a b", Err(Refusal::Misspelt)),
        mkdir(b"aaaaaaaaaaaaaaa", Ok(0)),
    ];
    shows(&rt, rt.alloc(), &steps, &[])
}

// 245 data sectors: fifteen files of sixteen, and five more.
#[test]
fn sectors_run_out(rt: HostRuntime) -> Result<(), Fail> {
    let mut steps = Vec::new(rt.alloc());
    for (i, name) in NAMES.chunks(1).take(15).enumerate() {
        steps.push(write(name, 8192, 7, Ok(i as u8)))?;
    }
    steps.push(write(b"x", 6 * 512, 7, Err(Refusal::Sectors)))?;
    steps.push(write(b"x", 5 * 512, 7, Ok(15)))?;
    steps.push(write(b"y", 512, 7, Err(Refusal::Sectors)))?;
    shows(&rt, rt.alloc(), &steps, &[(0xff, 511, b"\x07")])
}

#[test]
fn entries_run_out(rt: HostRuntime) -> Result<(), Fail> {
    let mut steps = Vec::new(rt.alloc());
    for (i, name) in NAMES.chunks(1).take(32).enumerate() {
        steps.push(mkdir(name, Ok(i as u8)))?;
    }
    steps.push(mkdir(b"G", Err(Refusal::Entries)))?;
    steps.push(mkdir(b"a", Err(Refusal::Entries)))?;
    // files have entries of their own, and their names differ from those of directories
    steps.push(write(b"a", 512, 7, Err(Refusal::Taken)))?;
    steps.push(write(b"a/a", 512, 7, Ok(0)))?;
    shows(&rt, rt.alloc(), &steps, &[])
}
