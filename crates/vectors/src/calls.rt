// The examples of the calls that change a volume: their answers, and bytes that they leave.
use crate::session::{Step, mkdir, prune, rename, shows, unlink, write};
use model::types::Refusal;
use std::test::Fail;
use volume::sectors::{DIRS, FILES, MAP, ROWS};

#[test]
fn items_are_made(rt: HostRuntime) -> Result<(), Fail> {
    let steps = [
        mkdir(b"abc", Ok(0)),
        mkdir(b"abc", Err(Refusal::Taken)),
        // within abc, by its number as the start
        Step {
            start: 0,
            ..mkdir(b"def", Ok(1))
        },
        mkdir(b"abc/def", Err(Refusal::Taken)),
        mkdir(b"no/def", Err(Refusal::Lost)),
        write(b"abc/def/g", 1024, b'G', Ok(0)),
        write(b"abc/def/g", 1024, b'G', Err(Refusal::Taken)),
        mkdir(b"abc/def/g", Err(Refusal::Taken)),
        mkdir(b"abc/def/g/h", Err(Refusal::Lost)),
    ];
    let leaves: [(u16, usize, &[u8]); 8] = [
        (DIRS, 0, b"\xffabc\0\0\0\0\0\0\0\0\0\0\0\0"),
        (DIRS, 16, b"\0def\0\0\0\0\0\0\0\0\0\0\0\0\0"),
        (FILES, 0, b"\x01g\0\0\0\0\0\0\0\0\0\0\0\0\0\0"),
        (ROWS, 0, b"\x0b\x0c\0\0\0\0\0\0\0\0\0\0\0\0\0\0\0"),
        (MAP, 0x0a, b"\xff\xff\xff\0"),
        (0x0b, 0, b"GG"),
        (0x0c, 511, b"G"),
        (0x0d, 0, b"\0"),
    ];
    shows(&rt, rt.alloc(), &steps, &leaves)
}

#[test]
fn items_are_renamed(rt: HostRuntime) -> Result<(), Fail> {
    let steps = [
        mkdir(b"abc", Ok(0)),
        mkdir(b"abc/def", Ok(1)),
        write(b"abc/def/g", 512, b'G', Ok(0)),
        rename(b"abc", b"abc/def/k", Err(Refusal::Inside)),
        rename(b"abc", b"abc", Err(Refusal::Taken)),
        rename(b"abc/def/g", b"abc/def", Err(Refusal::Taken)),
        rename(b"abc/no", b"k", Err(Refusal::Lost)),
        rename(b"abc", b"no/k", Err(Refusal::Lost)),
        rename(b"abc", b"k/", Err(Refusal::Misspelt)),
        rename(b"abc/def/g", b"a-longer-name", Ok(0)),
        rename(b"a-longer-name", b"h", Ok(0)),
        rename(b"abc/def", b"z", Ok(0)),
    ];
    let leaves: [(u16, usize, &[u8]); 3] = [
        (DIRS, 0, b"\xffabc\0"),
        (DIRS, 16, b"\xffz\0\0\0\0\0\0\0\0\0\0\0\0\0\0\0"),
        (FILES, 0, b"\xffh\0\0\0\0\0\0\0\0\0\0\0\0\0\0\0"),
    ];
    shows(&rt, rt.alloc(), &steps, &leaves)
}

// What a prune takes away keeps its other bytes, and its places are given out again.
#[test]
fn places_are_given_again(rt: HostRuntime) -> Result<(), Fail> {
    let steps = [
        mkdir(b"abc", Ok(0)),
        mkdir(b"abc/def", Ok(1)),
        write(b"abc/def/g", 1024, b'G', Ok(0)),
        write(b"x", 512, b'X', Ok(1)),
        prune(b"abc/def/g", Err(Refusal::Lost)),
        prune(b"abc/def", Ok(0)),
        write(b"h", 512, b'H', Ok(0)),
    ];
    let leaves: [(u16, usize, &[u8]); 5] = [
        (DIRS, 16, b"\0\0ef\0"),
        (FILES, 0, b"\xffh\0"),
        (ROWS, 0, b"\x0b\0\0"),
        (MAP, 0x0a, b"\xff\xff\0\xff\0"),
        (0x0b, 0, b"H"),
    ];
    shows(&rt, rt.alloc(), &steps, &leaves)
}

#[test]
fn prunes_reach_every_level(rt: HostRuntime) -> Result<(), Fail> {
    let steps = [
        mkdir(b"abc", Ok(0)),
        mkdir(b"abc/def", Ok(1)),
        mkdir(b"abc/def/h", Ok(2)),
        mkdir(b"abcd", Ok(3)),
        write(b"abc/def/h/i", 512, b'I', Ok(0)),
        write(b"abcd/i", 512, b'J', Ok(1)),
        prune(b"abc", Ok(0)),
    ];
    let leaves: [(u16, usize, &[u8]); 4] = [
        (DIRS, 0, b"\xff\0bc\0"),
        (DIRS, 48, b"\xffabcd\0"),
        (FILES, 0, b"\x02\0\0\0\0\0\0\0\0\0\0\0\0\0\0\0\x03i"),
        (MAP, 0x0a, b"\xff\0\xff\0"),
    ];
    shows(&rt, rt.alloc(), &steps, &leaves)
}

#[test]
fn a_file_is_unlinked(rt: HostRuntime) -> Result<(), Fail> {
    let steps = [
        write(b"g", 1024, b'G', Ok(0)),
        mkdir(b"d", Ok(0)),
        unlink(b"d", Err(Refusal::Lost)),
        unlink(b"g/", Err(Refusal::Misspelt)),
        unlink(b"g", Ok(0)),
        unlink(b"g", Err(Refusal::Lost)),
    ];
    let leaves: [(u16, usize, &[u8]); 4] = [
        (FILES, 0, b"\xff\0\0"),
        (ROWS, 0, b"\x0b\x0c\0"),
        (MAP, 0x0a, b"\xff\0\0\0"),
        (0x0c, 511, b"G"),
    ];
    shows(&rt, rt.alloc(), &steps, &leaves)
}
