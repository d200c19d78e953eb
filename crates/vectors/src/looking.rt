// The examples of the calls that only look.
use crate::session::{Step, flat, mkdir, play, write};
use model::types::{Kind, Refusal};
use std::test::Fail;
use store::SECTOR;
use store::flat::Flat;
use tables::sizes::ROOT;
use volume::format::format;
use volume::types::Volume;

// abc, abc/def, the files abc/def/g of two sectors and abc/d of one, and the directory ab.
fn steps<'a>() -> [Step<'a>; 5] {
    [
        mkdir(b"abc", Ok(0)),
        mkdir(b"abc/def", Ok(1)),
        write(b"abc/def/g", 1024, b'G', Ok(0)),
        write(b"abc/d", 512, b'D', Ok(1)),
        mkdir(b"ab", Ok(2)),
    ]
}

#[test]
fn items_are_found(rt: HostRuntime) -> Result<(), Fail> {
    let mut chip = flat(rt.alloc(), 260, None)?;
    assert_eq!(rt; format(&mut chip), Ok(()));
    let mut volume = Volume::open(chip);
    let played = play(&rt, rt.alloc(), &mut volume, &steps());
    let table: [(u8, &[u8], Result<(Kind, u8), Refusal>); 9] = [
        (ROOT, b"", Ok((Kind::Directory, ROOT))),
        (ROOT, b"abc", Ok((Kind::Directory, 0))),
        (ROOT, b"abc/def/g", Ok((Kind::File, 0))),
        (1, b"g", Ok((Kind::File, 0))),
        (1, b"", Ok((Kind::Directory, 1))),
        (3, b"g", Err(Refusal::Start)),
        (ROOT, b"g", Err(Refusal::Lost)),
        (ROOT, b"abc/def/g/", Err(Refusal::Misspelt)),
        (0, b"def/g/h", Err(Refusal::Lost)),
    ];
    for (start, path, found) in table {
        assert_eq!(rt; volume.find(start, path), found);
    }
    let _ = volume.close();
    played
}

#[test]
fn names_are_listed_in_order(rt: HostRuntime) -> Result<(), Fail> {
    let mut chip = flat(rt.alloc(), 260, None)?;
    assert_eq!(rt; format(&mut chip), Ok(()));
    let mut volume = Volume::open(chip);
    let played = play(&rt, rt.alloc(), &mut volume, &steps());
    let table: [(&[u8], &[u8], Option<(Kind, u8, &[u8])>); 8] = [
        (b"", b"", Some((Kind::Directory, 2, b"ab"))),
        (b"", b"ab", Some((Kind::Directory, 0, b"abc"))),
        (b"", b"abb", Some((Kind::Directory, 0, b"abc"))),
        (b"", b"abc", None),
        (b"abc", b"", Some((Kind::File, 1, b"d"))),
        (b"abc", b"d", Some((Kind::Directory, 1, b"def"))),
        (b"abc/def", b"a", Some((Kind::File, 0, b"g"))),
        (b"ab", b"", None),
    ];
    for (path, after, item) in table {
        let listed = volume.next(ROOT, path, after);
        let told = listed.map(|o| o.map(|item| (item.kind, item.number, item.name)));
        assert_eq!(rt; told, Ok(item));
    }
    assert!(rt; matches!(&volume.next(ROOT, b"abc/d", b""), Err(Refusal::Lost)));
    let _ = volume.close();
    played
}

// A file's sectors come to the front of the buffer, and the rest of it stays.
#[test]
fn files_are_read(rt: HostRuntime) -> Result<(), Fail> {
    let mut chip = flat(rt.alloc(), 260, None)?;
    assert_eq!(rt; format(&mut chip), Ok(()));
    let mut volume = Volume::open(chip);
    let played = play(&rt, rt.alloc(), &mut volume, &steps());
    let mut buffer = [1; 3 * SECTOR];
    assert_eq!(rt;
        volume.read(ROOT, b"abc/def/g", &mut buffer[..1023]),
        Err(Refusal::Size)
    );
    assert_eq!(rt; buffer[0], 1);
    assert_eq!(rt; volume.read(ROOT, b"abc/def/g", &mut buffer), Ok(2));
    for (at, byte) in [(0, b'G'), (1023, b'G'), (1024, 1), (1535, 1)] {
        assert_eq!(rt; buffer.get(at).copied(), Some(byte));
    }
    let mut whole = [1; 2 * SECTOR];
    assert_eq!(rt; volume.read(1, b"g", &mut whole), Ok(2));
    assert_eq!(rt; volume.read(ROOT, b"abc", &mut buffer), Err(Refusal::Lost));
    let _ = volume.close();
    played
}
