// Examples of names, paths, free slots and the layout, as tables.
use crate::types::{Entry, Mark, Tables};
use crate::{names, paths, slots};

#[test]
fn names_of_proper_bytes(rt: HostRuntime) {
    let table: [(&[u8], bool); 10] = [
        (b"", false),
        (b"a", true),
        (b"fifteen-letters", true),
        (b"sixteen--letters", false),
        (b"\x20", false),
        (b"\x21", true),
        (b"\x7e", true),
        (b"\x7f", false),
        (b"/", false),
        (b"a/b", false),
    ];
    for (name, proper) in table {
        assert_eq!(rt; names::is_proper(name), proper);
    }
}

#[test]
fn names_in_order(rt: HostRuntime) {
    let table: [(&[u8], &[u8], bool); 6] = [
        (b"a", b"b", true),
        (b"b", b"a", false),
        (b"a", b"a", false),
        (b"a", b"ab", true),
        (b"ab", b"a", false),
        (b"", b"a", true),
    ];
    for (a, b, before) in table {
        assert_eq!(rt; names::precedes(a, b), before);
    }
}

#[test]
fn paths_as_spelt(rt: HostRuntime) {
    let table: [(&[u8], bool, &[u8]); 7] = [
        (b"", false, b""),
        (b"abc", true, b"abc"),
        (b"abc/def", true, b"def"),
        (b"/abc", false, b"abc"),
        (b"abc/", false, b""),
        (b"a//b", false, b"b"),
        (b"a/sixteen--letters", false, b"sixteen--letters"),
    ];
    for (path, spelt, last) in table {
        assert_eq!(rt; paths::is_spelt(path), spelt);
        assert_eq!(rt; paths::is_spelt_or_empty(path), spelt || path.is_empty());
        assert_eq!(rt; paths::last_name(path), last);
    }
}

#[test]
fn paths_within_paths(rt: HostRuntime) {
    let table: [(&[u8], &[u8], bool); 6] = [
        (b"a", b"a", true),
        (b"a", b"a/b", true),
        (b"a", b"ab", false),
        (b"a/b", b"a", false),
        (b"", b"a", true),
        (b"a", b"", false),
    ];
    for (p, q, within) in table {
        assert_eq!(rt; paths::is_within(p, q), within);
    }
}

#[test]
fn lowest_free_slot(rt: HostRuntime) {
    let live = Entry::new(0xff, b"a");
    assert_eq!(rt; slots::first_free(&[live, live]), None);
    assert_eq!(rt;
        slots::first_free(&[live, Entry::FREE, Entry::FREE]),
        Some(1)
    );
    assert_eq!(rt; slots::first_free(&[Mark::FREE, Mark::USED]), Some(0));
    assert_eq!(rt;
        slots::first_free(&[Mark::USED, Mark::DEAD, Mark::FREE]),
        Some(2)
    );
    let none: [Mark; 0] = [];
    assert_eq!(rt; slots::first_free(&none), None);
}

#[test]
fn tables_read_back(rt: HostRuntime) {
    let mut sector = [0; 512];
    for (i, byte) in sector.iter_mut().enumerate() {
        *byte = (i % 251) as u8;
    }
    let tables = Tables::decode(&sector, &sector, &sector, &sector);
    assert_eq!(rt; tables.dirs[2].parent, 32);
    assert_eq!(rt; tables.rows[31].places[15], 9);
    assert!(rt; tables.map_sector() == sector);
    assert!(rt; tables.dirs_sector() == sector);
    assert!(rt; tables.files_sector() == sector);
    assert!(rt; tables.rows_sector() == sector);
}
