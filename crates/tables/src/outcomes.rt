// What an accepted call makes: the tables after it, and what it answers.
use crate::consistent::Consistent;
use model::types::Kind;

// A new item, and the tables with it.
#[derive(Clone, Copy)]
pub struct Placed {
    pub after: Consistent,
    pub number: u8,
}

// The tables after an item was renamed, and which table has its entry.
#[derive(Clone, Copy)]
pub struct Renamed {
    pub after: Consistent,
    pub kind: Kind,
}

// An item of a directory, by its name.
#[derive(Clone, Copy)]
pub struct Listed<'a> {
    pub kind: Kind,
    pub number: u8,
    pub name: &'a [u8],
}
