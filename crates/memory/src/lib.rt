// What the reader keeps in memory, as types: definitions over them in specs/, laws in proofs/. No code.
#![tactic(auto)]

use names::Names;
use paper::{Counts, Refusal};

// What a kind's record is made of. class: 0 nothing known, 1 the format record, 2 a name, 3 a node, 4 the end record. len: the bytes of the body.
// range: what the first field is looked at for, 0 nothing, 1 a name's number, 2 an op of a comparison, 3 an op of arithmetic, 4 a slot. sort1 and
// sort2: the sort of a reference, 0 none, 1 a condition, 2 a term, 3 arguments, 4 items, 5 binders; at1 and at2: where in the body it stands.
#[derive(Clone, Copy)]
pub struct Row {
    pub class: u8,
    pub len: u8,
    pub range: u8,
    pub sort1: u8,
    pub at1: u8,
    pub sort2: u8,
    pub at2: u8,
}

// Why bytes are turned away: each of document 01's refusals of the reader, with its number.
#[derive(Clone, Copy, PartialEq, Eq, Debug)]
pub enum Fault {
    CutShort = 1,
    OutOfOrder = 2,
    OtherEdition = 3,
    NotAName = 4,
    NamesNotAscending = 5,
    NoRoom = 6,
    OutOfRange = 7,
    NotBelow = 8,
    WrongSort = 9,
    TooDeep = 10,
    ReferredTwice = 11,
    WrongEnd = 12,
    NotOneTree = 13,
}

// What a kind byte says of a record that may stand where it does and is there whole.
#[derive(Clone, Copy, PartialEq, Eq, Debug)]
pub enum Head {
    Format,
    Name,
    Node,
    End,
}

// What a walk over the records comes to: the verdict, and which names of the table are reserved. Where nodes start is put into a lent array.
#[derive(Clone, Copy)]
pub struct Scanned {
    pub verdict: Result<Counts, Refusal>,
    pub reserved: Names,
}

// A node's record in numbers: its kind, and the two bytes at each place of its body.
#[derive(Clone, Copy)]
pub struct Numbers {
    pub kind: u16,
    pub p0: u16,
    pub p1: u16,
    pub p2: u16,
    pub p3: u16,
    pub p4: u16,
}

// Nodes as columns, side by side: how many there are stands behind them.
pub const COUNT: usize = 512;

// What a node's word is divided by, so that the two bytes at a place of its body come lowest.
pub const PLACE_0: u64 = 0x10000;

pub const PLACE_1: u64 = 0x1000000;

pub const PLACE_2: u64 = 0x100000000;

pub const PLACE_3: u64 = 0x10000000000;

pub const PLACE_4: u64 = 0x1000000000000;
