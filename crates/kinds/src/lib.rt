// The table of kinds: for each kind byte what its record is made of, and in which places it fits.
#![tactic(auto)]

ghost use Rattle.std.specs.Prelude.{◌≡◌};
ghost use Rattle.paper.specs.Record.{fits as fits_sort};
ghost use Rattle.memory.specs.Rows.{unpacked, row_at, fitting as fitting_sort};
ghost use Rattle.memory.specs.Fields.{sort_of};

use memory::Row;

// A row in one number, in hex from the left: one digit of class, two of len, one of range, one each of sort1 and at1, of sort2 and at2. So And, a node
// of 4 bytes that nothing is looked at for, with a condition at 0 and another at 2, is 3_04_0_10_12. A `match` and no constant array, which would be
// built anew for each record; the end record's kind stands apart, so that the rest is dense enough for the compiler to make one table of it.
fn packed(kind: u8) -> u32
    ensures { unpacked result ≡ row_at kind }
{
    if 0x40 <= kind {
        return if kind == 0x7F { 0x4_02_0_00_00 } else { 0 };
    }
    match kind {
        0x01 => 0x1_01_0_00_00,
        0x02 => 0x2_18_0_00_00,
        0x10 => 0x3_04_0_10_12,
        0x11 => 0x3_04_0_10_12,
        0x12 => 0x3_02_0_10_00,
        0x13 => 0x3_04_0_10_00,
        0x14 => 0x3_04_0_10_00,
        0x15 => 0x3_06_0_10_12,
        0x16 => 0x3_05_4_13_00,
        0x17 => 0x3_05_2_21_23,
        0x18 => 0x3_04_0_32_00,
        0x19 => 0x3_04_0_10_32,
        0x1A => 0x3_02_4_00_00,
        0x1B => 0x3_02_0_00_00,
        0x1C => 0x3_02_0_00_00,
        0x20 => 0x3_01_1_00_00,
        0x21 => 0x3_00_0_00_00,
        0x22 => 0x3_02_0_00_00,
        0x23 => 0x3_02_0_00_00,
        0x24 => 0x3_02_0_00_00,
        0x25 => 0x3_01_0_00_00,
        0x26 => 0x3_01_0_00_00,
        0x27 => 0x3_02_0_40_00,
        0x28 => 0x3_05_3_21_23,
        0x29 => 0x3_06_4_52_14,
        0x2A => 0x3_04_0_50_12,
        0x2B => 0x3_02_0_00_00,
        0x30 => 0x3_00_0_00_00,
        0x31 => 0x3_06_0_22_34,
        0x32 => 0x3_04_0_20_42,
        0x33 => 0x3_05_4_53_00,
        _ => 0,
    }
}

pub fn row_of(kind: u8) -> Row
    ensures { result ≡ row_at kind }
{
    let x = packed(kind);
    Row {
        class: (x / 0x1000_0000) as u8,
        len: (x / 0x10_0000 % 256) as u8,
        range: (x / 0x1_0000 % 16) as u8,
        sort1: (x / 0x1000 % 16) as u8,
        at1: (x / 0x100 % 16) as u8,
        sort2: (x / 0x10 % 16) as u8,
        at2: (x % 16) as u8,
    }
}

// The kinds that fit a sort, a bit for each: 1 a condition, 2 a term, 3 arguments, 4 items, any other binders.
fn fitting(sort: u8) -> u64
    ensures { result ≡ fitting_sort (sort_of sort) }
{
    match sort {
        1 => 0x1FFF_0000,
        2 => 0xFFF_0000_0000,
        3 => 0x3_0000_0000_0000,
        4 => 0x5_0000_0000_0000,
        _ => 0x9_0000_0000_0000,
    }
}

// Whether a node of a kind fits a sort. No branch depends on the sort, which no processor foresees.
pub fn fits(sort: u8, kind: u8) -> bool
    ensures { result ≡ fits_sort (sort_of sort) kind }
{
    if 64 <= kind {
        return false;
    }
    (fitting(sort) >> kind) & 1 == 1
}
