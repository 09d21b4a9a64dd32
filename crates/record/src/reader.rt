// The reader: its answer for any bytes.
ghost use Rattle.record.specs.Arena.{Read};

use names::Names;
use paper::{Counts, Refusal};
use scan::scan_records;

// Where each node's record starts, 65535 for none; and which names of the table are reserved.
#[derive(Drop)]
pub struct Arena {
    pub starts: [u16; 512],
    pub reserved: Names,
}

// The verdict is what accepted bytes hold, or the refusal. Document 01 names this form: it stands beside the arena, and each question takes it apart.
#[derive(Drop)]
pub struct Reading {
    pub verdict: Result<Counts, Refusal>,
    pub arena: Arena,
}

pub fn read(bytes: &[u8]) -> Reading
    ensures { Read bytes.now result }
{
    let mut starts = [65535u16; 512];
    let scanned = scan_records(bytes, &mut starts);
    let reserved = scanned.reserved;
    Reading {
        verdict: scanned.verdict,
        arena: Arena { starts, reserved },
    }
}
