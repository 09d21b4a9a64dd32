// The rows, and over them one part of the list.
#![tactic(auto)]

ghost use Rattle.std.specs.Prelude.{◌<◌, ◌≤◌, length};
ghost use Rattle.trees.specs.Trees.{condition_of};
ghost use Rattle.writes.specs.Written.{Room, Wrote};
ghost use Rattle.listing.specs.Parts.{Last, part_of};

use facts::collect_facts;
use known::Facts;
use listing::{Check, is_quiet, write_part};
use paper::NodeNo;
use rows::read::NotedNodes;
use writes::Entries;

fn part_noted(
    columns: &[u64; 513],
    i: NodeNo,
    check: Check,
    rows: &mut [Facts],
    out: &mut [u32],
) -> usize
    requires last { Last columns.now i.0 × (i.0 < length rows.old) }
    requires room { Room (part_of check i (condition_of columns.now i.0)) 0 }
    ensures { Wrote (part_of check i (condition_of columns.now i.0)) 0 result out.old out.new }
{
    collect_facts(columns, rows, i);
    let nodes = NotedNodes { columns, rows };
    if is_quiet(&nodes, i, check) {
        return 0;
    }
    let mut entries = Entries { out, count: 0 };
    write_part(&nodes, i, check, &mut entries);
    entries.count
}

// The entries that a check asks for, where so many rows are enough.
fn part_over<const ROWS: usize>(
    columns: &[u64; 513],
    i: NodeNo,
    check: Check,
    out: &mut [u32],
) -> usize
    requires last { Last columns.now i.0 × (i.0 < ROWS) }
    requires few { ROWS ≤ 512 }
    requires room { Room (part_of check i (condition_of columns.now i.0)) 0 }
    ensures { Wrote (part_of check i (condition_of columns.now i.0)) 0 result out.old out.new }
{
    let mut rows = [Facts::default(); ROWS];
    part_noted(columns, i, check, &mut rows, out)
}

// The entries that a check asks for. Few nodes take few rows, since rows have to be cleared.
pub fn part_entries(columns: &[u64; 513], i: NodeNo, check: Check, out: &mut [u32]) -> usize
    requires last { Last columns.now i.0 }
    requires room { Room (part_of check i (condition_of columns.now i.0)) 0 }
    ensures { Wrote (part_of check i (condition_of columns.now i.0)) 0 result out.old out.new }
{
    if i.0 < 32 {
        return part_over::<32>(columns, i, check, out);
    }
    part_over::<512>(columns, i, check, out)
}
