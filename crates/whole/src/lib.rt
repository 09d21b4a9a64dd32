// The rows, and over them the whole list.
#![tactic(auto)]

ghost use Rattle.std.specs.Prelude.{◌≡◌, true, ◌<◌, ◌≤◌, length};
ghost use Rattle.names.specs.Words.{mem};
ghost use Rattle.record.specs.Stored.{Has};
ghost use Rattle.known.specs.Rows.{Noted};
ghost use Rattle.trees.specs.Trees.{tree_of, condition_of, is_condition};
ghost use Rattle.writes.specs.Written.{Room, Wrote};
ghost use Rattle.listing.specs.Parts.{Last, listed, Filled};

use facts::collect_facts;
use known::Facts;
use listing::{is_clean, write_list};
use names::Names;
use paper::NodeNo;
use rows::read::NotedNodes;
use writes::Entries;

// The list from the start of a buffer on, and how many entries it has.
fn list_into(nodes: &NotedNodes, i: NodeNo, words: Names, out: &mut [u32]) -> usize
    requires has { Has nodes.now.columns.now i.0 × (is_condition (tree_of nodes.now.columns.now i.0) ≡ true) }
    requires room { Room (listed (mem words) i (condition_of nodes.now.columns.now i.0)) 0 }
    ensures { Wrote (listed (mem words) i (condition_of nodes.now.columns.now i.0)) 0 result out.old out.new }
{
    let mut entries = Entries { out, count: 0 };
    write_list(nodes, i, words, &mut entries);
    entries.count
}

// Counted first, so that a list without room writes nothing.
fn list_counted(nodes: &NotedNodes, i: NodeNo, words: Names, out: &mut [u32]) -> usize
    requires has { Has nodes.now.columns.now i.0 × (is_condition (tree_of nodes.now.columns.now i.0) ≡ true) }
    requires room { Room (listed (mem words) i (condition_of nodes.now.columns.now i.0)) 0 }
    ensures { Filled (listed (mem words) i (condition_of nodes.now.columns.now i.0)) result out.old out.new }
{
    let mut one = [0u32; 1];
    let count = list_into(nodes, i, words, &mut one);
    if count == 0 {
        return count;
    }
    if out.len() < count {
        return count;
    }
    list_into(nodes, i, words, out)
}

// None where the root is clean; written at once where so many entries fit, since there are no more of them.
fn list_noted(
    columns: &[u64; 513],
    i: NodeNo,
    words: Names,
    most: usize,
    rows: &mut [Facts],
    out: &mut [u32],
) -> usize
    requires last { Last columns.now i.0 × (i.0 < length rows.old) }
    requires room { Room (listed (mem words) i (condition_of columns.now i.0)) 0 × (length (listed (mem words) i (condition_of columns.now i.0)) ≤ most) }
    ensures { Filled (listed (mem words) i (condition_of columns.now i.0)) result out.old out.new }
{
    collect_facts(columns, rows, i);
    let nodes = NotedNodes { columns, rows };
    if is_clean(&nodes, i, words) {
        return 0;
    }
    if most <= out.len() {
        return list_into(&nodes, i, words, out);
    }
    list_counted(&nodes, i, words, out)
}

// The same, where so many rows are enough.
fn list_over<const ROWS: usize>(
    columns: &[u64; 513],
    i: NodeNo,
    words: Names,
    most: usize,
    out: &mut [u32],
) -> usize
    requires last { Last columns.now i.0 × (i.0 < ROWS) }
    requires few { ROWS ≤ 512 }
    requires room { Room (listed (mem words) i (condition_of columns.now i.0)) 0 × (length (listed (mem words) i (condition_of columns.now i.0)) ≤ most) }
    ensures { Filled (listed (mem words) i (condition_of columns.now i.0)) result out.old out.new }
{
    let mut rows = [Facts::default(); ROWS];
    list_noted(columns, i, words, most, &mut rows, out)
}

// The entries of the whole list, and how many they are, where there are at most so many. Few nodes take few rows, since rows have to be cleared.
pub fn list_entries(
    columns: &[u64; 513],
    i: NodeNo,
    words: Names,
    most: usize,
    out: &mut [u32],
) -> usize
    requires last { Last columns.now i.0 }
    requires room { Room (listed (mem words) i (condition_of columns.now i.0)) 0 × (length (listed (mem words) i (condition_of columns.now i.0)) ≤ most) }
    ensures { Filled (listed (mem words) i (condition_of columns.now i.0)) result out.old out.new }
{
    if i.0 < 32 {
        return list_over::<32>(columns, i, words, most, out);
    }
    if i.0 < 128 {
        return list_over::<128>(columns, i, words, most, out);
    }
    if i.0 < 256 {
        return list_over::<256>(columns, i, words, most, out);
    }
    list_over::<512>(columns, i, words, most, out)
}
