// Entries at the binder cells of an aggregate.
#![tactic(auto)]

ghost use Rattle.paper.specs.Places.{at_cells, findings};
ghost use Rattle.paper.specs.Scoping.{cell_of, cells};
ghost use Rattle.names.specs.Words.{mem};
ghost use Rattle.record.specs.Stored.{Has};
ghost use Rattle.trees.specs.Trees.{binders_of};
ghost use Rattle.writes.specs.Walked.{HasRoom, Added};

use names::Names;
use paper::{Finding, NodeNo, Slot};
use slots::binder_at;
use writes::Entries;

// A rule's entry at a cell, if the cell binds one of some names.
fn emit_cell(n: NodeNo, slot: Slot, rule: u8, s: Names, entries: &mut Entries)
    requires { HasRoom (findings (at_cells rule (mem s) (cell_of n slot))) entries.old }
    ensures { Added (findings (at_cells rule (mem s) (cell_of n slot))) entries.old entries.new }
{
    match slot {
        Slot::Name(x) => {
            if s.contains(x) {
                let f = Finding {
                    rule: rule,
                    node: n,
                    name: Some(x),
                };
                entries.put(f);
            }
        }
        _ => {}
    }
}

// A rule's entry at each cell that binds one of some names.
pub fn emit_cells(columns: &[u64; 513], i: NodeNo, rule: u8, s: Names, entries: &mut Entries)
    requires has { Has columns.now i.0 }
    requires room { HasRoom (findings (at_cells rule (mem s) (cells (binders_of columns.now i.0)))) entries.old }
    ensures { Added (findings (at_cells rule (mem s) (cells (binders_of columns.now i.0)))) entries.old entries.new }
{
    // Most often no name is wanted, and then no cell is looked at.
    if s.is_empty() {
        return;
    }
    match binder_at(columns, i) {
        Some((slot, rest)) => {
            emit_cell(i, slot, rule, s, entries);
            emit_cells(columns, rest, rule, s, entries);
        }
        None => {}
    }
}
