// A condition itself: its entries, and the names in scope below it.
ghost use Rattle.std.specs.Prelude.{◌≡◌};
ghost use Rattle.names.specs.Words.{mem};
ghost use Rattle.record.specs.Stored.{Has};
ghost use Rattle.known.specs.Rows.{Noted};
ghost use Rattle.trees.specs.Trees.{condition_of};
ghost use Rattle.writes.specs.Walked.{HasRoom, Added};
ghost use Rattle.places.specs.Itself.{at_itself, scope_first};

use crate::binders::{check_exists_binder, reject_reserved_binder};
use crate::nested::reject_nested_agg;
use names::Names;
use paper::NodeNo;
use rows::read::NotedNodes;
use slots::slot_name;
use views::{Itself, itself_at};
use writes::Entries;

// 22 and 23 at an exists, 22 at a tp, 20 and 21 in the arguments of a predicate.
pub fn check_itself(nodes: &NotedNodes, i: NodeNo, words: Names, entries: &mut Entries)
    requires has { Has nodes.now.columns.now i.0 }
    requires room { HasRoom (at_itself (mem words) (condition_of nodes.now.columns.now i.0)) entries.old }
    ensures { Added (at_itself (mem words) (condition_of nodes.now.columns.now i.0)) entries.old entries.new }
{
    match itself_at(nodes.columns, i) {
        Itself::Exists(slot, b) => check_exists_binder(nodes, i, slot, b, words, entries),
        Itself::Predicate(arguments) => reject_nested_agg(nodes.columns, arguments, entries),
        Itself::Tp(slot) => reject_reserved_binder(i, slot, words, entries),
        _ => {}
    }
}

// What is in scope at the first part of a condition: below an exists also its name.
pub fn scope_first(columns: &[u64; 513], i: NodeNo, scope: Names) -> Names
    requires { Has columns.now i.0 }
    ensures { mem result ≡ scope_first (condition_of columns.now i.0) (mem scope) }
{
    match itself_at(columns, i) {
        Itself::Exists(slot, _) => {
            let own = slot_name(slot);
            scope | own
        }
        _ => scope,
    }
}
