// The binder of an exists, and the slot of a tp.
ghost use Rattle.std.specs.Prelude.{◌≡◌, true, ◌++◌, ◌<◌, length};
ghost use Rattle.paper.specs.Record.{pick};
ghost use Rattle.paper.specs.Sets.{none, ◌∩◌, ◌∖◌};
ghost use Rattle.paper.specs.FreeAndRestricted.{named, restricted, holds_sigil};
ghost use Rattle.paper.specs.Places.{for_names, findings};
ghost use Rattle.names.specs.Words.{mem};
ghost use Rattle.record.specs.Stored.{held};
ghost use Rattle.known.specs.Rows.{Noted};
ghost use Rattle.trees.specs.Trees.{tree_of, condition_of, is_condition};
ghost use Rattle.trees.specs.Terms.{Tabled};
ghost use Rattle.writes.specs.Walked.{HasRoom, Added};

use names::Names;
use paper::{NodeNo, Slot};
use rows::read::NotedNodes;
use slots::slot_name;
use writes::Entries;

// 22, if the slot's name is a reserved word.
pub fn reject_reserved_binder(n: NodeNo, slot: Slot, words: Names, entries: &mut Entries)
    requires tabled { Tabled slot }
    requires room { HasRoom (findings (for_names 22 n (named slot ∩ mem words))) entries.old }
    ensures { Added (findings (for_names 22 n (named slot ∩ mem words))) entries.old entries.new }
{
    let own = slot_name(slot);
    let taken = own & words;
    entries.emit(22, n, taken);
}

// The slot's name, unless the body restricts it or holds a sigil.
fn unsafe_name(nodes: &NotedNodes, slot: Slot, body: NodeNo) -> Names
    requires { Tabled slot × (body.0 < length (held nodes.now.columns.now)) × (is_condition (tree_of nodes.now.columns.now body.0) ≡ true) }
    ensures { mem result ≡ pick (holds_sigil (condition_of nodes.now.columns.now body.0)) none (named slot ∖ restricted (condition_of nodes.now.columns.now body.0)) }
{
    if nodes.body_has_sigil(body) {
        return Names::empty();
    }
    let own = slot_name(slot);
    let tied = nodes.collect_range_restricted(body);
    own - tied
}

// 22 and then 23 at the binder of an exists: its name is reserved, or its body does not restrict it.
pub fn check_exists_binder(
    nodes: &NotedNodes,
    n: NodeNo,
    slot: Slot,
    body: NodeNo,
    words: Names,
    entries: &mut Entries,
)
    requires tabled { Tabled slot × (body.0 < length (held nodes.now.columns.now)) × (is_condition (tree_of nodes.now.columns.now body.0) ≡ true) }
    requires room { HasRoom (findings (for_names 22 n (named slot ∩ mem words)) ++ findings (for_names 23 n (pick (holds_sigil (condition_of nodes.now.columns.now body.0)) none (named slot ∖ restricted (condition_of nodes.now.columns.now body.0))))) entries.old }
    ensures { Added (findings (for_names 22 n (named slot ∩ mem words)) ++ findings (for_names 23 n (pick (holds_sigil (condition_of nodes.now.columns.now body.0)) none (named slot ∖ restricted (condition_of nodes.now.columns.now body.0))))) entries.old entries.new }
{
    reject_reserved_binder(n, slot, words, entries);
    let loose = unsafe_name(nodes, slot, body);
    entries.emit(23, n, loose);
}
