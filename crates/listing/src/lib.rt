// The three parts of the list: one of them, or one after the other.
#![tactic(auto)]

ghost use Rattle.std.specs.Prelude.{◌≡◌, true, []};
ghost use Rattle.names.specs.Words.{mem};
ghost use Rattle.record.specs.Stored.{Has};
ghost use Rattle.known.specs.Rows.{Noted};
ghost use Rattle.trees.specs.Trees.{tree_of, condition_of, is_condition};
ghost use Rattle.writes.specs.Walked.{HasRoom, Added};
ghost use Rattle.listing.specs.Parts.{demands_of, part_of, listed, quiet, clean};

use checks::closed::check_leaf_closed;
use demands::check_chain;
use names::Names;
use paper::NodeNo;
use rows::read::NotedNodes;
use scoping::check_condition;
use writes::Entries;

// What one part of the list is asked for.
#[derive(Clone, Copy)]
pub enum Check {
    Scoping { seed: Names, words: Names },
    Closedness,
    Demands,
}

// 30 to 32; none if the condition holds a sigil.
pub fn check_demands(nodes: &NotedNodes, i: NodeNo, entries: &mut Entries)
    requires has { Has nodes.now.columns.now i.0 × (is_condition (tree_of nodes.now.columns.now i.0) ≡ true) }
    requires room { HasRoom (demands_of (condition_of nodes.now.columns.now i.0)) entries.old }
    ensures { Added (demands_of (condition_of nodes.now.columns.now i.0)) entries.old entries.new }
{
    if nodes.body_has_sigil(i) {
        return;
    }
    let tied = Names::empty();
    check_chain(nodes, i, tied, true, entries);
}

// 20 to 27 with the seed's names in scope, or 28, or 30 to 32.
pub fn write_part(nodes: &NotedNodes, i: NodeNo, check: Check, entries: &mut Entries)
    requires has { Has nodes.now.columns.now i.0 × (is_condition (tree_of nodes.now.columns.now i.0) ≡ true) }
    requires room { HasRoom (part_of check i (condition_of nodes.now.columns.now i.0)) entries.old }
    ensures { Added (part_of check i (condition_of nodes.now.columns.now i.0)) entries.old entries.new }
{
    match check {
        Check::Scoping { seed, words } => check_condition(nodes, i, seed, words, entries),
        Check::Closedness => check_leaf_closed(nodes, i, entries),
        Check::Demands => check_demands(nodes, i, entries),
    }
}

// 20 to 27 with nothing in scope, then 28, then 30 to 32.
pub fn write_list(nodes: &NotedNodes, i: NodeNo, words: Names, entries: &mut Entries)
    requires has { Has nodes.now.columns.now i.0 × (is_condition (tree_of nodes.now.columns.now i.0) ≡ true) }
    requires room { HasRoom (listed (mem words) i (condition_of nodes.now.columns.now i.0)) entries.old }
    ensures { Added (listed (mem words) i (condition_of nodes.now.columns.now i.0)) entries.old entries.new }
{
    let scope = Names::empty();
    check_condition(nodes, i, scope, words, entries);
    check_leaf_closed(nodes, i, entries);
    check_demands(nodes, i, entries);
}

// Whether a part has nothing to tell of a root: then its walk does not have to begin.
pub fn is_quiet(nodes: &NotedNodes, i: NodeNo, check: Check) -> bool
    requires { Has nodes.now.columns.now i.0 × (is_condition (tree_of nodes.now.columns.now i.0) ≡ true) }
    ensures { (result ≡ quiet check (tree_of nodes.now.columns.now i.0)) × (result ≡ true → part_of check i (condition_of nodes.now.columns.now i.0) ≡ []) }
{
    match check {
        Check::Scoping { seed, words } => nodes.is_sound(i, words, seed),
        Check::Closedness => {
            let free = nodes.collect_free(i);
            free.is_empty()
        }
        Check::Demands => {
            let none = Names::empty();
            let sigil = nodes.body_has_sigil(i);
            let met = nodes.is_met(i, none);
            sigil | met
        }
    }
}

// The same of the whole list.
pub fn is_clean(nodes: &NotedNodes, i: NodeNo, words: Names) -> bool
    requires { Has nodes.now.columns.now i.0 × (is_condition (tree_of nodes.now.columns.now i.0) ≡ true) }
    ensures { result ≡ clean (mem words) (tree_of nodes.now.columns.now i.0) }
{
    let none = Names::empty();
    let sound = nodes.is_sound(i, words, none);
    let free = nodes.collect_free(i);
    let closed = free.is_empty();
    let sigil = nodes.body_has_sigil(i);
    let met = nodes.is_met(i, none);
    (sound & closed) & (sigil | met)
}
