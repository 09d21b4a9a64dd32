// Demands: 30 to 32.
#![tactic(auto)]

ghost use Rattle.std.specs.Prelude.{◌≡◌, true};
ghost use Rattle.paper.specs.Places.{condition, operand};
ghost use Rattle.names.specs.Words.{mem};
ghost use Rattle.record.specs.Stored.{Has};
ghost use Rattle.known.specs.Rows.{Noted};
ghost use Rattle.trees.specs.Trees.{tree_of, is_condition, is_term, condition_of, term_of};
ghost use Rattle.writes.specs.Walked.{HasRoom, Added};
ghost use Rattle.owed.specs.Demanded.{demanded};

use names::Names;
use owed::{asked_first, check_own_demands, tied_first, tied_second};
use paper::NodeNo;
use rows::read::NotedNodes;
use slots::binder_names;
use views::{Below, Operand, below_at, operand_at};
use writes::Entries;

// The entries of a condition and of what lies below it. Where all that is needed is tied, nothing is entered.
#[cycle(check_chain_descend_nested_chains)]
pub fn check_chain(nodes: &NotedNodes, i: NodeNo, tied: Names, asked: bool, entries: &mut Entries)
    requires has { Has nodes.now.columns.now i.0 × (is_condition (tree_of nodes.now.columns.now i.0) ≡ true) }
    requires room { HasRoom (demanded asked (condition (condition_of nodes.now.columns.now i.0)) (mem tied)) entries.old }
    ensures { Added (demanded asked (condition (condition_of nodes.now.columns.now i.0)) (mem tied)) entries.old entries.new }
{
    if nodes.is_met(i, tied) {
        return;
    }
    check_own_demands(nodes, i, tied, asked, entries);
    let below = below_at(nodes.columns, i);
    match below {
        Below::Nothing => {}
        Below::Condition(b) => {
            let inner = tied_first(nodes, i, tied);
            let further = asked_first(nodes.columns, i);
            check_chain(nodes, b, inner, further, entries);
        }
        Below::Conditions(l, r) => {
            let first = tied_first(nodes, i, tied);
            let second = tied_second(nodes, i, tied);
            check_chain(nodes, l, first, true, entries);
            check_chain(nodes, r, second, true, entries);
        }
        Below::Operands(l, r) => {
            descend_nested_chains(nodes, l, tied, entries);
            descend_nested_chains(nodes, r, tied, entries);
        }
    }
}

// The same of an operand: through arithmetic to the bodies of aggregates.
#[cycle(check_chain_descend_nested_chains)]
pub fn descend_nested_chains(nodes: &NotedNodes, i: NodeNo, tied: Names, entries: &mut Entries)
    requires has { Has nodes.now.columns.now i.0 × (is_term (tree_of nodes.now.columns.now i.0) ≡ true) }
    requires room { HasRoom (demanded true (operand (term_of nodes.now.columns.now i.0)) (mem tied)) entries.old }
    ensures { Added (demanded true (operand (term_of nodes.now.columns.now i.0)) (mem tied)) entries.old entries.new }
{
    if nodes.is_met(i, tied) {
        return;
    }
    let operand = operand_at(nodes.columns, i);
    match operand {
        Operand::Arith(l, r) => {
            descend_nested_chains(nodes, l, tied, entries);
            descend_nested_chains(nodes, r, tied, entries);
        }
        Operand::Aggregate(binders, body) => {
            let own = binder_names(nodes.columns, binders);
            let inner = tied - own;
            check_chain(nodes, body, inner, true, entries);
        }
        _ => {}
    }
}
