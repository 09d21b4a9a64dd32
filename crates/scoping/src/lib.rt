// Scoping: 20 to 27.
#![tactic(auto)]

ghost use Rattle.std.specs.Prelude.{◌≡◌, true};
ghost use Rattle.paper.specs.Places.{condition, operand};
ghost use Rattle.names.specs.Words.{mem};
ghost use Rattle.record.specs.Stored.{Has};
ghost use Rattle.known.specs.Rows.{Noted};
ghost use Rattle.trees.specs.Trees.{tree_of, is_condition, is_term, condition_of, term_of};
ghost use Rattle.writes.specs.Walked.{HasRoom, Added};
ghost use Rattle.scoping.specs.Scoped.{scoped};

use aggregates::check_agg_expr;
use names::Names;
use paper::NodeNo;
use places::itself::{check_itself, scope_first};
use places::nested::reject_nested_agg;
use rows::read::NotedNodes;
use slots::binder_names;
use views::{Below, Operand, below_at, operand_at};
use writes::Entries;

// The entries of a condition and of what lies below it, with these names in scope and these reserved. Where there are none, nothing is entered.
#[cycle(check_condition_check_operand)]
pub fn check_condition(
    nodes: &NotedNodes,
    i: NodeNo,
    scope: Names,
    words: Names,
    entries: &mut Entries,
)
    requires has { Has nodes.now.columns.now i.0 × (is_condition (tree_of nodes.now.columns.now i.0) ≡ true) }
    requires room { HasRoom (scoped (mem words) (condition (condition_of nodes.now.columns.now i.0)) (mem scope)) entries.old }
    ensures { Added (scoped (mem words) (condition (condition_of nodes.now.columns.now i.0)) (mem scope)) entries.old entries.new }
{
    if nodes.is_sound(i, words, scope) {
        return;
    }
    check_itself(nodes, i, words, entries);
    let below = below_at(nodes.columns, i);
    match below {
        Below::Nothing => {}
        Below::Condition(b) => {
            let inner = scope_first(nodes.columns, i, scope);
            check_condition(nodes, b, inner, words, entries);
        }
        Below::Conditions(l, r) => {
            check_condition(nodes, l, scope, words, entries);
            check_condition(nodes, r, scope, words, entries);
        }
        Below::Operands(l, r) => {
            check_operand(nodes, l, scope, words, entries);
            check_operand(nodes, r, scope, words, entries);
        }
    }
}

// The same of an operand of a comparison, through arithmetic to aggregates. One that is skipped has none.
#[cycle(check_condition_check_operand)]
pub fn check_operand(
    nodes: &NotedNodes,
    i: NodeNo,
    scope: Names,
    words: Names,
    entries: &mut Entries,
)
    requires has { Has nodes.now.columns.now i.0 × (is_term (tree_of nodes.now.columns.now i.0) ≡ true) }
    requires room { HasRoom (scoped (mem words) (operand (term_of nodes.now.columns.now i.0)) (mem scope)) entries.old }
    ensures { Added (scoped (mem words) (operand (term_of nodes.now.columns.now i.0)) (mem scope)) entries.old entries.new }
{
    if nodes.is_sound(i, words, scope) {
        return;
    }
    let operand = operand_at(nodes.columns, i);
    match operand {
        Operand::Arith(l, r) => {
            check_operand(nodes, l, scope, words, entries);
            check_operand(nodes, r, scope, words, entries);
        }
        Operand::Aggregate(binders, body) => {
            check_agg_expr(nodes, i, scope, words, entries);
            let own = binder_names(nodes.columns, binders);
            let inner = scope | own;
            check_condition(nodes, body, inner, words, entries);
        }
        Operand::Array(items) => reject_nested_agg(nodes.columns, items, entries),
        _ => {}
    }
}
