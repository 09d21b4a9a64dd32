// The row of every node that has one, found by one recursion from the root.
#![tactic(auto)]

ghost use Rattle.std.specs.Prelude.{◌≡◌, true, [], ◌∷◌, ◌<◌, length};
ghost use Rattle.paper.proofs.Walks.{All};
ghost use Rattle.record.specs.Stored.{Has};
ghost use Rattle.trees.specs.Trees.{tree_of, is_row};
ghost use Rattle.known.specs.declared.Parts.TheVariants.{Leaf};
ghost use Rattle.known.specs.Known.{parts_of, nodes_of};
ghost use Rattle.known.specs.Rows.{node_of, Right, Kept, Gathered};

use derived::{leaf_facts, over_facts, pair_facts};
use known::{Facts, Parts};
use paper::NodeNo;
use parts::{cell_at, parts_at};
use rows::row::{facts_at, put_facts};
use together::{join_facts, nothing};

// Here and below: a node's row, where the rows of its parts are right.
fn put_leaf(columns: &[u64; 513], rows: &mut [Facts], i: NodeNo)
    requires { Has columns.now i.0 × (i.0 < length rows.old) × (Leaf ≡ parts_of (node_of columns.now i.0)) }
    ensures { Kept columns.now rows.old rows.new × Right columns.now rows.new i.0 }
{
    let f = leaf_facts(columns, i);
    put_facts(rows, i, f);
}

// This and the next are called from two places each, so that they stay functions of their own, and what they need is not held on the stack at every level
// below.
fn put_over(columns: &[u64; 513], rows: &mut [Facts], i: NodeNo, b: NodeNo)
    requires has { Has columns.now i.0 × (i.0 < length rows.old) × (nodes_of (parts_of (node_of columns.now i.0)) ≡ b.0 ∷ []) }
    requires all { All (Right columns.now rows.old) (nodes_of (parts_of (node_of columns.now i.0))) }
    ensures { Kept columns.now rows.old rows.new × Right columns.now rows.new i.0 }
{
    let f = over_facts(columns, rows, i, b);
    put_facts(rows, i, f);
}

fn put_pair(columns: &[u64; 513], rows: &mut [Facts], i: NodeNo, l: NodeNo, r: NodeNo)
    requires has { Has columns.now i.0 × (i.0 < length rows.old) × (nodes_of (parts_of (node_of columns.now i.0)) ≡ l.0 ∷ r.0 ∷ []) }
    requires all { All (Right columns.now rows.old) (nodes_of (parts_of (node_of columns.now i.0))) }
    ensures { Kept columns.now rows.old rows.new × Right columns.now rows.new i.0 }
{
    let f = pair_facts(columns, rows, i, l, r);
    put_facts(rows, i, f);
}

// A list is gone through by a loop, so that a long one is not deep.
#[cycle(collect_facts_collect_list)]
fn collect_list(columns: &[u64; 513], rows: &mut [Facts], list: NodeNo)
    requires { Has columns.now list.0 × (list.0 < length rows.old) × (is_row (tree_of columns.now list.0) ≡ true) }
    ensures { Gathered columns.now rows.old rows.new list.0 }
{
    let mut at = list;
    let mut all = nothing();
    while let Some((term, rest)) = cell_at(columns, at) {
        collect_facts(columns, rows, term);
        all = join_facts(all, facts_at(rows, term));
        at = rest;
    }
    put_facts(rows, list, all);
}

// Puts the row of a node, after those of all conditions and terms below it. Each node has one parent, so that none is looked at twice.
#[cycle(collect_facts_collect_list)]
pub fn collect_facts(columns: &[u64; 513], rows: &mut [Facts], i: NodeNo)
    requires { Has columns.now i.0 × (i.0 < length rows.old) }
    ensures { Gathered columns.now rows.old rows.new i.0 }
{
    match parts_at(columns, i) {
        Parts::Leaf => put_leaf(columns, rows, i),
        Parts::One(b) => {
            collect_facts(columns, rows, b);
            put_over(columns, rows, i, b);
        }
        Parts::Two(l, r) => {
            collect_facts(columns, rows, l);
            collect_facts(columns, rows, r);
            put_pair(columns, rows, i, l, r);
        }
        Parts::List(list) => {
            collect_list(columns, rows, list);
            put_over(columns, rows, i, list);
        }
        Parts::Then(b, list) => {
            collect_facts(columns, rows, b);
            collect_list(columns, rows, list);
            put_pair(columns, rows, i, b, list);
        }
    }
}
