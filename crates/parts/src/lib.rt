// The nodes that a node's facts follow from.
#![tactic(auto)]

ghost use Rattle.std.specs.Prelude.{◌≡◌, get_or};
ghost use Rattle.paper.specs.declared.Node.TheVariants.{ListEnd};
ghost use Rattle.record.specs.Stored.{held, Has};
ghost use Rattle.known.specs.Known.{parts_of, cell_of};

use known::Parts;
use paper::{Node, NodeNo};
use record::access::node_at;

#[tactic(auto, unfolding(known::specs::Known::parts_of))]
pub fn parts_at(columns: &[u64; 513], i: NodeNo) -> Parts
    requires { Has columns.now i.0 }
    ensures { result ≡ parts_of (get_or (held columns.now) i.0 ListEnd) }
{
    match node_at(columns, i) {
        Node::And(l, r) | Node::Or(l, r) | Node::Since(l, r, _) => Parts::Two(l, r),
        Node::Comparison(_, l, r) | Node::Arith(_, l, r) => Parts::Two(l, r),
        Node::Not(b) | Node::Formerly(b, _) | Node::Previous(b, _) => Parts::One(b),
        Node::Exists(_, _, b) | Node::Sum(_, _, b) | Node::Count(_, b) => Parts::One(b),
        Node::Predicate(_, list) | Node::Array(list) => Parts::List(list),
        Node::Refine(base, list) => Parts::Then(base, list),
        Node::ArgumentCell(_, term, rest) => Parts::Then(term, rest),
        Node::ItemCell(term, rest) => Parts::Then(term, rest),
        _ => Parts::Leaf,
    }
}

// The term and the rest of a list's cell, if there is one. Along a list two kinds are asked for, and no more.
#[tactic(auto, unfolding(known::specs::Known::cell_of))]
pub fn cell_at(columns: &[u64; 513], i: NodeNo) -> Option<(NodeNo, NodeNo)>
    requires { Has columns.now i.0 }
    ensures { result ≡ cell_of (get_or (held columns.now) i.0 ListEnd) }
{
    match node_at(columns, i) {
        Node::ArgumentCell(_, term, rest) | Node::ItemCell(term, rest) => Some((term, rest)),
        _ => None,
    }
}
