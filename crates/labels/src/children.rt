// The children of a node.
use paper::{Node, NodeNo};

// In their order.
pub fn children_of(n: Node) -> [Option<NodeNo>; 2] {
    match n {
        Node::And(l, r)
        | Node::Or(l, r)
        | Node::Since(l, r, _)
        | Node::Comparison(_, l, r)
        | Node::Refine(l, r)
        | Node::Arith(_, l, r)
        | Node::Sum(_, l, r)
        | Node::Count(l, r)
        | Node::ArgumentCell(_, l, r)
        | Node::ItemCell(l, r) => [Some(l), Some(r)],
        Node::Not(b)
        | Node::Formerly(b, _)
        | Node::Previous(b, _)
        | Node::Exists(_, _, b)
        | Node::Predicate(_, b)
        | Node::Array(b)
        | Node::BinderCell(_, _, b) => [Some(b), None],
        _ => [None, None],
    }
}
