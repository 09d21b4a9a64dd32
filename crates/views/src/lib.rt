// A node as walks see it: where they go on below it, and what it is itself.
#![tactic(auto)]

ghost use Rattle.std.specs.Prelude.{◌≡◌, get_or};
ghost use Rattle.paper.specs.declared.Node.TheVariants.{ListEnd};
ghost use Rattle.record.specs.Stored.{held, Has};
ghost use Rattle.views.specs.Entered.{entered_below};
ghost use Rattle.views.specs.Seen.{seen_operand, seen_itself, seen_owing};

use paper::{Node, NodeNo, Slot};
use record::access::node_at;

// Where a walk goes on below a condition.
#[derive(Clone, Copy)]
pub enum Below {
    Nothing,
    Condition(NodeNo),
    Conditions(NodeNo, NodeNo),
    Operands(NodeNo, NodeNo),
}

// What an operand of a comparison is: the items of an array, the sides of arithmetic, an aggregate's binders and its body.
#[derive(Clone, Copy)]
pub enum Operand {
    Plain,
    Array(NodeNo),
    Arith(NodeNo, NodeNo),
    Aggregate(NodeNo, NodeNo),
}

// What scoping looks at in a condition itself: the slot of an exists and its body, the arguments of a predicate, the slot of a tp.
#[derive(Clone, Copy)]
pub enum Itself {
    Other,
    Exists(Slot, NodeNo),
    Predicate(NodeNo),
    Tp(Slot),
}

// What demands look at in a condition itself: of And its left, since that is what ties names at the right.
#[derive(Clone, Copy)]
pub enum Owing {
    Other,
    And(NodeNo),
    Not(NodeNo),
    Since(NodeNo, NodeNo),
    Exists(Slot),
    Comparison(u8, NodeNo, NodeNo),
    Refine,
}

// A refinement's fields and a predicate's arguments are not entered.
#[tactic(auto, unfolding(crate::specs::Entered::entered_below))]
pub fn below_at(columns: &[u64; 513], i: NodeNo) -> Below
    requires { Has columns.now i.0 }
    ensures { result ≡ entered_below (get_or (held columns.now) i.0 ListEnd) }
{
    match node_at(columns, i) {
        Node::And(l, r) | Node::Or(l, r) | Node::Since(l, r, _) => Below::Conditions(l, r),
        Node::Not(b) | Node::Formerly(b, _) | Node::Previous(b, _) => Below::Condition(b),
        Node::Exists(_, _, b) | Node::Refine(b, _) => Below::Condition(b),
        Node::Comparison(_, l, r) => Below::Operands(l, r),
        _ => Below::Nothing,
    }
}

// A Sum and a Count are one here: the slot that is summed is asked for elsewhere.
#[tactic(auto, unfolding(crate::specs::Seen::seen_operand))]
pub fn operand_at(columns: &[u64; 513], i: NodeNo) -> Operand
    requires { Has columns.now i.0 }
    ensures { result ≡ seen_operand (get_or (held columns.now) i.0 ListEnd) }
{
    match node_at(columns, i) {
        Node::Array(items) => Operand::Array(items),
        Node::Arith(_, l, r) => Operand::Arith(l, r),
        Node::Sum(_, binders, body) => Operand::Aggregate(binders, body),
        Node::Count(binders, body) => Operand::Aggregate(binders, body),
        _ => Operand::Plain,
    }
}

// Any other condition has only what is found below it.
#[tactic(auto, unfolding(crate::specs::Seen::seen_itself))]
pub fn itself_at(columns: &[u64; 513], i: NodeNo) -> Itself
    requires { Has columns.now i.0 }
    ensures { result ≡ seen_itself (get_or (held columns.now) i.0 ListEnd) }
{
    match node_at(columns, i) {
        Node::Exists(slot, _, body) => Itself::Exists(slot, body),
        Node::Predicate(_, arguments) => Itself::Predicate(arguments),
        Node::Tp(slot) => Itself::Tp(slot),
        _ => Itself::Other,
    }
}

// Any other condition owes nothing, and what is tied and asked at it is tied and asked below it.
#[tactic(auto, unfolding(crate::specs::Seen::seen_owing))]
pub fn owing_at(columns: &[u64; 513], i: NodeNo) -> Owing
    requires { Has columns.now i.0 }
    ensures { result ≡ seen_owing (get_or (held columns.now) i.0 ListEnd) }
{
    match node_at(columns, i) {
        Node::And(l, _) => Owing::And(l),
        Node::Not(body) => Owing::Not(body),
        Node::Since(l, r, _) => Owing::Since(l, r),
        Node::Exists(slot, _, _) => Owing::Exists(slot),
        Node::Comparison(op, l, r) => Owing::Comparison(op, l, r),
        Node::Refine(_, _) => Owing::Refine,
        _ => Owing::Other,
    }
}
