// Where a node's children are drawn. A list has no line of its own: what its cells hold is drawn below the node that has the list.
ghost use Rattle.std.specs.Prelude.{◌≤◌};

use paper::Node;
use std::fmt;

// A binder of a list can have an entry, so its cell has a line.
pub fn has_line(n: Node) -> bool {
    !matches!(
        n,
        Node::ListEnd | Node::ArgumentCell(_, _, _) | Node::ItemCell(_, _)
    )
}

// How much deeper the children are drawn: the rest of a list stands beside its first.
pub fn step(n: Node) -> usize
    ensures { result ≤ 1 }
{
    match n {
        Node::ArgumentCell(_, _, _) | Node::ItemCell(_, _) | Node::BinderCell(_, _, _) => 0,
        _ => 1,
    }
}

// What a child is to the node that has it, where the tree says it.
#[derive(Clone, Copy)]
pub enum Role {
    Plain,
    Argument(u16),
    Where,
}

impl fmt::Display for Role {
    fn fmt<W: fmt::Write>(&self, f: &mut fmt::Formatter<W>) -> fmt::Result {
        match *self {
            Role::Plain => Ok(()),
            Role::Argument(field) => write!(f, "argument {field}: "),
            Role::Where => write!(f, "where "),
        }
    }
}

// Those of a node's children, in their order.
pub fn roles(n: Node) -> [Role; 2] {
    match n {
        Node::ArgumentCell(field, _, _) => [Role::Argument(field), Role::Plain],
        Node::Sum(_, _, _) | Node::Count(_, _) => [Role::Plain, Role::Where],
        _ => [Role::Plain, Role::Plain],
    }
}
