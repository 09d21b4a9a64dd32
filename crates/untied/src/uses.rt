// Whether a name is free in what stands at a node.
use labels::children::children_of;
use labels::text::Record;
use paper::{NameNo, Node, NodeNo, Slot};

fn is_named(slot: Slot, name: NameNo) -> bool {
    slot == Slot::Name(name)
}

// Whether one of a list's binders has the name.
fn is_listed(record: Record<'_>, i: NodeNo, name: NameNo) -> bool {
    match record.node(i) {
        Node::BinderCell(slot, _, rest) => {
            is_named(slot, name) || rest < i && is_listed(record, rest, name)
        }
        _ => false,
    }
}

// Whether the node binds the name for what is below it.
pub fn binds(record: Record<'_>, n: Node, name: NameNo) -> bool {
    match n {
        Node::Exists(slot, _, _) => is_named(slot, name),
        Node::Sum(_, list, _) | Node::Count(list, _) => is_listed(record, list, name),
        _ => false,
    }
}

fn is_itself(n: Node, name: NameNo) -> bool {
    match n {
        Node::Var(x) => x == name,
        Node::Tp(slot) => is_named(slot, name),
        _ => false,
    }
}

pub fn uses(record: Record<'_>, i: NodeNo, name: NameNo) -> bool {
    let n = record.node(i);
    if is_itself(n, name) {
        return true;
    }
    if binds(record, n, name) {
        return false;
    }
    for child in children_of(n).into_iter().flatten() {
        if child < i && uses(record, child, name) {
            return true;
        }
    }
    false
}
