// What an equality ties, or why nothing.
#![tactic(auto)]

ghost use Rattle.std.specs.Prelude.{◌≡◌};
ghost use Rattle.paper.specs.FreeAndRestricted.{bare, unless, equality};
ghost use Rattle.record.specs.Stored.{Has};
ghost use Rattle.trees.specs.Trees.{tree_of, term_of};
ghost use Rattle.trees.specs.Terms.{wildcard_in};

use paper::{Equality, NameNo, Node, NodeNo, Reason};
use record::access::node_at;

// Of a term, or of the terms of a list.
pub fn term_contains_wildcard(columns: &[u64; 513], i: NodeNo) -> bool
    requires { Has columns.now i.0 }
    ensures { result ≡ wildcard_in (tree_of columns.now i.0) }
{
    let node = node_at(columns, i);
    match node {
        Node::Wildcard => true,
        Node::Arith(_, l, r) | Node::ArgumentCell(_, l, r) | Node::ItemCell(l, r) => {
            term_contains_wildcard(columns, l) || term_contains_wildcard(columns, r)
        }
        Node::Array(items) => term_contains_wildcard(columns, items),
        _ => false,
    }
}

// The variable that is the whole term, if there is one.
pub fn bare_var(columns: &[u64; 513], i: NodeNo) -> Option<NameNo>
    requires { Has columns.now i.0 }
    ensures { result ≡ bare (term_of columns.now i.0) }
{
    match node_at(columns, i) {
        Node::Var(x) => Some(x),
        _ => None,
    }
}

// What an equality gives that has a bare variable opposite this side: nothing, if the side has no value.
fn unless(columns: &[u64; 513], i: NodeNo, gives: Equality) -> Equality
    requires { Has columns.now i.0 }
    ensures { result ≡ unless (term_of columns.now i.0) gives }
{
    // A wildcard has no value, and arithmetic has none over a wildcard.
    match node_at(columns, i) {
        Node::Wildcard => Equality::Nothing(Reason::Wildcard),
        Node::Arith(_, _, _) => {
            if term_contains_wildcard(columns, i) {
                Equality::Nothing(Reason::Arithmetic)
            } else {
                gives
            }
        }
        _ => gives,
    }
}

// What an equality ties, or why nothing.
pub fn eq_restricted_var(columns: &[u64; 513], l: NodeNo, r: NodeNo) -> Equality
    requires { Has columns.now l.0 × Has columns.now r.0 }
    ensures { result ≡ equality (term_of columns.now l.0) (term_of columns.now r.0) }
{
    let left = bare_var(columns, l);
    let right = bare_var(columns, r);
    match (left, right) {
        (Some(_), Some(_)) => Equality::Nothing(Reason::BothBare),
        (Some(x), None) => unless(columns, r, Equality::Left(x)),
        (None, Some(y)) => unless(columns, l, Equality::Right(y)),
        (None, None) => Equality::Nothing(Reason::NeitherBare),
    }
}
