// A node's facts from those of its parts, by its kind: a function for each number of parts.
#![tactic(auto)]

ghost use Rattle.std.specs.Prelude.{◌≡◌, ◌||◌, [], ◌∷◌};
ghost use Rattle.record.specs.Stored.{Has};
ghost use Rattle.paper.specs.Sets.{outside};
ghost use Rattle.paper.specs.FreeAndRestricted.{is_sigil, binder_names};
ghost use Rattle.paper.specs.Scoping.{binder_sigil};
ghost use Rattle.trees.specs.Trees.{tree_of, binders_of};
ghost use Rattle.trees.specs.Terms.{Tabled};
ghost use Rattle.known.specs.Needs.{slot_in};
ghost use Rattle.known.specs.declared.Parts.TheVariants.{Leaf};
ghost use Rattle.known.specs.Known.{parts_of, nodes_of, own, gathered as gathered_facts};
ghost use Rattle.known.specs.Rows.{meant, node_of, Sound};

use known::Facts;
use marks::gathered_marks;
use names::Names;
use paper::{Node, NodeNo, Slot};
use record::access::node_at;
use rows::row::facts_at;
use slots::{binder_names, has_sigil_binder, is_sigil, slot_name};
use together::{
    and_facts, arith_facts, bound, compared, equated, join_facts, loose, naming, nothing, opaque,
    opaque_aggregate, or_facts, refined, searched, since_facts, timed,
};
use vars::eq_restricted_var;

// What is known of a node that has no parts.
pub fn leaf_facts(columns: &[u64; 513], i: NodeNo) -> Facts
    requires { Has columns.now i.0 × (Leaf ≡ parts_of (node_of columns.now i.0)) }
    ensures { meant result ≡ own (tree_of columns.now) (node_of columns.now i.0) }
{
    match node_at(columns, i) {
        Node::Tp(slot) => {
            let own = slot_name(slot);
            let sigil = is_sigil(slot);
            timed(own, sigil)
        }
        Node::Var(x) => {
            let own = Names::single(x);
            naming(own)
        }
        Node::Call(_) | Node::SigilRef(_) | Node::ParamRef(_) | Node::BinderRef(_) => opaque(),
        Node::AggregateCall(_) => opaque_aggregate(),
        _ => nothing(),
    }
}

// An aggregate over a body: its binders are taken out, and it restricts nothing. What is skipped is found nothing at.
fn gathered(columns: &[u64; 513], body: Facts, list: NodeNo, skipped: bool, unsummed: bool) -> Facts
    requires { Has columns.now list.0 }
    ensures { meant result ≡ gathered_facts (meant body) (binders_of columns.now list.0) skipped unsummed }
{
    let own = binder_names(columns, list);
    let free = body.free - own;
    let need = body.need - own;
    let met = own.is_disjoint(body.need);
    let tied = own.is_subset(body.restricted);
    let closed = free.is_empty();
    let none = Names::empty();
    let marks = gathered_marks(body.marks, met, skipped, unsummed | !tied, closed);
    Facts {
        free: free,
        restricted: none,
        need: need,
        marks: marks,
    }
}

// A Sum, whose slot may be a sigil, or a name that no binder has.
fn summed(columns: &[u64; 513], body: Facts, slot: Slot, list: NodeNo) -> Facts
    requires { Has columns.now list.0 × Tabled slot }
    ensures { meant result ≡ gathered_facts (meant body) (binders_of columns.now list.0) (is_sigil slot || binder_sigil (binders_of columns.now list.0)) (slot_in slot (outside (binder_names (binders_of columns.now list.0)))) }
{
    let own = slot_name(slot);
    let bound = binder_names(columns, list);
    let summed = own.is_subset(bound);
    let sigil = is_sigil(slot);
    let skipped = has_sigil_binder(columns, list);
    gathered(columns, body, list, sigil | skipped, !summed)
}

// What is known of a node that has one part: a condition, or a list.
pub fn over_facts(columns: &[u64; 513], rows: &[Facts], i: NodeNo, b: NodeNo) -> Facts
    requires { Has columns.now i.0 × (nodes_of (parts_of (node_of columns.now i.0)) ≡ b.0 ∷ []) × Sound columns.now rows.now (node_of columns.now i.0) }
    ensures { meant result ≡ own (tree_of columns.now) (node_of columns.now i.0) }
{
    let body = facts_at(rows, b);
    match node_at(columns, i) {
        Node::Not(_) => loose(body),
        Node::Exists(slot, _, _) => bound(body, slot),
        Node::Predicate(_, _) => searched(body, body.restricted),
        Node::Array(_) => {
            let none = Names::empty();
            searched(body, none)
        }
        Node::Sum(slot, list, _) => summed(columns, body, slot, list),
        Node::Count(list, _) => {
            let skipped = has_sigil_binder(columns, list);
            gathered(columns, body, list, skipped, false)
        }
        _ => body,
    }
}

// What is known of a node that has two parts: conditions or terms, or one and a list.
pub fn pair_facts(columns: &[u64; 513], rows: &[Facts], i: NodeNo, l: NodeNo, r: NodeNo) -> Facts
    requires { Has columns.now i.0 × (nodes_of (parts_of (node_of columns.now i.0)) ≡ l.0 ∷ r.0 ∷ []) × Sound columns.now rows.now (node_of columns.now i.0) }
    ensures { meant result ≡ own (tree_of columns.now) (node_of columns.now i.0) }
{
    let left = facts_at(rows, l);
    let right = facts_at(rows, r);
    match node_at(columns, i) {
        Node::And(_, _) => and_facts(left, right),
        Node::Or(_, _) => or_facts(left, right),
        Node::Since(_, _, _) => since_facts(left, right),
        Node::Comparison(op, _, _) => {
            if op == 0 {
                let side = eq_restricted_var(columns, l, r);
                equated(side, left, right)
            } else {
                compared(left, right)
            }
        }
        Node::Refine(_, _) => refined(left, right),
        Node::Arith(_, _, _) => arith_facts(left, right),
        _ => join_facts(left, right),
    }
}
