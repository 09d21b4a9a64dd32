// A node on a line: its kind by document 01's word, with the names and the numbers that stand in it.
ghost use Rattle.std.specs.Prelude.{◌≡◌, get_or};
ghost use Rattle.paper.specs.declared.Node.TheVariants.{ListEnd};
ghost use Rattle.record.specs.Stored.{contents};

use crate::operators::{comparing, computing};
use paper::{NameNo, Node, NodeNo, Slot};
use record::access;
use std::{fmt, str};

// The bytes of a record, of which names and nodes are told in words.
#[derive(Clone, Copy)]
pub struct Record<'a> {
    pub bytes: &'a [u8],
}

impl<'a> Record<'a> {
    // A list end for an unknown number or a record that is turned away, as `lookup` has it.
    pub fn node(self, i: NodeNo) -> Node
        ensures { result ≡ get_or (contents self.entry.bytes.now).nodes i.0 ListEnd }
    {
        lookup::node(self.bytes, i)
    }

    // A name is letters, digits and underscores, so it is text.
    pub fn name(self, x: NameNo) -> &'a str {
        str::from_utf8(access::name(self.bytes, x)).unwrap_or("")
    }

    // The name that an entry is about, or nothing.
    pub fn about(self, whom: Option<NameNo>) -> &'a str {
        match whom {
            Some(x) => self.name(x),
            None => "",
        }
    }

    // A node without what is below it.
    pub fn alone(self, node: Node) -> Alone<'a> {
        Alone { record: self, node }
    }

    // A node by its number, a comparison with its sides.
    pub fn described(self, i: NodeNo) -> Described<'a> {
        let node = self.node(i);
        Described { record: self, node }
    }

    fn slot(self, slot: Slot) -> Bound<'a> {
        Bound { record: self, slot }
    }

    // As `described` reads a node, for other words: as one function it would want the words as a type parameter, which is no plainer.
    fn side(self, i: NodeNo) -> Side<'a> {
        let node = self.node(i);
        Side { record: self, node }
    }
}

// A name, or a sigil as the Rust's language writes it.
#[derive(Clone, Copy)]
struct Bound<'a> {
    record: Record<'a>,
    slot: Slot,
}

impl fmt::Display for Bound<'_> {
    fn fmt<W: fmt::Write>(&self, f: &mut fmt::Formatter<W>) -> fmt::Result {
        match self.slot {
            Slot::Name(x) => f.write_str(self.record.name(x)),
            Slot::Param(k) => write!(f, "?{k}"),
            Slot::Binder(k) => write!(f, "${k}"),
        }
    }
}

#[derive(Clone, Copy)]
pub struct Alone<'a> {
    record: Record<'a>,
    node: Node,
}

impl fmt::Display for Alone<'_> {
    fn fmt<W: fmt::Write>(&self, f: &mut fmt::Formatter<W>) -> fmt::Result {
        let record = self.record;
        match self.node {
            Node::And(_, _) => write!(f, "And"),
            Node::Or(_, _) => write!(f, "Or"),
            Node::Not(_) => write!(f, "Not"),
            Node::Formerly(_, window) => write!(f, "Formerly within {window}"),
            Node::Previous(_, window) => write!(f, "Previous within {window}"),
            Node::Since(_, _, window) => write!(f, "Since within {window}"),
            Node::Exists(slot, _, _) => write!(f, "Exists {}", record.slot(slot)),
            Node::Comparison(op, _, _) => write!(f, "Comparison {}", comparing(op)),
            Node::Predicate(action, _) => write!(f, "Predicate {action}"),
            Node::Refine(_, _) => write!(f, "Refine"),
            Node::Tp(slot) => write!(f, "Tp {}", record.slot(slot)),
            Node::Call(number) => write!(f, "Call {number}"),
            Node::SigilRef(number) => write!(f, "SigilRef {number}"),
            Node::Var(x) => write!(f, "Var {}", record.name(x)),
            Node::Wildcard => write!(f, "Wildcard"),
            Node::Literal(number) => write!(f, "Literal {number}"),
            Node::ScopeField(field) => write!(f, "ScopeField {field}"),
            Node::ContextField(field) => write!(f, "ContextField {field}"),
            Node::ParamRef(k) => write!(f, "ParamRef ?{k}"),
            Node::BinderRef(k) => write!(f, "BinderRef ${k}"),
            Node::Array(_) => write!(f, "Array"),
            Node::Arith(op, _, _) => write!(f, "Arith {}", computing(op)),
            Node::Sum(slot, _, _) => write!(f, "Sum of {}", record.slot(slot)),
            Node::Count(_, _) => write!(f, "Count"),
            Node::AggregateCall(number) => write!(f, "aggregate Call {number}"),
            Node::ListEnd => write!(f, "list end"),
            Node::ArgumentCell(field, _, _) => write!(f, "argument {field}"),
            Node::ItemCell(_, _) => write!(f, "item"),
            Node::BinderCell(slot, _, _) => write!(f, "for {}", record.slot(slot)),
        }
    }
}

// A side of a comparison in a few words: a name stands for itself.
#[derive(Clone, Copy)]
struct Side<'a> {
    record: Record<'a>,
    node: Node,
}

impl fmt::Display for Side<'_> {
    fn fmt<W: fmt::Write>(&self, f: &mut fmt::Formatter<W>) -> fmt::Result {
        match self.node {
            Node::Var(x) => f.write_str(self.record.name(x)),
            Node::Wildcard => f.write_str("*"),
            node => write!(f, "{}", self.record.alone(node)),
        }
    }
}

#[derive(Clone, Copy)]
pub struct Described<'a> {
    record: Record<'a>,
    node: Node,
}

impl fmt::Display for Described<'_> {
    fn fmt<W: fmt::Write>(&self, f: &mut fmt::Formatter<W>) -> fmt::Result {
        let record = self.record;
        match self.node {
            Node::Comparison(op, l, r) => {
                let left = record.side(l);
                let right = record.side(r);
                write!(f, "Comparison {left} {} {right}", comparing(op))
            }
            node => write!(f, "{}", record.alone(node)),
        }
    }
}
