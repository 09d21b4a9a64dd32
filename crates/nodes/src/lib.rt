// A node from its word.
#![tactic(auto)]

ghost use Rattle.std.specs.Prelude.{◌≡◌, ◌/◌, ◌%◌, ◌<◌};
ghost use Rattle.paper.specs.Record.{slot_of};
ghost use Rattle.memory.specs.Columns.{told_by, numbers_in};

use memory::{Numbers, PLACE_0, PLACE_1, PLACE_2, PLACE_3, PLACE_4};
use paper::{NameNo, Node, NodeNo, Slot};

fn lower(x: u16) -> u8
    ensures { result ≡ x % 256 }
{
    (x % 256) as u8
}

fn upper(x: u16) -> u8
    ensures { result ≡ x / 256 }
{
    (x / 256) as u8
}

fn slot_of(sort: u8, number: u8) -> Slot
    ensures { result ≡ slot_of sort number }
{
    match sort {
        0 => Slot::Name(NameNo(number)),
        1 => Slot::Param(number),
        _ => Slot::Binder(number),
    }
}

// A slot's sort is the lower byte, its number the upper one.
fn slot_in(x: u16) -> Slot
    ensures { result ≡ slot_of (x % 256) (x / 256) }
{
    let sort = lower(x);
    let number = upper(x);
    slot_of(sort, number)
}

fn kind_in(word: u64) -> u16
    ensures { result ≡ word % 0x10000 }
{
    (word % 0x10000) as u16
}

// The two bytes that come lowest when a word is divided by a power of 256: the compiler makes a shift of it.
fn number_in(word: u64, past: u64) -> u16
    requires { 0 < past }
    ensures { result ≡ word / past % 0x10000 }
{
    (word / past % 0x10000) as u16
}

pub fn numbers_in(word: u64) -> Numbers
    ensures { result ≡ numbers_in word }
{
    let kind = kind_in(word);
    let p0 = number_in(word, PLACE_0);
    let p1 = number_in(word, PLACE_1);
    let p2 = number_in(word, PLACE_2);
    let p3 = number_in(word, PLACE_3);
    let p4 = number_in(word, PLACE_4);
    Numbers {
        kind: kind,
        p0: p0,
        p1: p1,
        p2: p2,
        p3: p3,
        p4: p4,
    }
}

// The node that these numbers say. Inlined, so that the match of whoever asks is joined with this one, and no node is made to be taken apart again.
#[inline(always)]
pub fn node_of(n: Numbers) -> Node
    ensures { result ≡ told_by n }
{
    let kind = n.kind;
    match kind {
        0x10 => Node::And(NodeNo(n.p0), NodeNo(n.p2)),
        0x11 => Node::Or(NodeNo(n.p0), NodeNo(n.p2)),
        0x12 => Node::Not(NodeNo(n.p0)),
        0x13 => Node::Formerly(NodeNo(n.p0), n.p2),
        0x14 => Node::Previous(NodeNo(n.p0), n.p2),
        0x15 => Node::Since(NodeNo(n.p0), NodeNo(n.p2), n.p4),
        0x16 => Node::Exists(slot_in(n.p0), lower(n.p2), NodeNo(n.p3)),
        0x17 => Node::Comparison(lower(n.p0), NodeNo(n.p1), NodeNo(n.p3)),
        0x18 => Node::Predicate(n.p0, NodeNo(n.p2)),
        0x19 => Node::Refine(NodeNo(n.p0), NodeNo(n.p2)),
        0x1A => Node::Tp(slot_in(n.p0)),
        0x1B => Node::Call(n.p0),
        0x1C => Node::SigilRef(n.p0),
        0x20 => Node::Var(NameNo(lower(n.p0))),
        0x21 => Node::Wildcard,
        0x22 => Node::Literal(n.p0),
        0x23 => Node::ScopeField(n.p0),
        0x24 => Node::ContextField(n.p0),
        0x25 => Node::ParamRef(lower(n.p0)),
        0x26 => Node::BinderRef(lower(n.p0)),
        0x27 => Node::Array(NodeNo(n.p0)),
        0x28 => Node::Arith(lower(n.p0), NodeNo(n.p1), NodeNo(n.p3)),
        0x29 => Node::Sum(slot_in(n.p0), NodeNo(n.p2), NodeNo(n.p4)),
        0x2A => Node::Count(NodeNo(n.p0), NodeNo(n.p2)),
        0x2B => Node::AggregateCall(n.p0),
        0x31 => Node::ArgumentCell(n.p0, NodeNo(n.p2), NodeNo(n.p4)),
        0x32 => Node::ItemCell(NodeNo(n.p0), NodeNo(n.p2)),
        0x33 => Node::BinderCell(slot_in(n.p0), lower(n.p2), NodeNo(n.p3)),
        _ => Node::ListEnd,
    }
}
