// What may not stand in an argument or in an array.
ghost use Rattle.paper.specs.Places.{itself, findings};
ghost use Rattle.record.specs.Stored.{Has};
ghost use Rattle.trees.specs.Trees.{tree_of};
ghost use Rattle.writes.specs.Walked.{HasRoom, Added};
ghost use Rattle.places.specs.Nested.{nested_in};

use paper::{Finding, Node, NodeNo};
use record::access::node_at;
use writes::Entries;

// The entry of a rule that a node breaks by itself.
fn reject(n: NodeNo, rule: u8, entries: &mut Entries)
    requires { HasRoom (findings (itself rule n)) entries.old }
    ensures { Added (findings (itself rule n)) entries.old entries.new }
{
    let f = Finding {
        rule: rule,
        node: n,
        name: None,
    };
    entries.put(f);
}

// Of a term, or of the terms of a list: 20 for an aggregate, 21 for arithmetic, through arrays.
pub fn reject_nested_agg(columns: &[u64; 513], i: NodeNo, entries: &mut Entries)
    requires has { Has columns.now i.0 }
    requires room { HasRoom (nested_in (tree_of columns.now i.0)) entries.old }
    ensures { Added (nested_in (tree_of columns.now i.0)) entries.old entries.new }
{
    let node = node_at(columns, i);
    match node {
        Node::Sum(_, _, _) | Node::Count(_, _) | Node::AggregateCall(_) => reject(i, 20, entries),
        Node::Arith(_, _, _) => reject(i, 21, entries),
        Node::Array(items) => reject_nested_agg(columns, items, entries),
        Node::ArgumentCell(_, t, rest) | Node::ItemCell(t, rest) => {
            reject_nested_agg(columns, t, entries);
            reject_nested_agg(columns, rest, entries);
        }
        _ => {}
    }
}
