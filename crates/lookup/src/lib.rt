// A node of a record by its number: what it is, and what it ties if it is an equality. As the name lookup does, each function reads the record again, which
// takes microseconds, so that nobody has to carry where its nodes lie.
#![tactic(auto)]

ghost use Rattle.std.specs.Prelude.{◌≡◌, get_or};
ghost use Rattle.paper.specs.declared.Node.TheVariants.{ListEnd};
ghost use Rattle.paper.specs.Tree.{as_condition, tree_at};
ghost use Rattle.record.specs.Stored.{contents, Has};
ghost use Rattle.trees.specs.Trees.{condition_of};
ghost use Rattle.lookup.specs.Found.{Loaded, asked};

use columns::fill;
use paper::{Equality, Node, NodeNo};
use record::access::node_at;
use record::reader::read;
use vars::eq_restricted_var;
use views::{Owing, owing_at};

// The columns that hold the record's nodes, if it has this one.
fn load(bytes: &[u8], i: NodeNo) -> Option<[u64; 513]>
    ensures { Loaded bytes.now i.0 result }
{
    let reading = read(bytes);
    let Ok(counts) = reading.verdict else {
        return None;
    };
    let nodes = counts.nodes;
    if nodes <= (i.0 as usize) {
        return None;
    }
    let mut columns = [0u64; 513];
    fill(bytes, &reading.arena.starts, nodes, &mut columns);
    Some(columns)
}

// A list end for an unknown number or a record that is turned away.
pub fn node(bytes: &[u8], i: NodeNo) -> Node
    ensures { result ≡ get_or (contents bytes.now).nodes i.0 ListEnd }
{
    match load(bytes, i) {
        Some(columns) => node_at(&columns, i),
        None => Node::ListEnd,
    }
}

// Only an equality is asked what it ties.
fn answer(columns: &[u64; 513], i: NodeNo) -> Option<Equality>
    requires { Has columns.now i.0 }
    ensures { result ≡ asked (condition_of columns.now i.0) }
{
    match owing_at(columns, i) {
        Owing::Comparison(op, l, r) => {
            if op == 0 {
                Some(eq_restricted_var(columns, l, r))
            } else {
                None
            }
        }
        _ => None,
    }
}

// What the node ties, if it is an equality: none for an unknown number or a record that is turned away.
pub fn equality(bytes: &[u8], i: NodeNo) -> Option<Equality>
    ensures { result ≡ asked (as_condition (tree_at (contents bytes.now).nodes i.0)) }
{
    let columns = load(bytes, i)?;
    answer(&columns, i)
}
