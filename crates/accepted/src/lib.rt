// What each question answers to bytes that the reader accepted: from here on the nodes are columns.
#![tactic(auto)]

ghost use Rattle.std.specs.Prelude.{◌≡◌, length, ◌+◌, ◌*◌, ◌-◌, ◌<◌, ◌≤◌, Ok};
ghost use Rattle.paper.specs.Record.{node_no};
ghost use Rattle.paper.specs.TurnedAway.{read};
ghost use Rattle.paper.specs.Questions.{answered, arithmetic as arithmetic_answer, list as list_answer, list_buffer};
ghost use Rattle.accepted.specs.Ready.{Ready, Counted, Reserved, ReservedFor, part_asked};

use checks::arith::condition_has_arith;
use columns::fill;
use entries::part_entries;
use listing::Check;
use paper::{Counts, Finding, NodeNo, Unlisted};
use record::reader::Arena;
use whole::list_entries;
use writes::first;

// The last node.
fn root(nodes: usize) -> NodeNo
    requires { (0 < nodes) × (nodes ≤ 512) }
    ensures { result ≡ node_no (nodes - 1) }
{
    NodeNo((nodes - 1) as u16)
}

// No list is longer: three entries a node, and as many as there are names for each node and for the root.
fn most_entries(names: usize, nodes: usize) -> usize
    requires { (names ≤ 128) × (nodes ≤ 512) }
    ensures { result ≡ 3 * nodes + names * (nodes + 1) }
{
    3 * nodes + names * (nodes + 1)
}

// The first entry of the part that a check asks for, if it has one.
pub fn answer_check(bytes: &[u8], arena: &Arena, nodes: usize, check: Check) -> Option<Finding>
    requires { Ready bytes.now arena.now.starts nodes × ReservedFor bytes.now check }
    ensures { Ok result ≡ answered (part_asked check) (read bytes.now) }
{
    let mut columns = [0u64; 513];
    fill(bytes, &arena.starts, nodes, &mut columns);
    let mut one = [0u32; 1];
    let count = part_entries(&columns, root(nodes), check, &mut one);
    first(count, one[0])
}

// Whether arithmetic is an operand of a comparison.
pub fn arithmetic(bytes: &[u8], arena: &Arena, nodes: usize) -> bool
    requires { Ready bytes.now arena.now.starts nodes }
    ensures { Ok result ≡ arithmetic_answer bytes.now }
{
    let mut columns = [0u64; 513];
    fill(bytes, &arena.starts, nodes, &mut columns);
    condition_has_arith(&columns, root(nodes))
}

// The list, in the first entries of the buffer, and its length; or the entries needed, where the buffer has fewer.
pub fn list(bytes: &[u8], arena: &Arena, counts: Counts, out: &mut [u32]) -> Result<usize, Unlisted>
    requires { Ready bytes.now arena.now.starts counts.nodes × Reserved bytes.now arena.now.reserved × Counted bytes.now counts.names counts.nodes }
    ensures { (result ≡ list_answer bytes.now (length out.old)) × (out.new ≡ list_buffer bytes.now out.old) }
{
    let mut columns = [0u64; 513];
    fill(bytes, &arena.starts, counts.nodes, &mut columns);
    let room = out.len();
    let most = most_entries(counts.names, counts.nodes);
    let count = list_entries(&columns, root(counts.nodes), arena.reserved, most, out);
    if room < count {
        return Err(Unlisted::NoRoom { needed: count });
    }
    Ok(count)
}
