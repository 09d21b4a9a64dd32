// The end record.
ghost use Rattle.std.specs.Prelude.{◌≡◌, ◌≤◌, Err};
ghost use Rattle.paper.specs.Sets.{all_below};
ghost use Rattle.paper.specs.TurnedAway.{refusal};
ghost use Rattle.memory.specs.Faults.{number as number_of};
ghost use Rattle.memory.specs.Ends.{marks, rooted_in, ended_in};

use kinds::fits;
use memory::Fault;
use octets::number;
use paper::{Counts, Refusal};

// Whether each of the first n nodes is marked. No branch depends on a mark, so that the compiler tests many at once.
fn all_marked(used: &[u8; 512], n: usize) -> bool
    requires { n ≤ 512 }
    ensures { result ≡ all_below n (marks used.now) }
{
    let mut all = true;
    for mark in &used[..n] {
        all &= *mark != 0;
    }
    all
}

fn turned_away(fault: Fault, offset: usize) -> Result<Counts, Refusal>
    ensures { result ≡ Err (refusal (number_of fault) offset) }
{
    Err(Refusal {
        number: fault as u8,
        offset,
    })
}

// 13, or the counts.
fn rooted<'a>(
    at: usize,
    names: usize,
    nodes: usize,
    kinds: &'a [u8; 512],
    used: &'a [u8; 512],
) -> Result<Counts, Refusal>
    requires { nodes ≤ 512 }
    ensures { result ≡ rooted_in at names nodes kinds.now used.now }
{
    if nodes == 0 {
        return turned_away(Fault::NotOneTree, at);
    }
    let root = nodes - 1;
    if fits(1, kinds[root]) & all_marked(used, root) {
        return Ok(Counts { names, nodes });
    }
    turned_away(Fault::NotOneTree, at)
}

// The end record: 12, then 13, or the counts.
pub fn ended<'a>(
    b: &[u8],
    at: usize,
    names: usize,
    nodes: usize,
    kinds: &'a [u8; 512],
    used: &'a [u8; 512],
) -> Result<Counts, Refusal>
    requires { nodes ≤ 512 }
    ensures { result ≡ ended_in b.now at names nodes kinds.now used.now }
{
    if (usize::from(number(b, 0)) == nodes) & (b.len() == 2) {
        return rooted(at, names, nodes, kinds, used);
    }
    turned_away(Fault::WrongEnd, at)
}
