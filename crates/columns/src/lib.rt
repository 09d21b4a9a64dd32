// The nodes of accepted bytes as columns, from where their records begin.
#![tactic(auto)]

ghost use Rattle.std.specs.Prelude.{◌≡◌, ◌≤◌, length};
ghost use Rattle.memory.specs.Columns.{in_columns, Copies};

use memory::COUNT;
use octets::eight;

// A node's word, of the first eight bytes of its record: the kind takes a column of its own, and the six bytes behind it the three others.
fn in_columns(bytes: u64) -> u64
    ensures { result ≡ in_columns bytes }
{
    bytes % 0x100 + 0x10000 * (bytes / 0x100 % 0x1000000000000)
}

// The nodes whose records begin at the first so many of the starting places.
pub fn fill(bytes: &[u8], starts: &[u16; 512], nodes: usize, columns: &mut [u64; 513])
    requires { (nodes ≤ 512) × (length columns.old ≡ 513) }
    ensures { Copies bytes.now starts.now nodes columns.new }
{
    for i in 0..nodes {
        columns[i] = in_columns(eight(bytes, usize::from(starts[i])));
    }
    columns[COUNT] = nodes as u64;
}
