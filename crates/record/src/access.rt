// A node and a name by their numbers.
ghost use Rattle.std.specs.Prelude.{◌≡◌, get_or, take, drop};
ghost use Rattle.paper.specs.declared.Node.TheVariants.{ListEnd};
ghost use Rattle.paper.specs.Questions.{name as name_asked};
ghost use Rattle.memory.specs.Columns.{numbers_in};
ghost use Rattle.record.specs.Stored.{held, Has};

use crate::reader::read;
use memory::Numbers;
use nodes::{node_of, numbers_in};
use paper::{NameNo, Node, NodeNo};
use words::unpadded;

// A node's word. Of those that read, the one function that knows where a node lies.
pub fn word_at(columns: &[u64; 513], i: NodeNo) -> u64
    requires { Has columns.now i.0 }
    ensures { result ≡ get_or columns.now i.0 0 }
{
    columns[i.0 as usize]
}

pub fn numbers_at(columns: &[u64; 513], i: NodeNo) -> Numbers
    requires { Has columns.now i.0 }
    ensures { result ≡ numbers_in (get_or columns.now i.0 0) }
{
    numbers_in(word_at(columns, i))
}

// Inlined as `node_of` is.
#[inline(always)]
pub fn node_at(columns: &[u64; 513], i: NodeNo) -> Node
    requires { Has columns.now i.0 }
    ensures { result ≡ get_or (held columns.now) i.0 ListEnd }
{
    node_of(numbers_at(columns, i))
}

// At most 24 bytes from a place on, as far as there are any.
fn stretch(bytes: &[u8], at: usize) -> &[u8]
    ensures { result.now ≡ take 24 (drop at bytes.now) }
{
    if bytes.len() <= at {
        return &bytes[..0];
    }
    if bytes.len() - at <= 24 {
        return &bytes[at..];
    }
    &bytes[at..at + 24]
}

// The name of a number, as the part of the record where it stands, without its padding; nothing for an unknown number or a record that is turned away.
pub fn name(bytes: &[u8], x: NameNo) -> &[u8]
    ensures { result.now ≡ name_asked bytes.now x.0 }
{
    let reading = read(bytes);
    let Ok(counts) = reading.verdict else {
        // Nothing stands past the end.
        return stretch(bytes, bytes.len());
    };
    let k = x.0 as usize;
    if counts.names <= k {
        return &bytes[..0];
    }
    unpadded(stretch(bytes, 3 + 25 * k))
}
