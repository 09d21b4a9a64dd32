// The head of a record: what its kind byte, and how much follows it, say of it.
ghost use Rattle.std.specs.Prelude.{◌≡◌};
ghost use Rattle.memory.specs.Heads.{order_by, full_by, Headed};

use memory::{Fault, Head, Row};

// Whether a class of records may stand after what was read.
fn order(class: u8, begun: bool, nodes: usize) -> bool
    ensures { result ≡ order_by class begun nodes }
{
    ((class == 1) & !begun) | (((class == 2) & (begun & (nodes == 0))) | ((3 <= class) & begun))
}

fn full(class: u8, names: usize, nodes: usize) -> bool
    ensures { result ≡ full_by class names nodes }
{
    ((class == 2) & (128 <= names)) | ((class == 3) & (512 <= nodes))
}

// Kind, cut and capacity.
fn any_head(row: Row, left: usize, begun: bool, names: usize, nodes: usize) -> Result<Head, Fault>
    ensures { Headed row left begun names nodes result }
{
    let class = row.class;
    if !order(class, begun, nodes) {
        return Err(Fault::OutOfOrder);
    }
    if left < usize::from(row.len) {
        return Err(Fault::CutShort);
    }
    if full(class, names, nodes) {
        return Err(Fault::NoRoom);
    }
    match class {
        1 => Ok(Head::Format),
        2 => Ok(Head::Name),
        3 => Ok(Head::Node),
        _ => Ok(Head::End),
    }
}

// The same. Most records are nodes where one may stand, and these are told by one test.
pub fn head_of(
    row: Row,
    left: usize,
    begun: bool,
    names: usize,
    nodes: usize,
) -> Result<Head, Fault>
    ensures { Headed row left begun names nodes result }
{
    let class = row.class;
    let len = usize::from(row.len);
    if ((class == 3) & begun) & ((nodes < 512) & (len <= left)) {
        return Ok(Head::Node);
    }
    any_head(row, left, begun, names, nodes)
}
