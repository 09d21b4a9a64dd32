// The lines of the tree: a node's number, and then, by its depth, what it is.
use labels::text::Record;
use paper::NodeNo;
use std::io::Write;
use std::{fmt, io};
use untied::behind;
use wording::phrases::Phrase;
use wording::rules::words_of;
use writes::unpack;

// Two columns for each step down.
#[derive(Clone, Copy)]
pub struct Indent(pub usize);

impl fmt::Display for Indent {
    fn fmt<W: fmt::Write>(&self, f: &mut fmt::Formatter<W>) -> fmt::Result {
        for _ in 0..self.0 {
            f.write_str("  ")?;
        }
        Ok(())
    }
}

// An entry, if it stands at the node.
fn mark<W: Write>(out: &mut W, record: Record<'_>, entry: u32, i: NodeNo) -> io::Result<()> {
    let f = unpack(entry);
    if f.node != i {
        return Ok(());
    }
    let line = words_of(f.rule).wrong;
    let name = record.about(f.name);
    write!(out, "  ! {}: {}", f.rule, Phrase { line, name })
}

// The entries of the node, at the end of its line, and why it ties nothing if it is an equality that does.
pub fn marks<W: Write>(
    out: &mut W,
    record: Record<'_>,
    entries: &[u32],
    i: NodeNo,
) -> io::Result<()> {
    for &entry in entries {
        mark(out, record, entry, i)?;
    }
    behind(out, record, i)
}
