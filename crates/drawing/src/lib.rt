// The condition of a record as a tree, a line for each node, with each entry on the line of the node that it is about.
#![tactic(auto)]

mod lines;
mod shape;

ghost use Rattle.std.specs.Prelude.{◌+◌, ◌≤◌};

use labels::children::children_of;
use labels::text::Record;
use lines::Indent;
use paper::{Node, NodeNo};
use shape::Role;
use std::io;
use std::io::Write;

// What is drawn: the record of a condition, and the entries about it.
#[derive(Clone, Copy)]
struct Drawing<'a> {
    record: Record<'a>,
    entries: &'a [u32],
}

impl Drawing<'_> {
    fn line<W: Write>(
        self,
        out: &mut W,
        i: NodeNo,
        node: Node,
        depth: usize,
        role: Role,
    ) -> io::Result<()> {
        let number = i.0;
        let indent = Indent(depth);
        write!(
            out,
            "{number:>4}  {indent}{role}{}",
            self.record.alone(node)
        )?;
        lines::marks(out, self.record, self.entries, i)?;
        writeln!(out)
    }

    // A node and all that is below it, left first. An accepted record refers to lower nodes alone.
    fn draw<W: Write>(self, out: &mut W, i: NodeNo, depth: usize, role: Role) -> io::Result<()>
        requires { depth + i.0 ≤ 65535 }
    {
        let node = self.record.node(i);
        if shape::has_line(node) {
            self.line(out, i, node, depth, role)?;
        }
        let deeper = depth + shape::step(node);
        for (child, role) in children_of(node).into_iter().zip(shape::roles(node)) {
            if let Some(child) = child {
                if child.0 < i.0 {
                    self.draw(out, child, deeper, role)?;
                }
            }
        }
        Ok(())
    }
}

pub fn tree<W: Write>(
    out: &mut W,
    record: Record<'_>,
    entries: &[u32],
    root: NodeNo,
) -> io::Result<()> {
    Drawing { record, entries }.draw(out, root, 0, Role::Plain)
}
