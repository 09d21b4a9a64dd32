// What a person is told of an equality that ties nothing: behind it on the tree, and below an entry that it has to do with.
#![tactic(auto)]

mod uses;

use labels::children::children_of;
use labels::text::Record;
use lookup::equality;
use paper::{Equality, Finding, NameNo, NodeNo, Reason};
use std::io;
use std::io::Write;
use uses::{binds, uses};
use wording::reasons::untied;

// Why the node ties nothing, if it is an equality that does.
fn reason_at(record: Record<'_>, i: NodeNo) -> Option<Reason> {
    match equality(record.bytes, i)? {
        Equality::Nothing(why) => Some(why),
        _ => None,
    }
}

// At the end of the node's line on the tree. This and the next differ in their words alone, which as parameters would be no plainer.
pub fn behind<W: Write>(out: &mut W, record: Record<'_>, i: NodeNo) -> io::Result<()> {
    match reason_at(record, i) {
        Some(why) => write!(out, "  ~ ties nothing: {}", untied(why)),
        None => Ok(()),
    }
}

// An entry stands at the equality.
fn itself<W: Write>(out: &mut W, record: Record<'_>, i: NodeNo) -> io::Result<()> {
    match reason_at(record, i) {
        Some(why) => writeln!(out, "   This equality ties nothing: {}.", untied(why)),
        None => Ok(()),
    }
}

// The node, if it is an equality that has the name.
fn one_inside<W: Write>(
    out: &mut W,
    record: Record<'_>,
    i: NodeNo,
    name: NameNo,
) -> io::Result<()> {
    match reason_at(record, i) {
        Some(why) if uses(record, i, name) => writeln!(
            out,
            "   Node {} ({}) ties nothing: {}.",
            i.0,
            record.described(i),
            untied(why)
        ),
        _ => Ok(()),
    }
}

// Each equality at the node or below it that has the name. Below a binder of the same name, another one is meant.
fn inside<W: Write>(out: &mut W, record: Record<'_>, i: NodeNo, name: NameNo) -> io::Result<()> {
    let n = record.node(i);
    if binds(record, n, name) {
        return Ok(());
    }
    one_inside(out, record, i, name)?;
    for child in children_of(n).into_iter().flatten() {
        if child < i {
            inside(out, record, child, name)?;
        }
    }
    Ok(())
}

// The body of an exists that does not tie its name.
fn in_body<W: Write>(
    out: &mut W,
    record: Record<'_>,
    exists: NodeNo,
    whom: Option<NameNo>,
) -> io::Result<()> {
    let [body, _] = children_of(record.node(exists));
    match (body, whom) {
        (Some(body), Some(name)) => inside(out, record, body, name),
        _ => Ok(()),
    }
}

// Below an entry, where it helps: of 31 about the equality that it stands at, of 23 about those that could have tied the name.
pub fn below<W: Write>(out: &mut W, record: Record<'_>, entry: Finding) -> io::Result<()> {
    let whom = entry.name;
    match entry.rule {
        23 => in_body(out, record, entry.node, whom),
        31 => itself(out, record, entry.node),
        _ => Ok(()),
    }
}
