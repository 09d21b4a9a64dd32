// What the reader and the list say, as lines of text.
use paper::{Counts, NameNo, Refusal, Unlisted};
use questions::list;
use record::access::name;
use record::reader::read;
use std::io::Write;
use std::{io, str};
use wording::counts::Counted;

fn verdict<W: Write>(to: &mut W, verdict: Result<Counts, Refusal>) -> io::Result<()> {
    match verdict {
        Ok(Counts { names, nodes }) => {
            let names = Counted(names, "name");
            let nodes = Counted(nodes, "node");
            write!(to, "accepted, {names}, {nodes}")
        }
        Err(Refusal { number, offset }) => write!(to, "refused {number} at byte {offset}"),
    }
}

// A line for the record that the bytes are.
pub fn reading<W: Write>(to: &mut W, title: &str, bytes: &[u8]) -> io::Result<()> {
    let length = Counted(bytes.len(), "byte");
    write!(to, "{title}, {length}: ")?;
    verdict(to, read(bytes).verdict)?;
    writeln!(to)
}

// A line for a name of that record, which is text.
pub fn lookup<W: Write>(to: &mut W, bytes: &[u8], x: u8) -> io::Result<()> {
    let found = name(bytes, NameNo(x));
    let length = Counted(found.len(), "byte");
    let text = str::from_utf8(found).unwrap_or("");
    writeln!(to, "  name {x}, {length}: \"{text}\"")
}

fn listed<W: Write>(to: &mut W, answer: Result<usize, Unlisted>) -> io::Result<()> {
    match answer {
        Ok(count) => write!(to, "{count} entries"),
        Err(Unlisted::NoRoom { needed }) => write!(to, "50, {needed} needed"),
        Err(Unlisted::Refused(refusal)) => write!(to, "refused {}", refusal.number),
    }
}

// A line for the list of that record: the answer, and the first and the last entry of the buffer afterwards.
pub fn listing<W: Write>(to: &mut W, bytes: &[u8], entries: &mut [u32]) -> io::Result<()> {
    let answer = list(bytes, entries);
    write!(to, "  a buffer of {}: ", entries.len())?;
    listed(to, answer)?;
    for entry in entries.first().into_iter().chain(entries.last()) {
        write!(to, ", {entry}")?;
    }
    writeln!(to)
}
