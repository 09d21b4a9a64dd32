// The reader and the list at their limits: a line says what a record is, how long it is and what the reader says of it.
#![tactic(auto)]

mod put;
mod say;

ghost use Rattle.std.specs.Prelude.{◌≤◌};

use paper::NodeNo;
use put::Written;
use std::io;
use std::io::Write;

const NOT: [u8; 1] = *b"\x12";

// Binds name 0, of type 0.
const EXISTS: [u8; 4] = *b"\x16\0\0\0";

// A Call under Nots.
fn deep<W: Write>(to: &mut W, title: &str, nodes: u16) -> io::Result<()>
    requires { 1 ≤ nodes }
{
    let mut record = Written::new();
    record.call();
    record.stack(&NOT, 0, nodes - 1);
    record.end(nodes);
    say::reading(to, title, record.as_slice())
}

// A balanced tree of 256 Calls and 255 Ands, which is 9 deep, under Nots. It is built as `deep` is, but for what stands below the Nots.
fn wide<W: Write>(to: &mut W, title: &str, nodes: u16) -> io::Result<()>
    requires { 1 ≤ nodes }
{
    let mut record = Written::new();
    record.calls(256);
    record.ands(255);
    record.stack(&NOT, 510, nodes - 1);
    record.end(nodes);
    say::reading(to, title, record.as_slice())
}

// Names and one Call; and what the last name's number and the number after it give.
fn named<W: Write>(to: &mut W, title: &str, first: u8, count: u8) -> io::Result<()>
    requires { (first ≤ 122) × (1 ≤ count) }
{
    let mut record = Written::new();
    record.names(first, count);
    record.call();
    record.end(1);
    say::reading(to, title, record.as_slice())?;
    say::lookup(to, record.as_slice(), count - 1)?;
    say::lookup(to, record.as_slice(), count)
}

fn short<W: Write>(to: &mut W) -> io::Result<()> {
    say::reading(to, "nothing", &[])?;
    say::reading(to, "the format record alone", Written::new().as_slice())
}

// A Call under 55 Exists: 56 nodes, 56 deep.
fn tower(record: &mut Written, bottom: u16)
    requires { bottom ≤ 512 }
{
    record.call();
    record.stack(&EXISTS, bottom, bottom + 55);
}

// Nine towers and the eight Sinces that join them: 512 nodes, 64 deep. With fewer than nine leaves 512 nodes go deeper, and no leaf is longer
// than a Call, no node with one child than an Exists, none with two than a Since.
fn towers(record: &mut Written) {
    tower(record, 0);
    for k in 0..8 {
        let top: u16 = 55 + 57 * k;
        tower(record, top + 1);
        record.since(NodeNo(top), NodeNo(top + 56));
    }
}

fn all_but_the_last(bytes: &[u8]) -> &[u8] {
    match bytes {
        [rest @ .., _] => rest,
        [] => bytes,
    }
}

fn largest<W: Write>(to: &mut W) -> io::Result<()> {
    let mut record = Written::new();
    record.names(b'a', 128);
    towers(&mut record);
    record.end(512);
    say::reading(to, "the largest", record.as_slice())?;
    record.push(0);
    let longer = record.as_slice();
    say::reading(to, "a byte more", longer)?;
    let shorter = all_but_the_last(all_but_the_last(longer));
    say::reading(to, "a byte less", shorter)
}

// Not over a balanced tree of 128 tps, one for each name: 28 for each, and 31 for each.
fn lists<W: Write>(to: &mut W) -> io::Result<()> {
    let mut record = Written::new();
    record.names(b'a', 128);
    record.tps(128);
    record.ands(127);
    record.stack(&NOT, 254, 255);
    record.end(256);
    let bytes = record.as_slice();
    say::reading(to, "128 free names", bytes)?;
    say::listing(to, bytes, &mut [7; 256])?;
    say::listing(to, bytes, &mut [7; 255])?;
    say::listing(to, bytes, &mut [7; 257])?;
    say::listing(to, bytes, &mut [7; 1])?;
    say::listing(to, all_but_the_last(bytes), &mut [7; 1])
}

fn main(rt: HostRuntime) -> io::Result<()> {
    let mut to = rt.stdout().lock();
    deep(&mut to, "64 deep", 64)?;
    deep(&mut to, "65 deep", 65)?;
    wide(&mut to, "512 nodes", 512)?;
    wide(&mut to, "513 nodes", 513)?;
    named(&mut to, "128 names", b'a', 128)?;
    named(&mut to, "129 names", b'a', 129)?;
    named(&mut to, "a name of 24 bytes", b'a', 1)?;
    named(&mut to, "the same with a digit first", b'0', 1)?;
    short(&mut to)?;
    largest(&mut to)?;
    lists(&mut to)
}
