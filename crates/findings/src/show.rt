// What the program prints of a record.
use crate::asked::Mode;
use drawing::tree;
use labels::text::Record;
use paper::{NodeNo, Refusal};
use questions::arithmetic;
use record::reader::read;
use std::io;
use std::io::Write;
use untied::below;
use wording::counts::Counted;
use wording::phrases::Phrase;
use wording::refusals;
use wording::rules::words_of;
use writes::unpack;

fn numbers<W: Write>(out: &mut W, entries: &[u32]) -> io::Result<()> {
    for entry in entries {
        writeln!(out, "{entry}")?;
    }
    Ok(())
}

// An entry: a line for where, what and why, one on how to mend it, and what there is to say of equalities.
fn block<W: Write>(out: &mut W, record: Record<'_>, entry: u32) -> io::Result<()> {
    let f = unpack(entry);
    let name = record.about(f.name);
    let rule = f.rule;
    let node = record.described(f.node);
    write!(out, "{rule} at node {} ({node}): ", f.node.0)?;
    let words = words_of(rule);
    let say = |line| Phrase { line, name };
    writeln!(out, "{}: {}.", say(words.wrong), say(words.why))?;
    writeln!(out, "   Mend: {}", say(words.mend))?;
    below(out, record, f)
}

fn blocks<W: Write>(out: &mut W, record: Record<'_>, entries: &[u32]) -> io::Result<()> {
    for &entry in entries {
        block(out, record, entry)?;
    }
    Ok(())
}

// The last node, where the record is accepted.
fn root_of(record: &[u8]) -> Option<NodeNo> {
    let counts = read(record).verdict.ok()?;
    let last = u16::try_from(counts.nodes.checked_sub(1)?).ok()?;
    Some(NodeNo(last))
}

fn whole_tree<W: Write>(out: &mut W, record: Record<'_>, entries: &[u32]) -> io::Result<()> {
    match root_of(record.bytes) {
        Some(root) => tree(out, record, entries, root),
        None => Ok(()),
    }
}

// Arithmetic is no finding of the list, but a terminal that is built without it refuses the rule.
fn note<W: Write>(out: &mut W, record: &[u8]) -> io::Result<()> {
    if arithmetic(record) == Ok(true) {
        writeln!(
            out,
            "note: this rule uses arithmetic (40): a terminal without arithmetic refuses it."
        )?;
    }
    Ok(())
}

fn verdict<W: Write>(out: &mut W, record: &[u8], count: usize) -> io::Result<()> {
    note(out, record)?;
    if count == 0 {
        return writeln!(out, "accepted");
    }
    writeln!(out, "{}", Counted(count, "finding"))
}

pub fn listed<W: Write>(out: &mut W, bytes: &[u8], entries: &[u32], mode: Mode) -> io::Result<()> {
    let record = Record { bytes };
    match mode {
        Mode::Numbers => return numbers(out, entries),
        Mode::Tree => whole_tree(out, record, entries)?,
        Mode::Words | Mode::Help => blocks(out, record, entries)?,
    }
    verdict(out, bytes, entries.len())
}

pub fn no_room<W: Write>(out: &mut W, needed: usize) -> io::Result<()> {
    let findings = Counted(needed, "finding");
    writeln!(out, "the list is too long to be shown: {findings}")
}

// The reader's answer for no bytes is 1, as for a file that was cut. What stands in a file that is too large does not say what is most likely wrong.
fn explained<W: Write>(out: &mut W, record: &[u8], refusal: u8) -> io::Result<()> {
    if record.is_empty() {
        return write!(
            out,
            ": the file is empty.\n   Mend: nothing was saved in it: save the rule again in the editor."
        );
    }
    let fault = refusals::fault(refusal);
    let advice = refusals::advice(refusal);
    write!(out, ": {fault}.\n   Mend: {advice}")?;
    if record.len() > 6258 {
        write!(
            out,
            "\n   The file has {} bytes, and a record 6258 at most: check that it is the right file.",
            record.len()
        )?;
    }
    Ok(())
}

pub fn refused<W: Write>(
    out: &mut W,
    record: &[u8],
    refusal: Refusal,
    mode: Mode,
) -> io::Result<()> {
    let Refusal { number, offset } = refusal;
    write!(out, "refused {number} at byte {offset}")?;
    if mode != Mode::Numbers {
        explained(out, record, number)?;
    }
    writeln!(out)
}

pub fn usage<W: Write>(out: &mut W) -> io::Result<()> {
    write!(
        out,
        "\
usage: findings [--numbers | --tree] [FILE]\n\
\n\
Reads the record of one rule from FILE, or from standard input where no file is\n\
named. Says what is wrong with the rule, where, and how to mend it. The last\n\
line is the number of findings, or `accepted`.\n\
\n\
\x20\x20--numbers   each finding as document 01's number, one to a line\n\
\x20\x20--tree      the rule as a tree, each finding on the line of its node (behind !),\n\
\x20\x20            and why an equality ties nothing on the line of that (behind ~)\n\
\x20\x20--help      this text\n\
\n\
To tie a name is to give it a value: by an event that has it as an argument, by\n\
tp, or by an equality. Numbers of actions, fields and literals are those of the\n\
catalogue.\n"
    )
}
