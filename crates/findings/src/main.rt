// The list of one record, for the person who wrote the rule in it: `findings [--numbers | --tree] [FILE]`.
#![tactic(auto)]

mod asked;
mod input;
mod show;

use asked::{Asked, Mode};
use paper::Unlisted;
use questions::list;
use std::io;
use std::io::{Lock, Write};

// A list has at most 262,272 entries (docs/THEOREMS.md), so there is always room. They take one megabyte of the stack, which has eight.
fn answer<W: Write>(out: &mut W, record: &[u8], mode: Mode) -> io::Result<()> {
    let mut entries = [0u32; 262272];
    match list(record, &mut entries) {
        Ok(count) => {
            let listed = entries.get(..count).unwrap_or(&entries);
            show::listed(out, record, listed, mode)
        }
        Err(Unlisted::NoRoom { needed }) => show::no_room(out, needed),
        Err(Unlisted::Refused(refusal)) => show::refused(out, record, refusal, mode),
    }
}

fn on_input(rt: &HostRuntime, file: Option<usize>, mode: Mode) -> io::Result<()> {
    if file.is_none() {
        input::hint(rt)?;
    }
    let mut buffer = [0u8; 65536];
    match input::read(rt, file, &mut buffer) {
        Ok(record) => answer(&mut rt.stdout().lock(), record, mode),
        Err(unread) => input::complain(rt, file, unread),
    }
}

fn run(rt: &HostRuntime, asked: Asked) -> io::Result<()> {
    match asked.mode.unwrap_or(Mode::Words) {
        Mode::Help => show::usage(&mut rt.stdout().lock()),
        mode => on_input(rt, asked.file, mode),
    }
}

fn main(rt: HostRuntime) -> io::Result<()> {
    match asked::arguments(&rt) {
        Ok(asked) => run(&rt, asked),
        Err(fault) => input::complain(&rt, Some(fault.argument), fault.wrong),
    }
}
