// Replays the Rust's answers on the proved library. Standard input is the stored list; README.md beside it says how it is made.
#![tactic(auto)]

mod question;
mod stored;
mod tally;

use std::io;
use std::io::{Lock, Write};
use stored::first_case;
use tally::Tally;

fn replay_all<W: Write>(out: &mut W, list: &[u8], tally: &mut Tally) -> io::Result<()> {
    let mut rest = list;
    while let Some((case, behind)) = first_case(rest) {
        tally.replay(out, case)?;
        rest = behind;
    }
    Ok(())
}

fn main(rt: HostRuntime) -> io::Result<()> {
    let mut buffer = [0u8; 65536];
    let count = reading::fill(&mut rt.stdin(), &mut buffer)?;
    let mut out = rt.stdout().lock();
    let mut tally = Tally::new();
    replay_all(&mut out, &buffer[..count], &mut tally)?;
    tally.print(&mut out)
}
