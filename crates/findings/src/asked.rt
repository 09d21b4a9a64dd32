// What the program's arguments ask for.
ghost use Rattle.std.specs.Prelude.{◌≤◌, length};

use std::env::{Env, FillError};
use std::fmt;

#[derive(Clone, Copy, PartialEq, Eq)]
pub enum Mode {
    Words,
    Numbers,
    Tree,
    Help,
}

// The mode of an option, and the argument that names a file; none where nothing was said.
#[derive(Clone, Copy)]
pub struct Asked {
    pub mode: Option<Mode>,
    pub file: Option<usize>,
}

#[derive(Clone, Copy)]
pub enum Wrong {
    Option,
    SecondFile,
    SecondMode,
}

impl fmt::Display for Wrong {
    fn fmt<W: fmt::Write>(&self, f: &mut fmt::Formatter<W>) -> fmt::Result {
        f.write_str(match self {
            Wrong::Option => {
                "there is no such option. `findings --help` names those that there are."
            }
            Wrong::SecondFile => "this is a second file. Name one file at a time.",
            Wrong::SecondMode => {
                "this does not go with the option before it. Choose one of them."
            }
        })
    }
}

// What is wrong with the arguments, and with which of them.
#[derive(Clone, Copy)]
pub struct Fault {
    pub argument: usize,
    pub wrong: Wrong,
}

#[derive(Clone, Copy)]
enum Word {
    Mode(Mode),
    Unknown,
    File,
}

fn word_of(argument: &[u8]) -> Word {
    match argument {
        b"--numbers" => Word::Mode(Mode::Numbers),
        b"--tree" => Word::Mode(Mode::Tree),
        b"--help" => Word::Mode(Mode::Help),
        [b'-', ..] => Word::Unknown,
        _ => Word::File,
    }
}

// An argument, put into the buffer: all its bytes, or as many as the buffer holds.
pub fn argument<'a>(rt: &impl Env, i: usize, buffer: &'a mut [u8; 4096]) -> &'a [u8]
    ensures { length result.now ≤ 4096 }
{
    match rt.arg(i, buffer) {
        Ok(n) => &buffer[..n],
        Err(FillError::NotPresent) => &[],
        Err(FillError::TooLong) => buffer,
    }
}

// Whether there is such an argument: it is there too where it does not fit.
fn is_there(rt: &impl Env, i: usize) -> bool {
    match rt.arg(i, &mut []) {
        Ok(_) | Err(FillError::TooLong) => true,
        Err(FillError::NotPresent) => false,
    }
}

fn word_at(rt: &impl Env, i: usize) -> Word {
    let mut buffer = [0u8; 4096];
    word_of(argument(rt, i, &mut buffer))
}

impl Asked {
    fn add(&mut self, i: usize, word: Word) -> Result<(), Wrong> {
        match word {
            Word::Unknown => Err(Wrong::Option),
            Word::Mode(mode) => match self.mode.replace(mode) {
                None => Ok(()),
                Some(_) => Err(Wrong::SecondMode),
            },
            Word::File => match self.file.replace(i) {
                None => Ok(()),
                Some(_) => Err(Wrong::SecondFile),
            },
        }
    }
}

// The first fault counts.
pub fn arguments(rt: &impl Env) -> Result<Asked, Fault> {
    let mut asked = Asked {
        mode: None,
        file: None,
    };
    for argument in 1..usize::MAX {
        if !is_there(rt, argument) {
            break;
        }
        asked
            .add(argument, word_at(rt, argument))
            .map_err(|wrong| Fault { argument, wrong })?;
    }
    Ok(asked)
}
