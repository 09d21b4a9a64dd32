// The bytes of a file or of standard input, and what is said of a file on standard error.
use crate::asked::argument;
use std::fmt::Display;
use std::fs::File;
use std::io::{ErrorKind, IsTerminal, Lock, Read, Write};
use std::{fmt, fs, io, str};

// Why there are no bytes to look at.
#[derive(Clone, Copy)]
pub enum Unread {
    TooLarge,
    Failed(ErrorKind),
}

impl From<io::Error> for Unread {
    fn from(error: io::Error) -> Unread {
        Unread::Failed(error.kind())
    }
}

impl fmt::Display for Unread {
    fn fmt<W: fmt::Write>(&self, f: &mut fmt::Formatter<W>) -> fmt::Result {
        f.write_str(match *self {
            Unread::TooLarge => {
                "this is larger than any record: one has 6258 bytes at most. Check that it is the right file."
            }
            Unread::Failed(ErrorKind::NotFound) => {
                "there is no such file. Check its name, and the folder that you are in."
            }
            Unread::Failed(ErrorKind::PermissionDenied) => {
                "you may not read this file. Ask its owner, or have it copied to you."
            }
            Unread::Failed(ErrorKind::IsADirectory) => {
                "this is a folder. Name the record's file in it."
            }
            Unread::Failed(_) => "this cannot be read. Try a copy of it in another folder.",
        })
    }
}

// A line about the file that an argument names, or about standard input. A file's name need not be text, and stands there as it was given.
pub fn complain<D: Display + Drop>(
    rt: &HostRuntime,
    file: Option<usize>,
    words: D,
) -> io::Result<()> {
    let mut buffer = [0u8; 4096];
    let name = match file {
        Some(i) => argument(rt, i, &mut buffer),
        None => b"standard input",
    };
    let mut out = rt.stderr().lock();
    write!(out, "findings: ")?;
    out.write_all(name)?;
    writeln!(out, ": {words}")
}

fn read_from<'a, R: Read>(from: &mut R, buffer: &'a mut [u8; 65536]) -> Result<&'a [u8], Unread> {
    let count = reading::fill(from, buffer)?;
    if count == 65536 {
        return Err(Unread::TooLarge);
    }
    Ok(&buffer[..count])
}

// A path is text: a name that is not UTF-8 cannot be opened.
fn open(rt: &HostRuntime, i: usize) -> io::Result<File> {
    let mut path = [0u8; 4096];
    match str::from_utf8(argument(rt, i, &mut path)) {
        Ok(name) => fs::open(rt, name),
        Err(_) => Err(io::Error::from(ErrorKind::InvalidInput)),
    }
}

// A person who named no file would wait for nothing.
pub fn hint(rt: &HostRuntime) -> io::Result<()> {
    if rt.stdin().is_terminal() {
        complain(
            rt,
            None,
            "waiting for a record here. `findings --help` says how to name a file.",
        )?;
    }
    Ok(())
}

// What stands in the file that an argument names, or on standard input.
pub fn read<'a>(
    rt: &HostRuntime,
    file: Option<usize>,
    buffer: &'a mut [u8; 65536],
) -> Result<&'a [u8], Unread> {
    match file {
        Some(i) => read_from(&mut open(rt, i)?, buffer),
        None => read_from(&mut rt.stdin(), buffer),
    }
}
