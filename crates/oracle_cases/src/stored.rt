// The stored list. A case is the length of its record in two bytes, a seed in sixteen, low bytes first; rule and name of five answers; and its record.
ghost use Rattle.std.specs.Prelude.{◌<◌, length, IfSome};

use names::Names;
use octets::{byte, eight, number, tail};
use paper::{Finding, Refusal};
use std::fmt;
use writes::name_or_255;

const SEED: usize = 2;

const ANSWERS: usize = 18;

const RECORD: usize = 28;

const NO_NAME: u8 = 255;

// A rule and the number of a name, as the Rust's answers are stored. A refusal has its own number, which no stored answer has: every stored record is an
// accepted one.
#[derive(Clone, Copy, PartialEq, Eq)]
pub struct Said {
    pub rule: u8,
    pub name: u8,
}

impl Said {
    fn of_nobody(rule: u8) -> Said {
        Said {
            rule,
            name: NO_NAME,
        }
    }

    fn stored(list: &[u8], at: usize) -> Said
        requires { at < 28 }
    {
        Said {
            rule: byte(list, at),
            name: byte(list, at + 1),
        }
    }
}

impl From<Result<Option<Finding>, Refusal>> for Said {
    fn from(answer: Result<Option<Finding>, Refusal>) -> Said {
        match answer {
            Ok(None) => Said::of_nobody(0),
            Ok(Some(f)) => Said {
                rule: f.rule,
                name: name_or_255(f.name),
            },
            Err(refusal) => Said::of_nobody(refusal.number),
        }
    }
}

impl From<Result<bool, Refusal>> for Said {
    fn from(answer: Result<bool, Refusal>) -> Said {
        Said::of_nobody(match answer {
            Ok(false) => 0,
            Ok(true) => 40,
            Err(refusal) => refusal.number,
        })
    }
}

impl fmt::Display for Said {
    fn fmt<W: fmt::Write>(&self, f: &mut fmt::Formatter<W>) -> fmt::Result {
        let rule = self.rule;
        let name = self.name;
        write!(f, "{rule} {name}")
    }
}

// What is stored of a record: its bytes, a seed, and what the Rust answered to each question.
#[derive(Clone, Copy)]
pub struct Case<'a> {
    pub record: &'a [u8],
    pub seed: Names,
    pub answers: [Said; 5],
}

fn seed(list: &[u8]) -> Names {
    Names {
        lo: eight(list, SEED),
        hi: eight(list, SEED + 8),
    }
}

fn answers(list: &[u8]) -> [Said; 5] {
    [
        Said::stored(list, ANSWERS),
        Said::stored(list, ANSWERS + 2),
        Said::stored(list, ANSWERS + 4),
        Said::stored(list, ANSWERS + 6),
        Said::stored(list, ANSWERS + 8),
    ]
}

// The first case of the list and the list behind it; none where the list is at its end. Where the list is cut short the record is too, and the library
// refuses it.
pub fn first_case(list: &[u8]) -> Option<(Case<'_>, &[u8])>
    ensures { IfSome result (λ found. length found.1.now < length list.now) }
{
    if list.is_empty() {
        return None;
    }
    let behind = tail(list, RECORD);
    let length = usize::from(number(list, 0)).min(behind.len());
    let (record, rest) = behind.split_at(length);
    let case = Case {
        record,
        seed: seed(list),
        answers: answers(list),
    };
    Some((case, rest))
}
