// An answer in document 01's numbers.
#![tactic(auto)]

ghost use Rattle.std.specs.Prelude.{◌≡◌, ◌<◌};
ghost use Rattle.paper.specs.Questions.{answer_numbers, arithmetic_numbers, listing_numbers};
ghost use Rattle.numbers.specs.Numbers.{asked};

use paper::{Finding, Refusal, Unlisted};
use writes::name_or_255;

// Document 01's numbers for an answer: a number, a place and a name.
#[repr(C)]
#[derive(Clone, Copy)]
pub struct Asked {
    pub number: u32,
    pub place: u32,
    pub name: u32,
}

fn told(number: u8, place: usize, name: u8) -> Asked
    requires { place < 4294967296 }
    ensures { result ≡ record { number = number; place = place; name = name } }
{
    Asked {
        number: number as u32,
        place: place as u32,
        name: name as u32,
    }
}

// The reader's refusal is told alike by every question.
fn refused(refusal: Refusal) -> Asked
    requires { refusal.offset < 4294967296 }
    ensures { result ≡ record { number = refusal.number; place = refusal.offset; name = 255 } }
{
    told(refusal.number, refusal.offset, 255)
}

#[tactic(auto, unfolding(paper::specs::Questions::answer_numbers))]
pub fn answered(answer: Result<Option<Finding>, Refusal>) -> Asked
    requires { (answer_numbers answer).place < 4294967296 }
    ensures { result ≡ asked (answer_numbers answer) }
{
    match answer {
        Ok(None) => told(0, 0, 255),
        Ok(Some(f)) => told(f.rule, usize::from(f.node.0), name_or_255(f.name)),
        Err(refusal) => refused(refusal),
    }
}

#[tactic(auto, unfolding(paper::specs::Questions::arithmetic_numbers))]
pub fn yes_or_no(answer: Result<bool, Refusal>) -> Asked
    requires { (arithmetic_numbers answer).place < 4294967296 }
    ensures { result ≡ asked (arithmetic_numbers answer) }
{
    match answer {
        Ok(true) => told(40, 0, 255),
        Ok(false) => told(0, 0, 255),
        Err(refusal) => refused(refusal),
    }
}

#[tactic(auto, unfolding(paper::specs::Questions::listing_numbers))]
pub fn listed(answer: Result<usize, Unlisted>) -> Asked
    requires { (listing_numbers answer).place < 4294967296 }
    ensures { result ≡ asked (listing_numbers answer) }
{
    match answer {
        Ok(count) => told(0, count, 255),
        Err(Unlisted::NoRoom { needed }) => told(50, needed, 255),
        Err(Unlisted::Refused(refusal)) => refused(refusal),
    }
}
