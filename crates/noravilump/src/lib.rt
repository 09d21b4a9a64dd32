// The C face: the questions, the list and the name lookup for a program in another language, in document 01's numbers. include/noravilump.h says the same in C.
#![tactic(auto)]

ghost use Rattle.std.specs.Prelude.{◌≡◌, length, take, drop};
ghost use Rattle.paper.specs.Questions.{answer_numbers, arithmetic_numbers, listing_numbers, scoping, closedness, demands, arithmetic, list, list_buffer, name, name_stretch};
ghost use Rattle.names.specs.Words.{mem};
ghost use Rattle.numbers.specs.Numbers.{asked};
ghost use Rattle.noravilump.specs.Stretched.{stretch};

use names::Names;
use numbers::{Asked, answered, listed, yes_or_no};
use paper::NameNo;

// Where a name begins in the record, and how many bytes it has.
#[repr(C)]
#[derive(Clone, Copy)]
pub struct Stretch {
    pub at: usize,
    pub len: usize,
}

#[unsafe(no_mangle)]
pub extern "C" fn noravilump_scoping(bytes: &[u8], low: u64, high: u64) -> Asked
    ensures { result ≡ asked (answer_numbers (scoping bytes.now (mem (record { lo = low; hi = high })))) }
{
    let seed = Names { lo: low, hi: high };
    let a = questions::scoping(bytes, seed);
    answered(a)
}

#[unsafe(no_mangle)]
pub extern "C" fn noravilump_closedness(bytes: &[u8]) -> Asked
    ensures { result ≡ asked (answer_numbers (closedness bytes.now)) }
{
    let a = questions::closedness(bytes);
    answered(a)
}

#[unsafe(no_mangle)]
pub extern "C" fn noravilump_demands(bytes: &[u8]) -> Asked
    ensures { result ≡ asked (answer_numbers (demands bytes.now)) }
{
    let a = questions::demands(bytes);
    answered(a)
}

#[unsafe(no_mangle)]
pub extern "C" fn noravilump_arithmetic(bytes: &[u8]) -> Asked
    ensures { result ≡ asked (arithmetic_numbers (arithmetic bytes.now)) }
{
    let a = questions::arithmetic(bytes);
    yes_or_no(a)
}

#[unsafe(no_mangle)]
pub extern "C" fn noravilump_list(bytes: &[u8], entries: &mut [u32]) -> Asked
    ensures { (result ≡ asked (listing_numbers (list bytes.now (length entries.old)))) × (entries.new ≡ list_buffer bytes.now entries.old) }
{
    let l = questions::list(bytes, entries);
    listed(l)
}

// A name's length tells a known number from an unknown one: no name is empty.
#[unsafe(no_mangle)]
pub extern "C" fn noravilump_name(bytes: &[u8], number: u8) -> Stretch
    ensures { (result ≡ stretch (name_stretch bytes.now number)) × (take result.len (drop result.at bytes.now) ≡ name bytes.now number) }
{
    let found = record::access::name(bytes, NameNo(number));
    let len = found.len();
    if len == 0 {
        return Stretch { at: 0, len: 0 };
    }
    Stretch {
        at: 3 + 25 * usize::from(number),
        len: len,
    }
}
