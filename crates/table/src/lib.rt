// The table of names, as it grows. It is the local array of 24-byte arrays that document 01 asks for, so how many names it has stands beside it.
#![tactic(auto)]

ghost use Rattle.std.specs.Prelude.{◌≡◌, ◌≤◌, ◌<◌, set};
ghost use Rattle.paper.specs.Sets.{◌∪◌};
ghost use Rattle.names.specs.Words.{mem};
ghost use Rattle.memory.specs.Naming.{named_in, reserved_as};

use memory::Fault;
use names::Names;
use paper::NameNo;
use words::{is_name, is_reserved, precedes};

// Whether a new name is one, and above the one before.
fn named(n: [u8; 24], names: &[[u8; 24]; 128], count: usize) -> Result<(), Fault>
    requires { count ≤ 128 }
    ensures { result ≡ named_in n names.now count }
{
    if !is_name(n) {
        return Err(Fault::NotAName);
    }
    if count == 0 {
        return Ok(());
    }
    let last = names[count - 1];
    if precedes(last, n) {
        Ok(())
    } else {
        Err(Fault::NamesNotAscending)
    }
}

// A new name is put into the table in either case, since nothing is read after a fault.
pub fn add_name(n: [u8; 24], names: &mut [[u8; 24]; 128], count: usize) -> Result<(), Fault>
    requires { count < 128 }
    ensures { (result ≡ named_in n names.old count) × (names.new ≡ set names.old count n) }
{
    let named = named(n, names, count);
    names[count] = n;
    named
}

// The reserved names, with the name of number x where it is a reserved word.
pub fn reserved_with(reserved: Names, n: [u8; 24], x: usize) -> Names
    requires { x < 128 }
    ensures { mem result ≡ mem reserved ∪ reserved_as n x }
{
    if is_reserved(n) {
        return reserved | Names::single(NameNo((x % 256) as u8));
    }
    reserved
}
