// Entries into a lent buffer, as far as it has room.
#![tactic(auto)]

ghost use Rattle.std.specs.Prelude.{◌≡◌, [], ◌∷◌, ◌<◌};
ghost use Rattle.paper.specs.TheList.{subject_of, name_or_255, pack as packs, unpack as unpacks};
ghost use Rattle.paper.specs.Places.{for_names, findings};
ghost use Rattle.names.specs.Words.{mem};
ghost use Rattle.writes.specs.Written.{first_of};

use names::Names;
use paper::{Finding, NameNo, NodeNo};

// A name as document 01's number: 255 is none.
pub fn name_or_255(name: Option<NameNo>) -> u8
    ensures { result ≡ name_or_255 name }
{
    match name {
        Some(x) => x.0,
        None => 255,
    }
}

// An entry as document 01's number.
fn pack(f: Finding) -> u32
    ensures { result ≡ packs f }
{
    let name = name_or_255(f.name);
    (f.rule as u32) * 16777216 + (f.node.0 as u32) * 256 + (name as u32)
}

fn subject_of(x: u8) -> Option<NameNo>
    ensures { result ≡ subject_of x }
{
    if x == 255 {
        return None;
    }
    Some(NameNo(x))
}

// The entry that a number stands for.
pub fn unpack(v: u32) -> Finding
    ensures { result ≡ unpacks v }
{
    let name = subject_of((v % 256) as u8);
    Finding {
        rule: (v / 16777216) as u8,
        node: NodeNo((v / 256 % 65536) as u16),
        name: name,
    }
}

// Entries in a lent buffer, as far as it has room, and how many they are: the count goes on past the room.
#[derive(Drop)]
pub struct Entries<'a> {
    pub out: &'a mut [u32],
    pub count: usize,
}

impl Entries<'_> {
    ghost use Rattle.writes.specs.Walked.{HasRoom, Added};

    // One entry, if there is room for it; the count goes on either way.
    pub fn put(&mut self, f: Finding)
        requires { HasRoom (f ∷ []) self.old }
        ensures { Added (f ∷ []) self.old self.new }
    {
        if self.count < self.out.len() {
            self.out[self.count] = pack(f);
        }
        self.count += 1;
    }

    // The entries of a rule at a node for each name of a set, ascending.
    pub fn emit(&mut self, rule: u8, node: NodeNo, s: Names)
        requires { HasRoom (findings (for_names rule node (mem s))) self.old }
        ensures { Added (findings (for_names rule node (mem s))) self.old self.new }
    {
        for x in s {
            let name = Some(x);
            self.put(Finding { rule, node, name });
        }
    }
}

// The first entry that a check found, if it found one, from the count of its entries and the first of their numbers.
pub fn first(count: usize, v: u32) -> Option<Finding>
    ensures { result ≡ first_of count v }
{
    if count == 0 {
        return None;
    }
    Some(unpack(v))
}
