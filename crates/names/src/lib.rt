// Sets of names, 128 of them in two words by value.
#![tactic(auto)]

ghost use Rattle.std.specs.Prelude.{◌≡◌, ◌<◌, IfSome, IfNone};
ghost use Rattle.std.specs.Iterator.{YieldsFirst, item_count};
ghost use Rattle.paper.specs.Sets.{none, only, ◌∪◌, ◌∩◌, ◌∖◌, outside, all_below};
ghost use Rattle.names.specs.Words.{bit, mem};
ghost use Rattle.names.specs.Least.{least as least_of};
ghost use Rattle.names.specs.Apart.{Apart};
ghost use Rattle.names.specs.Ascending.{ascending};

use paper::NameNo;
use std::ops::{BitAnd, BitOr, Sub};

// Bit k of lo is name k, bit k of hi is name 64 + k.
#[derive(Clone, Copy, PartialEq, Eq, Debug, Default)]
pub struct Names {
    pub lo: u64,
    pub hi: u64,
}

// The union.
impl BitOr for Names {
    type Output = Names;

    ghost bitor_gives = { λ a b r. mem r ≡ mem a ∪ mem b };

    fn bitor(self, other: Names) -> Names {
        Names {
            lo: self.lo | other.lo,
            hi: self.hi | other.hi,
        }
    }
}

// What is in both.
impl BitAnd for Names {
    type Output = Names;

    ghost bitand_gives = { λ a b r. mem r ≡ mem a ∩ mem b };

    fn bitand(self, other: Names) -> Names {
        Names {
            lo: self.lo & other.lo,
            hi: self.hi & other.hi,
        }
    }
}

// What is in the first alone.
impl Sub for Names {
    type Output = Names;

    ghost sub_gives = { λ a b r. mem r ≡ mem a ∖ mem b };

    fn sub(self, other: Names) -> Names {
        Names {
            lo: self.lo ^ (self.lo & other.lo),
            hi: self.hi ^ (self.hi & other.hi),
        }
    }
}

impl Names {
    pub fn empty() -> Names
        ensures { mem result ≡ none }
    {
        Names { lo: 0, hi: 0 }
    }

    pub fn single(n: NameNo) -> Names
        requires { n.0 < 128 }
        ensures { mem result ≡ only n.0 }
    {
        let k = n.0;
        if k < 64 {
            Names {
                lo: 1u64 << k,
                hi: 0,
            }
        } else {
            Names {
                lo: 0,
                hi: 1u64 << (k - 64),
            }
        }
    }

    pub fn contains(self, n: NameNo) -> bool
        ensures { result ≡ mem self n.0 }
    {
        let k = n.0;
        if k < 64 {
            return (self.lo >> k) & 1 == 1;
        }
        if k < 128 {
            return (self.hi >> (k - 64)) & 1 == 1;
        }
        false
    }

    pub fn is_empty(self) -> bool
        ensures { result ≡ all_below 128 (outside (mem self)) }
    {
        (self.lo == 0) & (self.hi == 0)
    }

    // Whether no name is in both.
    pub fn is_disjoint(self, other: Names) -> bool
        ensures { Apart result (mem self) (mem other) }
    {
        let shared = self & other;
        shared.is_empty()
    }

    // Whether every name of this set is in the other.
    pub fn is_subset(self, other: Names) -> bool
        ensures { Apart result (mem self) (outside (mem other)) }
    {
        let left = self - other;
        left.is_empty()
    }

    // The least name, if there is one.
    pub fn first(self) -> Option<NameNo>
        ensures some { IfSome result (λ x. (x.0 < 128) × (x.0 ≡ least_of (mem self) 128)) }
        ensures none { IfNone result (least_of (mem self) 128 ≡ 128) }
    {
        if self.lo != 0 {
            return Some(NameNo(lowest(self.lo) as u8));
        }
        if self.hi != 0 {
            return Some(NameNo((64 + lowest(self.hi)) as u8));
        }
        None
    }

    // The set without one name.
    pub fn without(self, n: NameNo) -> Names
        requires { n.0 < 128 }
        ensures { mem result ≡ mem self ∖ only n.0 }
    {
        let k = n.0;
        if k < 64 {
            return Names {
                lo: self.lo ^ (self.lo & (1u64 << k)),
                hi: self.hi,
            };
        }
        Names {
            lo: self.lo,
            hi: self.hi ^ (self.hi & (1u64 << (k - 64))),
        }
    }
}

// The place of the lowest bit of a word, and 64 where it has none.
fn lowest(word: u64) -> u32
    ensures { result ≡ least_of (bit word) 64 }
{
    u64::trailing_zeros(word)
}

// The names of a set, ascending.
#[derive(Drop)]
pub struct Ascending {
    left: Names,
}

impl IntoIterator for Names {
    type Item = NameNo;

    type IntoIter = Ascending;

    ghost into_iter_gives = { λ s it. it.left ≡ s };

    fn into_iter(self) -> Ascending {
        Ascending { left: self }
    }
}

impl Iterator for Ascending {
    type Item = NameNo;

    ghost next_gives = { YieldsFirst (λ it. ascending (mem it.left)) };

    ghost remaining = { item_count (λ it. ascending (mem it.left)) };

    fn next(&mut self) -> Option<NameNo> {
        let x = self.left.first()?;
        self.left = self.left.without(x);
        Some(x)
    }
}
