// What is known of a node: the facts that walks ask of it again and again, and the parts that they follow from.
#![tactic(auto)]

ghost use Rattle.std.specs.Prelude.{◌≡◌, ◌<◌, ◌/◌, ◌%◌, eqb, bit_or, bit_and};

use names::Names;
use paper::NodeNo;
use std::ops::{BitAnd, BitOr};

// What holds of a node besides its names. The marks are the bits of one word, so that those of two parts are joined at once: six bools took 2 to 10 percent
// longer over a list.
#[derive(Clone, Copy, PartialEq, Eq, Debug, Default)]
pub struct Marks(pub u64);

impl Marks {
    pub const NONE: Marks = Marks(0);

    pub const SIGIL: Marks = Marks(1);

    pub const HARD: Marks = Marks(2);

    pub const BROKEN: Marks = Marks(4);

    pub const BINDS: Marks = Marks(8);

    pub const UNCLOSED: Marks = Marks(16);

    pub const COMPUTED: Marks = Marks(32);

    // Whether it has a mark: of one mark alone.
    pub fn has(self, mark: Marks) -> bool
        requires { 0 < mark.0 }
        ensures { result ≡ eqb (self.0 / mark.0 % 2) 1 }
    {
        self.0 / mark.0 % 2 == 1
    }
}

impl BitOr for Marks {
    type Output = Marks;

    ghost bitor_gives = { λ a b r. r.0 ≡ bit_or a.0 b.0 };

    fn bitor(self, other: Marks) -> Marks {
        Marks(self.0 | other.0)
    }
}

impl BitAnd for Marks {
    type Output = Marks;

    ghost bitand_gives = { λ a b r. r.0 ≡ bit_and a.0 b.0 };

    fn bitand(self, other: Marks) -> Marks {
        Marks(self.0 & other.0)
    }
}

#[derive(Clone, Copy, Default)]
pub struct Facts {
    pub free: Names,
    pub restricted: Names,
    pub need: Names,
    pub marks: Marks,
}

// The nodes that a node's facts follow from: conditions and terms, and lists of terms.
#[derive(Clone, Copy)]
pub enum Parts {
    Leaf,
    One(NodeNo),
    Two(NodeNo, NodeNo),
    List(NodeNo),
    Then(NodeNo, NodeNo),
}
