// A new node: the fields of its record, and its depth. A field reader is handed the part of the record after its kind byte.
#![tactic(auto)]

ghost use Rattle.std.specs.Prelude.{◌≡◌, ◌<◌, get_or};
ghost use Rattle.memory.specs.Fields.{marked, sort_of, refer_in, refer_if, out_of_range, checked_in, Added};

use kinds::fits;
use memory::{Fault, Row};
use octets::{byte, number};
use paper::NodeNo;

// The nodes read so far, by their numbers: the kind and the depth of each, and a mark where one is referred to.
#[derive(Drop)]
pub struct Nodes {
    pub kinds: [u8; 512],
    pub depths: [u8; 512],
    pub used: [u8; 512],
}

impl Nodes {
    // A reference to node k from node own. The answer is the depth of the deepest child so far.
    fn refer(&mut self, k: NodeNo, sort: u8, own: usize, deep: u8) -> Result<u8, Fault>
        requires { own < 512 }
        ensures found { marked result self.new.used ≡ refer_in self.old.kinds self.old.depths (sort_of sort) k.0 own deep self.old.used }
        ensures kept { (self.new.kinds ≡ self.old.kinds) × (self.new.depths ≡ self.old.depths) }
    {
        let i = usize::from(k.0);
        if own <= i {
            return Err(Fault::NotBelow);
        }
        if !fits(sort, self.kinds[i]) {
            return Err(Fault::WrongSort);
        }
        if self.used[i] != 0 {
            return Err(Fault::ReferredTwice);
        }
        self.used[i] = 1;
        Ok(deep.max(self.depths[i]))
    }

    // A row's reference, if it has one.
    fn refer_at(&mut self, b: &[u8], sort: u8, at: u8, own: usize, deep: u8) -> Result<u8, Fault>
        requires { own < 512 }
        ensures found { marked result self.new.used ≡ refer_if self.old.kinds self.old.depths b.now sort at own deep self.old.used }
        ensures kept { (self.new.kinds ≡ self.old.kinds) × (self.new.depths ≡ self.old.depths) }
    {
        if sort == 0 {
            return Ok(deep);
        }
        self.refer(NodeNo(number(b, usize::from(at))), sort, own, deep)
    }

    // The fields of a record in order, and then its depth.
    fn check(&mut self, b: &[u8], row: Row, names: usize, own: usize) -> Result<u8, Fault>
        requires { own < 512 }
        ensures found { marked result self.new.used ≡ checked_in self.old.kinds self.old.depths b.now row names own self.old.used }
        ensures kept { (self.new.kinds ≡ self.old.kinds) × (self.new.depths ≡ self.old.depths) }
    {
        if first_bad(b, row.range, names) {
            return Err(Fault::OutOfRange);
        }
        let one = self.refer_at(b, row.sort1, row.at1, own, 0)?;
        let deep = self.refer_at(b, row.sort2, row.at2, own, one)?;
        if 64 <= deep {
            return Err(Fault::TooDeep);
        }
        Ok(deep)
    }

    // A new node by its record: without a fault its kind and its depth are put down, for the nodes that refer to it.
    pub fn add(
        &mut self,
        b: &[u8],
        kind: u8,
        row: Row,
        names: usize,
        own: usize,
    ) -> Result<(), Fault>
        requires { own < 512 }
        ensures { Added (checked_in self.old.kinds self.old.depths b.now row names own self.old.used) kind own self.old.kinds self.old.depths result self.new.kinds self.new.depths self.new.used }
    {
        let deep = self.check(b, row, names, own)?;
        self.kinds[own] = kind;
        self.depths[own] = deep + 1;
        Ok(())
    }
}

// Whether the first field is out of range: a name's number, an op of a comparison, an op of arithmetic or a slot, by the row's number for it.
fn range_bad(range: u8, x: u8, y: u8, names: usize) -> bool
    ensures { result ≡ out_of_range range x y names }
{
    ((range == 1) & (names <= usize::from(x)))
        | (((range == 2) & (5 < x))
            | (((range == 3) & (2 < x))
                | ((range == 4) & ((2 < x) | ((x == 0) & (names <= usize::from(y)))))))
}

// The same of a record's first bytes. Most records have no such field: of those no byte is read.
fn first_bad(b: &[u8], range: u8, names: usize) -> bool
    ensures { result ≡ out_of_range range (get_or b.now 0 0) (get_or b.now 1 0) names }
{
    if range == 0 {
        return false;
    }
    range_bad(range, byte(b, 0), byte(b, 1), names)
}
