// What slots are: sigils, or names; and the binders of an aggregate, one after the other.
#![tactic(auto)]

ghost use Rattle.std.specs.Prelude.{◌≡◌, get_or};
ghost use Rattle.std.specs.Iterator.{YieldsFirst, item_count};
ghost use Rattle.paper.specs.declared.Node.TheVariants.{ListEnd};
ghost use Rattle.paper.specs.FreeAndRestricted.{named, is_sigil, binder_names};
ghost use Rattle.paper.specs.Scoping.{binder_sigil};
ghost use Rattle.names.specs.Words.{mem};
ghost use Rattle.record.specs.Stored.{held, Has};
ghost use Rattle.trees.specs.Trees.{binders_of};
ghost use Rattle.trees.specs.Terms.{Tabled};
ghost use Rattle.slots.specs.Binders.{binder_of, slots_of};

use names::Names;
use paper::{Node, NodeNo, Slot};
use record::access::node_at;

pub fn is_sigil(slot: Slot) -> bool
    ensures { result ≡ is_sigil slot }
{
    match slot {
        Slot::Name(_) => false,
        _ => true,
    }
}

// The name of a slot, if it is one.
pub fn slot_name(slot: Slot) -> Names
    requires { Tabled slot }
    ensures { mem result ≡ named slot }
{
    match slot {
        Slot::Name(x) => Names::single(x),
        _ => Names::empty(),
    }
}

// The slot of a cell and the rest of its list, if there is a cell.
#[tactic(auto, unfolding(crate::specs::Binders::binder_of))]
pub fn binder_at(columns: &[u64; 513], i: NodeNo) -> Option<(Slot, NodeNo)>
    requires { Has columns.now i.0 }
    ensures { result ≡ binder_of (get_or (held columns.now) i.0 ListEnd) }
{
    match node_at(columns, i) {
        Node::BinderCell(slot, _, rest) => Some((slot, rest)),
        _ => None,
    }
}

// The slots of an aggregate's binders, from a cell of their list on.
#[derive(Drop)]
struct Binders<'a> {
    columns: &'a [u64; 513],
    at: NodeNo,
}

impl<'a> Iterator for Binders<'a> {
    type Item = Slot;

    ghost can_next = { λ b. Has b.columns.now b.at.0 };

    ghost next_gives = { YieldsFirst (λ b. slots_of (binders_of b.columns.now b.at.0)) };

    ghost remaining = { item_count (λ b. slots_of (binders_of b.columns.now b.at.0)) };

    fn next(&mut self) -> Option<Slot> {
        let (slot, rest) = binder_at(self.columns, self.at)?;
        self.at = rest;
        Some(slot)
    }
}

// Whether a binder of an aggregate's list is a sigil.
pub fn has_sigil_binder(columns: &[u64; 513], i: NodeNo) -> bool
    requires { Has columns.now i.0 }
    ensures { result ≡ binder_sigil (binders_of columns.now i.0) }
{
    Binders { columns, at: i }.any(is_sigil)
}

// The named binders of an aggregate's list.
pub fn binder_names(columns: &[u64; 513], i: NodeNo) -> Names
    requires { Has columns.now i.0 }
    ensures { mem result ≡ binder_names (binders_of columns.now i.0) }
{
    let mut own = Names::empty();
    for slot in (Binders { columns, at: i }) {
        let name = slot_name(slot);
        own = own | name;
    }
    own
}
