// How the facts of parts are put together.
#![tactic(auto)]

ghost use Rattle.std.specs.Prelude.{◌≡◌, true, false};
ghost use Rattle.names.specs.Words.{mem};
ghost use Rattle.paper.specs.FreeAndRestricted.{tied_name};
ghost use Rattle.trees.specs.Terms.{Tabled, TabledTied};
ghost use Rattle.known.specs.Needs.{owes};
ghost use Rattle.known.specs.Rows.{meant};
ghost use Rattle.known.specs.Known.{nothing as no_facts, opaque as opaque_facts, naming as named_facts, both as both_facts, join, and_known, or_known, arith_known, since_known, compared as compared_facts, equated as equated_facts, searched as searched_facts, loose as loose_facts, refined as refined_facts, bound as bound_facts};

use known::{Facts, Marks};
use marks::{bound_marks, mark, searched_marks};
use names::Names;
use paper::{Equality, Slot};
use slots::slot_name;

pub fn nothing() -> Facts
    ensures { meant result ≡ no_facts }
{
    let none = Names::empty();
    Facts {
        free: none,
        restricted: none,
        need: none,
        marks: Marks::NONE,
    }
}

// What holds a sigil.
pub fn opaque() -> Facts
    ensures { meant result ≡ opaque_facts false }
{
    let none = Names::empty();
    Facts {
        free: none,
        restricted: none,
        need: none,
        marks: Marks::SIGIL,
    }
}

// An aggregate that holds a sigil, and is computed: both marks.
pub fn opaque_aggregate() -> Facts
    ensures { meant result ≡ opaque_facts true }
{
    let none = Names::empty();
    Facts {
        free: none,
        restricted: none,
        need: none,
        marks: Marks::SIGIL | Marks::COMPUTED,
    }
}

// A variable: a name that is free, and that it is.
pub fn naming(own: Names) -> Facts
    ensures { meant result ≡ named_facts (mem own) false false }
{
    let none = Names::empty();
    Facts {
        free: own,
        restricted: own,
        need: none,
        marks: Marks::NONE,
    }
}

// A tp: its name is free and restricted.
pub fn timed(own: Names, sigil: bool) -> Facts
    ensures { meant result ≡ named_facts (mem own) sigil true }
{
    let none = Names::empty();
    let marks = mark(sigil, Marks::SIGIL);
    Facts {
        free: own,
        restricted: own,
        need: none,
        marks: Marks::BINDS | marks,
    }
}

// Both, restricting and needing these names.
fn both(one: Facts, other: Facts, given: Names, needs: Names) -> Facts
    ensures { meant result ≡ both_facts (meant one) (meant other) (mem given) (mem needs) }
{
    let free = one.free | other.free;
    Facts {
        free: free,
        restricted: given,
        need: needs,
        marks: one.marks | other.marks,
    }
}

// The terms of a list, one after the other.
pub fn join_facts(one: Facts, other: Facts) -> Facts
    ensures { meant result ≡ join (meant one) (meant other) }
{
    let given = one.restricted | other.restricted;
    let needs = one.need | other.need;
    both(one, other, given, needs)
}

// And: on its right what its left restricts is tied.
pub fn and_facts(left: Facts, right: Facts) -> Facts
    ensures { meant result ≡ and_known (meant left) (meant right) }
{
    let given = left.restricted | right.restricted;
    let eased = right.need - left.restricted;
    let needs = left.need | eased;
    both(left, right, given, needs)
}

// Or: it restricts nothing.
pub fn or_facts(left: Facts, right: Facts) -> Facts
    ensures { meant result ≡ or_known (meant left) (meant right) }
{
    let given = Names::empty();
    let needs = left.need | right.need;
    both(left, right, given, needs)
}

// Arithmetic, which is computed.
pub fn arith_facts(left: Facts, right: Facts) -> Facts
    ensures { meant result ≡ arith_known (meant left) (meant right) }
{
    let free = left.free | right.free;
    let given = Names::empty();
    let needs = left.need | right.need;
    Facts {
        free: free,
        restricted: given,
        need: needs,
        marks: (left.marks | right.marks) | Marks::COMPUTED,
    }
}

// Since: on its left, which owes all that is free there, what its right restricts is tied.
pub fn since_facts(left: Facts, right: Facts) -> Facts
    ensures { meant result ≡ since_known (meant left) (meant right) }
{
    let owed = left.need | left.free;
    let eased = owed - right.restricted;
    let needs = right.need | eased;
    both(left, right, right.restricted, needs)
}

// The name that an equality ties.
fn tied_var(side: Equality) -> Names
    requires { TabledTied side }
    ensures { mem result ≡ tied_name side }
{
    match side {
        Equality::Left(x) => Names::single(x),
        Equality::Right(x) => Names::single(x),
        Equality::Nothing(_) => Names::empty(),
    }
}

// What an equality owes, from the free names of its sides.
fn owed(side: Equality, left: Names, right: Names) -> Names
    ensures { mem result ≡ owes side (mem left) (mem right) }
{
    match side {
        Equality::Left(_) => right,
        Equality::Right(_) => left,
        Equality::Nothing(_) => left | right,
    }
}

// An equality, by what it ties.
pub fn equated(side: Equality, left: Facts, right: Facts) -> Facts
    requires { TabledTied side }
    ensures { meant result ≡ equated_facts side (meant left) (meant right) }
{
    let given = tied_var(side);
    let own = owed(side, left.free, right.free);
    let below = left.need | right.need;
    let needs = own | below;
    both(left, right, given, needs)
}

// Any other comparison, which restricts nothing and owes all that is free.
pub fn compared(left: Facts, right: Facts) -> Facts
    ensures { meant result ≡ compared_facts (meant left) (meant right) }
{
    let given = Names::empty();
    let all = left.free | right.free;
    let deeper = left.need | right.need;
    let needs = all | deeper;
    both(left, right, given, needs)
}

// What is searched and not entered, restricting these names.
pub fn searched(part: Facts, given: Names) -> Facts
    ensures { meant result ≡ searched_facts (meant part) (mem given) }
{
    let free = part.free;
    let none = Names::empty();
    let marks = searched_marks(part.marks);
    Facts {
        free: free,
        restricted: given,
        need: none,
        marks: marks,
    }
}

// What restricts nothing, and owes all that is free.
pub fn loose(part: Facts) -> Facts
    ensures { meant result ≡ loose_facts (meant part) }
{
    let free = part.free;
    let none = Names::empty();
    let needs = part.need | part.free;
    Facts {
        free: free,
        restricted: none,
        need: needs,
        marks: part.marks,
    }
}

// A condition with fields, which are neither entered nor searched.
pub fn refined(base: Facts, fields: Facts) -> Facts
    ensures { meant result ≡ refined_facts (meant base) (meant fields) }
{
    let free = base.free | fields.free;
    let restricted = base.restricted | fields.restricted;
    let need = base.need;
    Facts {
        free: free,
        restricted: restricted,
        need: need,
        marks: base.marks | (fields.marks & Marks::SIGIL),
    }
}

// Under an exists: its name is taken out. A name that its body needs is hard to meet, and one that its body does not restrict is 23.
pub fn bound(body: Facts, slot: Slot) -> Facts
    requires { Tabled slot }
    ensures { meant result ≡ bound_facts (meant body) slot }
{
    let own = slot_name(slot);
    let free = body.free - own;
    let restricted = body.restricted - own;
    let need = body.need - own;
    let met = own.is_disjoint(body.need);
    let tied = own.is_subset(body.restricted);
    let marks = bound_marks(body.marks, met, tied);
    Facts {
        free: free,
        restricted: restricted,
        need: need,
        marks: marks,
    }
}
