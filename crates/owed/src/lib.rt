// What a condition itself owes: its entries of 30 to 32, and what is tied and asked at the places below it.
#![tactic(auto)]

ghost use Rattle.std.specs.Prelude.{◌≡◌, []};
ghost use Rattle.paper.specs.Record.{pick};
ghost use Rattle.paper.specs.Sets.{◌∖◌};
ghost use Rattle.paper.specs.Places.{for_names, findings};
ghost use Rattle.names.specs.Words.{mem};
ghost use Rattle.record.specs.Stored.{Has};
ghost use Rattle.known.specs.Rows.{Noted};
ghost use Rattle.trees.specs.Trees.{condition_of};
ghost use Rattle.writes.specs.Walked.{HasRoom, Added};
ghost use Rattle.owed.specs.Demanded.{place_below, FirstAsked, owed, owed_compared, owed_equated};

use names::Names;
use paper::{Equality, NodeNo};
use rows::read::NotedNodes;
use slots::slot_name;
use vars::eq_restricted_var;
use views::{Owing, owing_at};
use writes::Entries;

// A rule's entry at a node for each name that must be tied and is not.
fn reject_unmet_var(n: NodeNo, rule: u8, needs: Names, tied: Names, entries: &mut Entries)
    requires { HasRoom (findings (for_names rule n (mem needs ∖ mem tied))) entries.old }
    ensures { Added (findings (for_names rule n (mem needs ∖ mem tied))) entries.old entries.new }
{
    let unmet = needs - tied;
    entries.emit(rule, n, unmet);
}

// The entries of a comparison that ties nothing: 31 for the free names of both sides.
fn reject_unmet_sides(n: NodeNo, left: Names, right: Names, tied: Names, entries: &mut Entries)
    requires { HasRoom (owed_compared n (mem left) (mem right) (mem tied)) entries.old }
    ensures { Added (owed_compared n (mem left) (mem right) (mem tied)) entries.old entries.new }
{
    let both = left | right;
    reject_unmet_var(n, 31, both, tied, entries);
}

// The entries of an equality itself, from the free names of its sides: 30 for the value that ties a variable.
fn check_equality_demands(
    n: NodeNo,
    side: Equality,
    left: Names,
    right: Names,
    tied: Names,
    entries: &mut Entries,
)
    requires { HasRoom (owed_equated n side (mem left) (mem right) (mem tied)) entries.old }
    ensures { Added (owed_equated n side (mem left) (mem right) (mem tied)) entries.old entries.new }
{
    match side {
        Equality::Left(_) => reject_unmet_var(n, 30, right, tied, entries),
        Equality::Right(_) => reject_unmet_var(n, 30, left, tied, entries),
        Equality::Nothing(_) => reject_unmet_sides(n, left, right, tied, entries),
    }
}

// The entries of a condition itself: 30 to 32 for the names that are not tied.
fn check_conjunct_demands(nodes: &NotedNodes, i: NodeNo, tied: Names, entries: &mut Entries)
    requires has { Has nodes.now.columns.now i.0 }
    requires room { HasRoom (owed (condition_of nodes.now.columns.now i.0) (mem tied)) entries.old }
    ensures { Added (owed (condition_of nodes.now.columns.now i.0) (mem tied)) entries.old entries.new }
{
    match owing_at(nodes.columns, i) {
        Owing::Comparison(op, l, r) => {
            if op == 0 {
                let side = eq_restricted_var(nodes.columns, l, r);
                // After the equality is asked, and so once more below: names that are live over that call take stack at each level of the walk.
                let left = nodes.collect_term_var(l);
                let right = nodes.collect_term_var(r);
                check_equality_demands(i, side, left, right, tied, entries);
            } else {
                let left = nodes.collect_term_var(l);
                let right = nodes.collect_term_var(r);
                reject_unmet_sides(i, left, right, tied, entries);
            }
        }
        Owing::Not(b) => {
            let needs = nodes.collect_free(b);
            reject_unmet_var(i, 31, needs, tied, entries);
        }
        Owing::Since(l, r) => {
            let needs = nodes.collect_free(l);
            let anchored = nodes.collect_range_restricted(r);
            let known = tied | anchored;
            reject_unmet_var(i, 32, needs, known, entries);
        }
        _ => {}
    }
}

// The same, if the condition is asked.
pub fn check_own_demands(
    nodes: &NotedNodes,
    i: NodeNo,
    tied: Names,
    asked: bool,
    entries: &mut Entries,
)
    requires has { Has nodes.now.columns.now i.0 }
    requires room { HasRoom (pick asked (owed (condition_of nodes.now.columns.now i.0) (mem tied)) []) entries.old }
    ensures { Added (pick asked (owed (condition_of nodes.now.columns.now i.0) (mem tied)) []) entries.old entries.new }
{
    if asked {
        check_conjunct_demands(nodes, i, tied, entries);
    }
}

// What is tied at the first part of a condition: on the left of Since also what the right restricts, below a binder not its name.
pub fn tied_first(nodes: &NotedNodes, i: NodeNo, tied: Names) -> Names
    requires { Has nodes.now.columns.now i.0 }
    ensures { mem result ≡ (place_below 0 (condition_of nodes.now.columns.now i.0) (mem tied)).names }
{
    match owing_at(nodes.columns, i) {
        Owing::Since(_, r) => {
            let given = nodes.collect_range_restricted(r);
            tied | given
        }
        Owing::Exists(slot) => {
            let own = slot_name(slot);
            tied - own
        }
        _ => tied,
    }
}

// What is tied at the second part: on the right of And also what the left restricts.
pub fn tied_second(nodes: &NotedNodes, i: NodeNo, tied: Names) -> Names
    requires { Has nodes.now.columns.now i.0 }
    ensures { mem result ≡ (place_below 1 (condition_of nodes.now.columns.now i.0) (mem tied)).names }
{
    match owing_at(nodes.columns, i) {
        Owing::And(l) => {
            let given = nodes.collect_range_restricted(l);
            tied | given
        }
        _ => tied,
    }
}

// Whether the first part of a condition is asked, which its kind says: not below Not, and not the base of a refinement.
pub fn asked_first(columns: &[u64; 513], i: NodeNo) -> bool
    requires { Has columns.now i.0 }
    ensures { FirstAsked (condition_of columns.now i.0) result }
{
    match owing_at(columns, i) {
        Owing::Not(_) | Owing::Refine => false,
        _ => true,
    }
}
