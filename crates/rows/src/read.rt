// What the walks ask, read from a node's row.
ghost use Rattle.std.specs.Prelude.{◌≡◌, true, ◌<◌, length};
ghost use Rattle.names.specs.Words.{mem};
ghost use Rattle.paper.specs.FreeAndRestricted.{free, term_free, restricted, holds_sigil};
ghost use Rattle.record.specs.Stored.{held};
ghost use Rattle.trees.specs.Trees.{tree_of, condition_of, term_of, is_condition, is_term};
ghost use Rattle.known.specs.Needs.{met, sound};
ghost use Rattle.known.specs.Known.{known_of};
ghost use Rattle.known.specs.Rows.{Noted, has_row};

use crate::row::facts_at;
use known::{Facts, Marks};
use names::Names;
use paper::NodeNo;

// The nodes of a record, and a row for each of what is known of it.
#[derive(Clone, Copy)]
pub struct NotedNodes<'a> {
    pub columns: &'a [u64; 513],
    pub rows: &'a [Facts],
    pub ghost noted: { Noted columns.now rows.now },
}

impl NotedNodes<'_> {
    pub fn collect_free(&self, i: NodeNo) -> Names
        requires { (i.0 < length (held self.now.columns.now)) × (is_condition (tree_of self.now.columns.now i.0) ≡ true) }
        ensures { mem result ≡ free (condition_of self.now.columns.now i.0) }
    {
        let f = facts_at(self.rows, i);
        f.free
    }

    pub fn collect_term_var(&self, i: NodeNo) -> Names
        requires { (i.0 < length (held self.now.columns.now)) × (is_term (tree_of self.now.columns.now i.0) ≡ true) }
        ensures { mem result ≡ term_free (term_of self.now.columns.now i.0) }
    {
        let f = facts_at(self.rows, i);
        f.free
    }

    pub fn collect_range_restricted(&self, i: NodeNo) -> Names
        requires { (i.0 < length (held self.now.columns.now)) × (is_condition (tree_of self.now.columns.now i.0) ≡ true) }
        ensures { mem result ≡ restricted (condition_of self.now.columns.now i.0) }
    {
        let f = facts_at(self.rows, i);
        f.restricted
    }

    pub fn body_has_sigil(&self, i: NodeNo) -> bool
        requires { (i.0 < length (held self.now.columns.now)) × (is_condition (tree_of self.now.columns.now i.0) ≡ true) }
        ensures { result ≡ holds_sigil (condition_of self.now.columns.now i.0) }
    {
        let f = facts_at(self.rows, i);
        f.marks.has(Marks::SIGIL)
    }

    // Whether no demand below is unmet, with these names tied. A walk goes no further then; it may say no where nothing is found.
    pub fn is_met(&self, i: NodeNo, tied: Names) -> bool
        requires { (i.0 < length (held self.now.columns.now)) × (has_row self.now.columns.now i.0 ≡ true) }
        ensures { result ≡ met (known_of (tree_of self.now.columns.now i.0)).need (known_of (tree_of self.now.columns.now i.0)).hard (mem tied) }
    {
        let f = facts_at(self.rows, i);
        let need = f.need;
        let unmet = need - tied;
        !f.marks.has(Marks::HARD) & unmet.is_empty()
    }

    // Whether no rule of scoping is broken below, with these words reserved and these names in scope.
    pub fn is_sound(&self, i: NodeNo, words: Names, scope: Names) -> bool
        requires { (i.0 < length (held self.now.columns.now)) × (has_row self.now.columns.now i.0 ≡ true) }
        ensures { result ≡ sound (known_of (tree_of self.now.columns.now i.0)).broken (known_of (tree_of self.now.columns.now i.0)).binds (known_of (tree_of self.now.columns.now i.0)).unclosed (known_of (tree_of self.now.columns.now i.0)).free (mem words) (mem scope) }
    {
        let f = facts_at(self.rows, i);
        let free = f.free;
        let unknown = free - scope;
        let broken = f.marks.has(Marks::BROKEN);
        let binds = f.marks.has(Marks::BINDS);
        let unclosed = f.marks.has(Marks::UNCLOSED);
        !broken & ((!binds | words.is_empty()) & (!unclosed | unknown.is_empty()))
    }
}
