// Words of marks, where they are not one operation on those of the parts.
#![tactic(auto)]

ghost use Rattle.std.specs.Prelude.{◌≡◌, true, false, not, ◌||◌, ◌&&◌};
ghost use Rattle.paper.specs.Record.{pick};
ghost use Rattle.names.specs.Words.{bit};
ghost use Rattle.known.specs.Rows.{Marked};

use known::Marks;

// A mark, where it is one.
pub fn mark(yes: bool, one: Marks) -> Marks
    ensures { result.0 ≡ pick yes one.0 0 }
{
    if yes { one } else { Marks::NONE }
}

// Under a binder: whether its name is met in the body, and tied there.
pub fn bound_marks(marks: Marks, met: bool, tied: bool) -> Marks
    ensures { Marked result.0 (bit marks.0 0) (bit marks.0 1 || not met) (bit marks.0 2 || (not (bit marks.0 0) && not tied)) true (bit marks.0 4) (bit marks.0 5) }
{
    let sigil = marks.has(Marks::SIGIL);
    let hard = mark(!met, Marks::HARD);
    let broken = mark(!sigil & !tied, Marks::BROKEN);
    ((marks | Marks::BINDS) | hard) | broken
}

// Of what is searched and not entered.
pub fn searched_marks(marks: Marks) -> Marks
    ensures { Marked result.0 (bit marks.0 0) false (bit marks.0 5) false false (bit marks.0 5) }
{
    let computed = marks.has(Marks::COMPUTED);
    let broken = mark(computed, Marks::BROKEN);
    (marks & (Marks::SIGIL | Marks::COMPUTED)) | broken
}

// The marks of an aggregate: whether its binders are met and it is skipped, whether one of them or the summed name is wrong, and whether it is closed.
pub fn gathered_marks(marks: Marks, met: bool, skipped: bool, wrong: bool, closed: bool) -> Marks
    ensures { Marked result.0 (bit marks.0 0) (bit marks.0 1 || not met) (not skipped && (bit marks.0 2 || wrong)) (not skipped) (not skipped && (bit marks.0 4 || not closed)) true }
{
    let hard = mark(!met, Marks::HARD);
    let kept = marks & (Marks::SIGIL | Marks::HARD);
    let base = (kept | Marks::COMPUTED) | hard;
    if skipped {
        return base;
    }
    let broken = mark(wrong, Marks::BROKEN);
    let unclosed = mark(!closed, Marks::UNCLOSED);
    let entered = marks & (Marks::BROKEN | Marks::UNCLOSED);
    (((base | entered) | Marks::BINDS) | broken) | unclosed
}
