// Whether arithmetic is an operand of a comparison.
ghost use Rattle.std.specs.Prelude.{◌≡◌};
ghost use Rattle.paper.specs.Demands.{has_arith, operand_arith};
ghost use Rattle.record.specs.Stored.{Has};
ghost use Rattle.trees.specs.Trees.{condition_of, term_of};

use paper::NodeNo;
use views::{Below, Operand, below_at, operand_at};

#[cycle(condition_has_arith_term_has_arith)]
pub fn condition_has_arith(columns: &[u64; 513], i: NodeNo) -> bool
    requires { Has columns.now i.0 }
    ensures { result ≡ has_arith (condition_of columns.now i.0) }
{
    match below_at(columns, i) {
        Below::Nothing => false,
        Below::Condition(b) => condition_has_arith(columns, b),
        Below::Conditions(l, r) => {
            condition_has_arith(columns, l) || condition_has_arith(columns, r)
        }
        Below::Operands(l, r) => { term_has_arith(columns, l) || term_has_arith(columns, r) }
    }
}

// Of an operand: arithmetic itself, or an aggregate whose body has it.
#[cycle(condition_has_arith_term_has_arith)]
pub fn term_has_arith(columns: &[u64; 513], i: NodeNo) -> bool
    requires { Has columns.now i.0 }
    ensures { result ≡ operand_arith (term_of columns.now i.0) }
{
    match operand_at(columns, i) {
        Operand::Arith(_, _) => true,
        Operand::Aggregate(_, body) => condition_has_arith(columns, body),
        _ => false,
    }
}
