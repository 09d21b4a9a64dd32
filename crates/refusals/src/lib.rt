// The refusal that every question passes up: the reader's, unchanged. No question passes on counts; since code that cannot be reached fails shut, they would be
// refused.
#![tactic(auto)]

ghost use Rattle.std.specs.Prelude.{◌≡◌};
ghost use Rattle.refusals.specs.Passed.{passed};

use paper::{Counts, Refusal};

pub fn passed(verdict: Result<Counts, Refusal>) -> Refusal
    ensures { result ≡ passed verdict }
{
    match verdict {
        Err(refusal) => refusal,
        Ok(_) => Refusal {
            number: 1,
            offset: 0,
        },
    }
}
