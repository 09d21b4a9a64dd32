// The five questions, asked of a stored case.
use crate::stored::{Case, Said};
use names::Names;
use questions::{arithmetic, closedness, demands, scoping};
use std::fmt;

#[derive(Clone, Copy)]
pub enum Question {
    Scoping,
    ScopingWithSeed,
    Closedness,
    Demands,
    Arithmetic,
}

// In the order of their answers in a case.
pub const QUESTIONS: [Question; 5] = [
    Question::Scoping,
    Question::ScopingWithSeed,
    Question::Closedness,
    Question::Demands,
    Question::Arithmetic,
];

impl Question {
    pub fn ask(self, case: Case<'_>) -> Said {
        match self {
            Question::Scoping => Said::from(scoping(case.record, Names::empty())),
            Question::ScopingWithSeed => Said::from(scoping(case.record, case.seed)),
            Question::Closedness => Said::from(closedness(case.record)),
            Question::Demands => Said::from(demands(case.record)),
            Question::Arithmetic => Said::from(arithmetic(case.record)),
        }
    }
}

impl fmt::Display for Question {
    fn fmt<W: fmt::Write>(&self, f: &mut fmt::Formatter<W>) -> fmt::Result {
        f.write_str(match self {
            Question::Scoping => "scoping",
            Question::ScopingWithSeed => "scoping with a seed",
            Question::Closedness => "closedness",
            Question::Demands => "demands",
            Question::Arithmetic => "arithmetic",
        })
    }
}
