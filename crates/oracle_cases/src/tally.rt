// What was met: how often each rule was answered to each question, and how far the replay is.
use crate::question::{QUESTIONS, Question};
use crate::stored::{Case, Said};
use std::io;
use std::io::Write;

// How often each rule was answered to a question. No rule is above 63: one that were would not be counted, and be missed in what is printed.
type Counts = [u64; 64];

fn count(counts: &mut Counts, rule: u8) {
    if let Some(times) = counts.get_mut(usize::from(rule)) {
        *times = times.wrapping_add(1);
    }
}

// So many cases so far, the answers that differed, and the cases that had such an answer.
#[derive(Drop)]
pub struct Tally {
    counts: [Counts; 5],
    cases: u64,
    told: u64,
    differ: u64,
}

impl Tally {
    pub fn new() -> Tally {
        Tally {
            counts: [[0; 64]; 5],
            cases: 0,
            told: 0,
            differ: 0,
        }
    }

    // Holds the library's answer to the stored one.
    fn hold<W: Write>(
        &mut self,
        out: &mut W,
        question: Question,
        expected: Said,
        answer: Said,
    ) -> io::Result<()> {
        if expected == answer {
            return Ok(());
        }
        if self.told < 10 {
            let case = self.cases;
            writeln!(
                out,
                "case {case}, {question}: the Rust has rule and name {expected}, the library {answer}"
            )?;
        }
        self.told = self.told.wrapping_add(1);
        Ok(())
    }

    // Asks all that is stored of a case.
    pub fn replay<W: Write>(&mut self, out: &mut W, case: Case<'_>) -> io::Result<()> {
        let told = self.told;
        self.cases = self.cases.wrapping_add(1);
        for (k, (question, expected)) in QUESTIONS.into_iter().zip(case.answers).enumerate() {
            let answer = question.ask(case);
            if let Some(counts) = self.counts.get_mut(k) {
                count(counts, answer.rule);
            }
            self.hold(out, question, expected, answer)?;
        }
        if self.told != told {
            self.differ = self.differ.wrapping_add(1);
        }
        Ok(())
    }

    // A line for each question, with each rule that was answered and how often, and one for all cases.
    pub fn print<W: Write>(&self, out: &mut W) -> io::Result<()> {
        for (question, counts) in QUESTIONS.iter().zip(&self.counts) {
            print_counts(out, *question, counts)?;
        }
        let cases = self.cases;
        let differ = self.differ;
        writeln!(out, "{cases} cases replayed, {differ} differ")
    }
}

fn print_counts<W: Write>(out: &mut W, question: Question, counts: &Counts) -> io::Result<()> {
    write!(out, "{question}")?;
    let met = counts.iter().enumerate().filter(|(_, times)| **times != 0);
    for (k, (rule, times)) in met.enumerate() {
        let before = if k == 0 { ":" } else { "," };
        write!(out, "{before} {rule} {times}")?;
    }
    writeln!(out)
}
