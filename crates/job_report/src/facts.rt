ghost use Rattle.std.specs.Prelude.{◌≡◌};
ghost use Rattle.job_report.specs.Answers.{is_answer_to};

use edit_plan::Ask;
use job_counts::{Answer, Counts, Totals};
use std::marker::Model;

/// Whether an answer is of its question's kind: a point's state to a probe, totals to a count.
fn is_answer_to(ask: &Ask, answer: &Answer) -> bool
    ensures { result ≡ is_answer_to ask.now answer.now }
{
    match ask {
        Ask::Probe { .. } => matches!(answer, Answer::Probe(_)),
        Ask::Count => matches!(answer, Answer::Count(_)),
    }
}

/// What was found of a move that is left: its number from 1, the line of its record, whether it is rapid, and its counts.
#[derive(Clone, Copy)]
pub struct Found {
    pub number: u32,
    pub line: u32,
    pub rapid: bool,
    pub counts: Counts,
}

/// What is reported of a job. Contracts see it as one value, its lists by their items.
#[derive(Drop)]
pub struct Facts {
    /// How many moves the program has, and how many records were passed over.
    pub moves: u32,
    pub passed: u32,
    /// The moves that are left at the last version, in order.
    pub left: Vec<Found>,
    /// What the queries asked and the answers, in order.
    pub answers: Vec<(Ask, Answer)>,
    /// The totals at the last version.
    pub totals: Totals,
}

impl Model for Facts {
    ghost use Rattle.job_report.specs.Facts.{JobFacts};

    ghost Value = { JobFacts };

    ghost view = { λ f. record {
      moves = f.moves;
      passed = f.passed;
      left = f.left.items;
      answers = f.answers.items;
      totals = f.totals;
    } };
}

impl Facts {
    ghost use Rattle.job_report.specs.Facts.{are_answered, is_clean};

    /// Whether each move that is left is safe.
    pub fn is_clean(&self) -> bool
        ensures { result ≡ is_clean self.now.left }
    {
        self.left.iter().all(|found| found.counts.is_safe())
    }

    /// Whether each answer is of its question's kind.
    pub fn is_answered(&self) -> bool
        ensures { result ≡ are_answered self.now.answers }
    {
        self.answers
            .iter()
            .all(|answered| is_answer_to(&answered.0, &answered.1))
    }
}
