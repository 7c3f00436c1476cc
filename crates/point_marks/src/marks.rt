ghost use Rattle.std.specs.Prelude.{◌≡◌, All, IfOk, false, None};
ghost use Rattle.cl_moves.specs.Moves.{IsMove};
ghost use Rattle.point_marks.specs.Questions.{IsQuestion};
ghost use Rattle.move_cutters.specs.Cutters.{AreDefaults, first_low, is_move_low};
ghost use Rattle.point_marks.specs.Marks.{AreTrueMarks, IsMarkedTruly, mark_for, marks_for};

use crate::question::Question;
use axis_cells::Mark;
use box_bisect::mark_point_uncounted;
use cl_moves::Move;
use cutter_slabs::{Cutter, Stacks};
use move_cutters::{CutterDefaults, cutter_of, sweep_of};
use std::alloc::Global;
use std::marker::Model;
use vf_io::NoMemory;

/// Marks one move after the other. The stacks of the last cutter are kept for moves that follow with the same one.
#[derive(Drop)]
struct Marker {
    question: Question,
    stacks: Option<Stacks>,
}

impl Model for Marker {
    ghost use Rattle.std.specs.Prelude.{◌≡◌, IfSome};
    ghost use Rattle.point_marks.specs.Questions.{IsQuestion};
    ghost use Rattle.point_marks.specs.declared.question.Question.{Question};

    ghost Value = { Question };

    ghost view = { λ m. m.question };

    ghost invariant = { λ m. IsQuestion m.question × IfSome m.stacks (λ stacks. stacks.slabs ≡ m.question.slabs) };
}

impl Marker {
    /// No stacks are kept.
    fn new(question: Question) -> Marker
        requires { IsQuestion question }
        ensures { result ≡ question }
    {
        Marker {
            question,
            stacks: None,
        }
    }

    /// The stacks of a cutter: those that are kept, where they are of this cutter, or new ones. None are kept then.
    fn take_stacks(&mut self, alloc: Global, cutter: Cutter) -> Result<Stacks, NoMemory>
        ensures same { self.new ≡ self.old }
        ensures cutter { IfOk result (λ stacks. stacks.cutter ≡ cutter) }
        ensures slabs { IfOk result (λ stacks. stacks.slabs ≡ self.old.slabs) }
    {
        if let Some(stacks) = self.stacks.take()
            && stacks.cutter() == cutter
        {
            return Ok(stacks);
        }
        Stacks::new(alloc, cutter, self.question.slabs)
    }

    /// The mark of a move, where it has a cutter.
    fn mark(
        &mut self,
        alloc: Global,
        defaults: &CutterDefaults,
        next: &Move,
    ) -> Result<Option<Mark>, NoMemory>
        requires defaults { AreDefaults defaults.now }
        requires valid { IsMove next.now }
        requires high { is_move_low defaults.now next.now ≡ false }
        ensures same { self.new ≡ self.old }
        ensures mark { IfOk result (λ mark. mark ≡ mark_for defaults.now self.old next.now) }
        ensures sound { IfOk result (λ mark. IsMarkedTruly defaults.now self.old.point next.now mark) }
    {
        let Some(cutter) = cutter_of(defaults, next) else {
            return Ok(None);
        };
        let stacks = self.take_stacks(alloc, cutter)?;
        let mark = mark_point_uncounted(
            &sweep_of(next),
            &stacks,
            self.question.point,
            self.question.depth,
        );
        self.stacks = Some(stacks);
        Ok(Some(mark))
    }
}

/// The marks of the moves in order, none for a move without a cutter.
pub fn marks_of(
    alloc: Global,
    defaults: &CutterDefaults,
    moves: &[Move],
    question: &Question,
) -> Result<Vec<Option<Mark>>, NoMemory>
    requires defaults { AreDefaults defaults.now }
    requires question { IsQuestion question.now }
    requires valid { All IsMove moves.now }
    requires high { first_low defaults.now moves.now ≡ None }
    ensures marks { IfOk result (λ marks. marks.items ≡ marks_for defaults.now question.now moves.now) }
    ensures sound { IfOk result (λ marks. AreTrueMarks defaults.now question.now.point moves.now marks.items) }
{
    let mut marker = Marker::new(*question);
    let mut marks = Vec::with_capacity(alloc, moves.len())?;
    for next in moves {
        marks.push(marker.mark(alloc, defaults, next)?)?;
    }
    Ok(marks)
}
