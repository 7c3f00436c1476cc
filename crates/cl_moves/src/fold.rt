ghost use Rattle.std.specs.Prelude.{◌≡◌, ◌<◌, Ok, Err, IfOk, OnOk, MatchResult};
ghost use Rattle.space.specs.Ranges.{IsWithin};
ghost use Rattle.cl_records.specs.Kinds.{longest_distance};
ghost use Rattle.cl_records.specs.Ranges.{IsRecord, IsToolAxis};
ghost use Rattle.cl_moves.specs.Fold.{IsFold};
ghost use Rattle.cl_moves.specs.Program.{start, placed, arrived, move_to, moved, gone_to, gone_by, multaxed, step, finished, StepEnds};

use crate::axes::{UPRIGHT, are_opposite};
use crate::moves::{MAX_MOVES, Move, Moves};
use crate::positions::{are_within, displaced};
use crate::program::Program;
use cl_lines::{ClEnd, ClWhy};
use cl_records::{CutterText, Record};
use std::alloc::Global;
use vf_io::NoMemory;

/// Where the tool is, what holds for the moves that follow, and the moves so far.
#[derive(Drop)]
pub(crate) struct Fold {
    pub(crate) position: Option<[i32; 3]>,
    pub(crate) axis: [i32; 3],
    pub(crate) cutter: Option<CutterText>,
    pub(crate) rapid: bool,
    pub(crate) passed: u32,
    pub(crate) moves: Moves,
}

impl Fold {
    /// No position and no cutter are known, and the axis is along z. There is room for `room` moves.
    pub(crate) fn new(alloc: Global, room: usize) -> Result<Fold, NoMemory>
        ensures start { IfOk result (λ fold. fold ≡ start) }
        ensures sound { IfOk result IsFold }
    {
        let moves = Moves::with_room(alloc, room)?;
        Ok(Fold {
            position: None,
            axis: UPRIGHT,
            cutter: None,
            rapid: false,
            passed: 0,
            moves,
        })
    }

    /// Does what a record says.
    pub(crate) fn apply(&mut self, line: u32, statement: Record) -> Result<(), ClEnd>
        requires sound { IsFold self.old }
        requires ranges { IsRecord statement }
        requires room { self.old.passed < u32.MAX }
        ensures step { MatchResult result (λ _. step line statement self.old ≡ Ok self.new) (StepEnds line (step line statement self.old)) }
        ensures sound { OnOk result (IsFold self.new) }
    {
        match statement {
            Record::Goto { tip, axis } => self.go_to(line, tip, axis.unwrap_or(self.axis))?,
            Record::From { tip, axis } => self.place(tip, axis.unwrap_or(self.axis)),
            Record::Delta(by) => self.go_by(line, by)?,
            Record::Cutter(cutter) => self.cutter = Some(cutter),
            Record::Multax(on) => self.turn_upright_unless(on),
            Record::Units(_) => {}
            Record::Rapid => self.rapid = true,
            Record::Fini => {}
            Record::Passed => self.passed += 1,
        }
        Ok(())
    }

    /// Makes a move to a position and an axis, where a position is known, and sets both.
    fn go_to(&mut self, line: u32, tip: [i32; 3], axis: [i32; 3]) -> Result<(), ClEnd>
        requires before { IsToolAxis self.old.axis }
        requires after { IsToolAxis axis }
        ensures { MatchResult result
            (λ _. gone_to line tip axis self.old.position self.old ≡ Ok self.new)
            (StepEnds line (gone_to line tip axis self.old.position self.old)) }
    {
        match self.position {
            Some(from) => self.make_move(line, from, tip, axis),
            None => {
                self.arrive(tip, axis);
                Ok(())
            }
        }
    }

    /// Makes a move by a distance from the known position, with the axis kept.
    fn go_by(&mut self, line: u32, by: [i32; 3]) -> Result<(), ClEnd>
        requires sound { IsFold self.old }
        requires distance { IsWithin longest_distance by }
        ensures { MatchResult result
            (λ _. gone_by line by self.old.position self.old ≡ Ok self.new)
            (StepEnds line (gone_by line by self.old.position self.old)) }
    {
        let Some(from) = self.position else {
            return Err(ClEnd::refused(line, ClWhy::NoPosition));
        };
        let to = displaced(&from, &by);
        if !are_within(&to) {
            return Err(ClEnd::refused(line, ClWhy::NumberRange));
        }
        self.make_move(line, from, to, self.axis)
    }

    /// Makes a move from the known position, and sets the position and the axis.
    fn make_move(
        &mut self,
        line: u32,
        from: [i32; 3],
        tip: [i32; 3],
        axis: [i32; 3],
    ) -> Result<(), ClEnd>
        requires before { IsToolAxis self.old.axis }
        requires after { IsToolAxis axis }
        ensures { MatchResult result
            (λ _. moved line from tip axis self.old ≡ Ok self.new)
            (StepEnds line (moved line from tip axis self.old)) }
    {
        if are_opposite(&self.axis, &axis) {
            return Err(ClEnd::refused(line, ClWhy::AxisFlip));
        }
        if self.moves.len() >= MAX_MOVES {
            return Err(ClEnd::refused(line, ClWhy::TooManyMoves));
        }
        let next = self.move_to(line, from, tip, axis);
        if self.moves.push(next).is_err() {
            return Err(ClEnd::NoMemory);
        }
        self.arrive(tip, axis);
        Ok(())
    }

    /// The move from a position to another and an axis.
    fn move_to(&self, line: u32, from: [i32; 3], tip: [i32; 3], axis: [i32; 3]) -> Move
        ensures { result ≡ move_to line from tip axis self.now }
    {
        Move {
            line,
            rapid: self.rapid,
            from,
            to: tip,
            axis_from: self.axis,
            axis_to: axis,
            cutter: self.cutter,
        }
    }

    /// Sets the position and the axis.
    fn place(&mut self, tip: [i32; 3], axis: [i32; 3])
        ensures { self.new ≡ placed tip axis self.old }
    {
        self.position = Some(tip);
        self.axis = axis;
    }

    /// Sets the position and the axis. What follows is no rapid move.
    fn arrive(&mut self, tip: [i32; 3], axis: [i32; 3])
        ensures { self.new ≡ arrived tip axis self.old }
    {
        self.place(tip, axis);
        self.rapid = false;
    }

    /// Sets the axis along z, unless the tool axis may turn from now on.
    fn turn_upright_unless(&mut self, may_turn: bool)
        ensures { self.new ≡ multaxed may_turn self.old }
    {
        if !may_turn {
            self.axis = UPRIGHT;
        }
    }

    /// The program of the moves so far.
    pub(crate) fn finish(self) -> Program
        ensures { result ≡ finished self }
    {
        Program {
            moves: self.moves,
            passed: self.passed,
        }
    }
}
