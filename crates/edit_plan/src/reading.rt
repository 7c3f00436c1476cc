ghost use Rattle.std.specs.Prelude.{◌≡◌, ◌≤◌, ◌+◌, length, Ok, MatchResult, OnOk, IfOk, List};
ghost use Rattle.edit_plan.specs.Limits.{most_script_moves};
ghost use Rattle.ray_grid.specs.Lattice.{is_point_on};
ghost use Rattle.edit_plan.specs.Script.{EndsLine, are_too_many, no_script, with_statement};
ghost use Rattle.edit_plan.specs.Script.{with_query, with_redos, with_run, with_undos};

use crate::edit::{Edit, Edits, MAX_EDITS};
use crate::fault::ScriptWhy;
use crate::query::{Ask, MAX_QUERIES, Queries, Query};
use crate::script::Script;
use crate::statement::Statement;
use ray_grid::{Grid, Ray};
use std::alloc::Global;
use std::marker::Model;

/// Why a line adds nothing.
#[derive(Clone, Copy)]
pub(crate) enum Stop {
    Refused(ScriptWhy),
    NoMemory,
}

/// A script that grows. How many moves are left and how many are dropped is known by two counts. Its value is the script so far.
#[derive(Drop)]
pub(crate) struct Reading {
    edits: Edits,
    queries: Queries,
    left: u32,
    dropped: u32,
}

impl Model for Reading {
    ghost use Rattle.edit_plan.specs.Counted.{IsCounted};
    ghost use Rattle.edit_plan.specs.declared.script.Script.{Script};

    ghost Value = { Script };

    ghost view = { λ r. record { edits = r.edits; queries = r.queries } };

    ghost invariant = { λ r. IsCounted r.left r.dropped r.edits };
}

impl Reading {
    /// No edits and no queries.
    pub(crate) fn new(alloc: Global) -> Reading
        ensures { result ≡ no_script }
    {
        Reading {
            edits: Edits::new(alloc),
            queries: Queries::new(alloc),
            left: 0,
            dropped: 0,
        }
    }

    /// Adds what a line says.
    pub(crate) fn add(&mut self, statement: Statement, moves: u32, grid: &Grid) -> Result<(), Stop>
        requires { moves ≤ most_script_moves }
        ensures { MatchResult result (λ _. with_statement moves grid.now statement self.old ≡ Ok self.new)
            (EndsLine (with_statement moves grid.now statement self.old)) }
    {
        match statement {
            Statement::Run { first, last } => self.run(first, last, moves),
            Statement::UndoTimes(times) => self.undo(times),
            Statement::RedoTimes(times) => self.redo(times),
            Statement::ProbePoint { ray, l } => {
                if !grid.has_point(&ray, l) {
                    return Err(Stop::Refused(ScriptWhy::ScriptRange));
                }
                self.query(Ask::Probe { ray, l })
            }
            Statement::CountPoints => self.query(Ask::Count),
        }
    }

    /// Applies the moves from one to another, counted from 1.
    fn run(&mut self, first: u32, last: u32, moves: u32) -> Result<(), Stop>
        requires { moves ≤ most_script_moves }
        ensures { MatchResult result (λ _. with_run moves first last self.old ≡ Ok self.new)
            (EndsLine (with_run moves first last self.old)) }
    {
        if first < 1 || last < first || moves < last {
            return Err(Stop::Refused(ScriptWhy::ScriptRange));
        }
        let count = last + 1 - first;
        if self.is_full_for(count) {
            return Err(Stop::Refused(ScriptWhy::TooManyEdits));
        }
        if self.edits.push_moves(first - 1, last).is_err() {
            return Err(Stop::NoMemory);
        }
        self.left += count;
        self.dropped = 0;
        Ok(())
    }

    /// Undoes the last moves that are left.
    fn undo(&mut self, times: u32) -> Result<(), Stop>
        ensures { MatchResult result (λ _. with_undos times self.old ≡ Ok self.new)
            (EndsLine (with_undos times self.old)) }
    {
        if times == 0 {
            return Err(Stop::Refused(ScriptWhy::ScriptRange));
        }
        if times > self.left {
            return Err(Stop::Refused(ScriptWhy::UndoDepth {
                asked: times,
                left: self.left,
            }));
        }
        if self.is_full_for(times) {
            return Err(Stop::Refused(ScriptWhy::TooManyEdits));
        }
        if self.edits.push_times(Edit::Undo, times).is_err() {
            return Err(Stop::NoMemory);
        }
        self.left -= times;
        self.dropped += times;
        Ok(())
    }

    /// Takes back the last moves that were dropped.
    fn redo(&mut self, times: u32) -> Result<(), Stop>
        ensures { MatchResult result (λ _. with_redos times self.old ≡ Ok self.new)
            (EndsLine (with_redos times self.old)) }
    {
        if times == 0 {
            return Err(Stop::Refused(ScriptWhy::ScriptRange));
        }
        if self.is_full_for(times) {
            return Err(Stop::Refused(ScriptWhy::TooManyEdits));
        }
        if times > self.dropped {
            return Err(Stop::Refused(ScriptWhy::RedoDepth {
                asked: times,
                left: self.dropped,
            }));
        }
        if self.edits.push_times(Edit::Redo, times).is_err() {
            return Err(Stop::NoMemory);
        }
        self.dropped -= times;
        self.left += times;
        Ok(())
    }

    /// Asks at the version that the edits so far make.
    fn query(&mut self, ask: Ask) -> Result<(), Stop>
        ensures { MatchResult result (λ _. with_query ask self.old ≡ Ok self.new)
            (EndsLine (with_query ask self.old)) }
    {
        if self.queries.len() >= MAX_QUERIES {
            return Err(Stop::Refused(ScriptWhy::TooManyQueries));
        }
        let version = self.edits.len() as u32;
        if self.queries.push(Query { version, ask }).is_err() {
            return Err(Stop::NoMemory);
        }
        Ok(())
    }

    /// Whether `count` more edits would be too many.
    fn is_full_for(&self, count: u32) -> bool
        ensures { result ≡ are_too_many count self.now }
    {
        count as usize > MAX_EDITS - self.edits.len()
    }

    /// The script so far.
    pub(crate) fn finish(self) -> Script
        ensures { result ≡ self }
    {
        Script {
            edits: self.edits,
            queries: self.queries,
        }
    }
}
