ghost use Rattle.std.specs.Prelude.{◌≡◌, ◌++◌, ◌<◌, IfOk, OnOk, length, map};
ghost use Rattle.ray_grid.specs.Strips.{strip_at, strips_of};
ghost use Rattle.job_model.specs.Tasks.{Job};
ghost use Rattle.job_report.specs.Remaining.{remaining_stock};
ghost use Rattle.stock_file.specs.PointSets.{set_where};
ghost use Rattle.strip_journal.specs.Remaining.{remains_at};
ghost use Rattle.job_run.specs.Jobs.{OfSomeJob};
ghost use Rattle.job_run.specs.Remaining.{AreFinishedOn};

use ray_grid::Grid;
use std::alloc::Global;
use strip_journal::Strip;
use vf_io::NoMemory;
use vf_spans::Spans;

/// Adds the sets of what is left of the stock on the rays of a strip, in order.
fn push_strip(strip: &Strip, grid: &Grid, sets: &mut Vec<Spans>) -> Result<(), NoMemory>
    requires grid { strip.now.job.plan.grid ≡ grid.now }
    requires strip { strip.now.number < length (strips_of grid.now) }
    ensures { OnOk result (sets.new.items ≡ sets.old.items
        ++ map (set_where grid.now (remains_at strip.now.job strip.now.done)) (strip_at grid.now strip.now.number)) }
{
    for n in 0..grid.strip_len(strip.number()) {
        sets.push(strip.remaining_on(n)?)?;
    }
    Ok(())
}

/// What is left of the stock of a job that is done: one set for each ray of its grid, in order.
pub fn remaining_sets(alloc: Global, grid: &Grid, strips: &[Strip]) -> Result<Vec<Spans>, NoMemory>
    requires { OfSomeJob (λ job. AreFinishedOn job grid.now strips.now) }
    ensures { IfOk result (λ sets. (job : Job) → AreFinishedOn job grid.now strips.now → sets.items ≡ (remaining_stock job).sets) }
{
    let mut sets = Vec::new(alloc);
    for strip in strips {
        push_strip(strip, grid, &mut sets)?;
    }
    Ok(sets)
}
