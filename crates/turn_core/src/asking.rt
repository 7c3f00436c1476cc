ghost use Rattle.std.specs.Prelude.{◌≡◌, ◌<◌, ◌≤◌, Some, IfOk, OnErr, OnOk, length, slice_get};
ghost use Rattle.ray_grid.specs.declared.ray.Ray.{Ray};
ghost use Rattle.ray_grid.specs.Lattice.{IsRay, points_of};
ghost use Rattle.ray_grid.specs.Strips.{strip_at};
ghost use Rattle.edit_plan.specs.Queries.{IsQuery};
ghost use Rattle.edit_plan.specs.declared.query.Ask.TheVariants.{Count, Probe};
ghost use Rattle.ray_grid.specs.Points.{point_in};
ghost use Rattle.job_model.specs.Points.{left_moves, state_after, totals_after};
ghost use Rattle.job_model.specs.Tasks.{Job};
ghost use Rattle.turn_core.specs.World.{AreBetween, AreOfPlan, AreStrips, AreStripsAt, after_ask, answer_of, versions_of};

use crate::turning::raise;
use edit_plan::{Ask, Query};
use job_counts::{Answer, PointState, Totals};
use ray_grid::Ray;
use std::marker::Brand;
use std::sync::ledger::{Blank, Ledger};
use strip_journal::Strip;
use strip_plan::Plan;
use vf_io::NoMemory;
use vf_steps::Steps;

/// The state of a point of a strip's ray at a version, by a counter of steps that nobody reads.
fn counted_state<L: Ledger>(strip: &Strip, version: u32, n: u32, l: u32, blank: Blank) -> PointState
    requires name { blank.name ≡ L.name }
    requires parts { blank.parts ≡ L.parts }
    requires some { 0 < L.parts }
    requires version { version ≤ strip.now.done }
    requires ray { n < length (strip_at strip.now.job.plan.grid strip.now.number) }
    requires point { (ray : Ray) → slice_get (strip_at strip.now.job.plan.grid strip.now.number) n ≡ Some ray
        → l < points_of strip.now.job.plan.grid ray.family }
    ensures { (ray : Ray) → slice_get (strip_at strip.now.job.plan.grid strip.now.number) n ≡ Some ray
        → result ≡ state_after strip.now.job (left_moves strip.now.job.plan version) (point_in strip.now.job.plan.grid ray l) }
{
    let mut steps: Steps<L> = Steps::new(blank);
    strip.mark_at(version, n, l, &mut steps)
}

/// The state of a point of a strip's ray at a version.
pub fn state_at(strip: &Strip, version: u32, n: u32, l: u32) -> PointState
    requires version { version ≤ strip.now.done }
    requires ray { n < length (strip_at strip.now.job.plan.grid strip.now.number) }
    requires point { (ray : Ray) → slice_get (strip_at strip.now.job.plan.grid strip.now.number) n ≡ Some ray
        → l < points_of strip.now.job.plan.grid ray.family }
    ensures { (ray : Ray) → slice_get (strip_at strip.now.job.plan.grid strip.now.number) n ≡ Some ray
        → result ≡ state_after strip.now.job (left_moves strip.now.job.plan version) (point_in strip.now.job.plan.grid ray l) }
{
    counted_state::<Brand>(strip, version, n, l, Blank::new(1))
}

/// The state of a point at a version. Its strip is raised to it.
fn probe(
    strips: &mut [Strip],
    plan: &Plan,
    version: u32,
    ray: &Ray,
    l: u32,
) -> Result<PointState, NoMemory>
    requires strips { AreOfPlan plan.now strips.old }
    requires version { version ≤ length plan.now.edits }
    requires ray { IsRay plan.now.grid ray.now }
    requires point { l < points_of plan.now.grid ray.now.family }
    ensures plan { AreOfPlan plan.now strips.new }
    ensures strips { OnOk result ((job : Job) → AreStrips job strips.old
        → AreStripsAt job strips.new (after_ask plan.now version (Probe ray.now l) (versions_of strips.old))) }
    ensures still { (job : Job) → AreStrips job strips.old → AreStrips job strips.new }
    ensures stopped { OnErr result (AreBetween (versions_of strips.old)
        (after_ask plan.now version (Probe ray.now l) (versions_of strips.old)) (versions_of strips.new)) }
    ensures state { IfOk result (λ state. (job : Job) → AreStrips job strips.old
        → state ≡ state_after job (left_moves job.plan version) (point_in job.plan.grid ray.now l)) }
{
    let (strip, n) = plan.grid().place(ray);
    raise(&mut strips[strip as usize], plan, version)?;
    Ok(state_at(&strips[strip as usize], version, n, l))
}

/// The totals at a version. All strips are raised to it.
fn count(strips: &mut [Strip], plan: &Plan, version: u32) -> Result<Totals, NoMemory>
    requires strips { AreOfPlan plan.now strips.old }
    requires version { version ≤ length plan.now.edits }
    ensures plan { AreOfPlan plan.now strips.new }
    ensures strips { OnOk result ((job : Job) → AreStrips job strips.old
        → AreStripsAt job strips.new (after_ask plan.now version Count (versions_of strips.old))) }
    ensures still { (job : Job) → AreStrips job strips.old → AreStrips job strips.new }
    ensures stopped { OnErr result (AreBetween (versions_of strips.old)
        (after_ask plan.now version Count (versions_of strips.old)) (versions_of strips.new)) }
    ensures totals { IfOk result (λ totals. (job : Job) → AreStrips job strips.old
        → totals ≡ totals_after job (left_moves job.plan version)) }
{
    // The points of the lattice are counted in 64 bits, so no sum over some of them wraps.
    let _points = plan.grid().lattice_len();
    let mut totals = Totals::none();
    for k in 0..strips.len() {
        raise(&mut strips[k], plan, version)?;
        let strip = &strips[k];
        totals = totals.plus(&strip.counts_at(version));
    }
    Ok(totals)
}

/// Answers a query at its own version. The strips that it needs are raised to it.
pub fn ask(strips: &mut [Strip], plan: &Plan, query: &Query) -> Result<Answer, NoMemory>
    requires strips { AreOfPlan plan.now strips.old }
    requires query { IsQuery plan.now.grid (length plan.now.edits) query.now }
    ensures plan { AreOfPlan plan.now strips.new }
    ensures strips { OnOk result ((job : Job) → AreStrips job strips.old
        → AreStripsAt job strips.new (after_ask plan.now query.now.version query.now.ask (versions_of strips.old))) }
    ensures still { (job : Job) → AreStrips job strips.old → AreStrips job strips.new }
    ensures stopped { OnErr result (AreBetween (versions_of strips.old)
        (after_ask plan.now query.now.version query.now.ask (versions_of strips.old)) (versions_of strips.new)) }
    ensures answer { IfOk result (λ answer. (job : Job) → AreStrips job strips.old → answer ≡ answer_of job query.now) }
{
    match &query.ask {
        Ask::Probe { ray, l } => Ok(Answer::Probe(probe(strips, plan, query.version, ray, *l)?)),
        Ask::Count => Ok(Answer::Count(count(strips, plan, query.version)?)),
    }
}
