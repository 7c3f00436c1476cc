ghost use Rattle.std.specs.Prelude.{◌≡◌, ◌≤◌, All, IfOk, length};
ghost use Rattle.edit_plan.specs.Queries.{IsQuery};

use edit_plan::{Ask, Query};
use job_counts::{Answer, PointState, Totals};
use ray_grid::{Family, Ray};
use std::alloc::Global;
use strip_plan::Plan;
use vf_io::NoMemory;

/// Asks at a version for the point 2 of the z ray through the nodes n and n, where the plan has it.
fn probe(plan: &Plan, version: u32, n: u32) -> Query
    requires { version ≤ length plan.now.edits }
    ensures { IsQuery plan.now.grid (length plan.now.edits) result }
{
    let ray = Ray {
        family: Family::Z,
        i: n,
        j: n,
    };
    if plan.grid().has_point(&ray, 2) {
        Query {
            version,
            ask: Ask::Probe { ray, l: 2 },
        }
    } else {
        count(plan, version)
    }
}

/// Asks for the totals at a version.
fn count(plan: &Plan, version: u32) -> Query
    requires { version ≤ length plan.now.edits }
    ensures { IsQuery plan.now.grid (length plan.now.edits) result }
{
    Query {
        version,
        ask: Ask::Count,
    }
}

/// Points and totals in the last round of the edits: with both moves left, with none left, and with the second alone.
pub fn queries(alloc: Global, plan: &Plan) -> Result<Vec<Query>, NoMemory>
    requires { 5 ≤ length plan.now.edits }
    ensures many { IfOk result (λ queries. length queries.items ≡ 6) }
    ensures each { IfOk result (λ queries. All (IsQuery plan.now.grid (length plan.now.edits)) queries.items) }
{
    let second = plan.edits();
    let none = second - 1;
    let both = second - 3;
    let mut queries = Vec::new(alloc);
    queries.push(probe(plan, both, 0))?;
    queries.push(probe(plan, both, 2))?;
    queries.push(count(plan, both))?;
    queries.push(probe(plan, none, 0))?;
    queries.push(probe(plan, second, 2))?;
    queries.push(count(plan, second))?;
    Ok(queries)
}

/// The expected answers: the first move removes 14 points and the second 16, and none of them both.
pub fn answers() -> [Answer; 6] {
    [
        Answer::Probe(PointState::Removed),
        Answer::Probe(PointState::Removed),
        all_of(30),
        Answer::Probe(PointState::Kept),
        Answer::Probe(PointState::Removed),
        all_of(16),
    ]
}

/// The totals of the whole lattice, of which 108 points are stock.
fn all_of(removed: u64) -> Answer {
    Answer::Count(Totals {
        removed,
        possible: removed,
        of: 108,
    })
}
