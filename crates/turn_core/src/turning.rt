ghost use Rattle.std.specs.Prelude.{◌≡◌, ◌+◌, ◌≤◌, IfErr, IfOk, OnErr, OnOk, length, max, min};
ghost use Rattle.turn_core.specs.Turns.{IsRaised, IsStopped};

use strip_journal::Strip;
use strip_plan::Plan;
use vf_io::NoMemory;

/// The edits that a turn does at the most.
pub(crate) const EDITS: u32 = 8;

/// Takes a strip to a version, unless it is there or past it. When out of memory it is at a version in between.
pub fn raise(strip: &mut Strip, plan: &Plan, version: u32) -> Result<(), NoMemory>
    requires plan { strip.old.job.plan ≡ plan.now }
    requires version { version ≤ length plan.now.edits }
    ensures ok { OnOk result (IsRaised strip.old strip.new (max strip.old.done version)) }
    ensures err { OnErr result (IsStopped strip.old strip.new version) }
{
    while strip.done() < version {
        let left = version - strip.done();
        if strip.skip_untouched(plan, left) < left {
            strip.advance(plan)?;
        }
    }
    Ok(())
}

/// Does the next edits on a strip, at most eight. Both answers say from which version to which; when out of memory it stops
/// short of where the turn would end.
pub fn turn_strip(strip: &mut Strip, plan: &Plan) -> Result<(u32, u32), (u32, u32)>
    requires plan { strip.old.job.plan ≡ plan.now }
    ensures ok { IfOk result (λ turn. (turn.0 ≡ strip.old.done) × (turn.1 ≡ strip.new.done)
        × IsRaised strip.old strip.new (min (strip.old.done + 8) (length plan.now.edits))) }
    ensures err { IfErr result (λ turn. (turn.0 ≡ strip.old.done) × (turn.1 ≡ strip.new.done)
        × IsStopped strip.old strip.new (min (strip.old.done + 8) (length plan.now.edits))) }
{
    let from = strip.done();
    let edits = plan.edits();
    let to = (from + EDITS).min(edits);
    match raise(strip, plan, to) {
        Ok(()) => Ok((from, strip.done())),
        Err(NoMemory) => Err((from, strip.done())),
    }
}
