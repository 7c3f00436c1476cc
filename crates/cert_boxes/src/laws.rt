ghost use Rattle.cert_boxes.specs.Made.{DueIsForTask};
ghost use Rattle.cert_boxes.specs.Untouched.{AcceptedIsUntouched, TimesAreCovered};

use axis_cells::Sweep;
use cutter_slabs::Stacks;

/// The law of the times that lines cover: a contract, with nothing to run.
pub fn time_laws()
    ensures { TimesAreCovered }
{}

/// The law of the certificate that is due: a contract, with nothing to run.
pub fn making_law()
    ensures { DueIsForTask }
{}

/// The law of accepted certificates, for a move and the stacks of a cutter: a contract, with nothing to keep.
pub fn acceptance_law(sweep: &Sweep, stacks: &Stacks)
    ensures { AcceptedIsUntouched sweep.now stacks.now.cutter stacks.now.slabs }
{
    // Reading a field of the sweep, and asking for a stack and its reach, gives the prover what is known of them.
    let _valid = &sweep.from;
    let _outer = stacks.outer();
    let _reach = stacks.reach();
}
