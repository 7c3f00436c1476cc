use axis_cells::Sweep;
use cutter_slabs::Cutter;
use holder_check::Holder;
use std::marker::Model;

/// A move of the program with its cutter, whether it is in rapid motion, and the line where its record begins. It is valid by its
/// type, as its motion and its cutter are.
#[derive(Clone, Copy)]
pub struct PlanMove {
    pub sweep: Sweep,
    pub cutter: Cutter,
    pub rapid: bool,
    pub line: u32,
}

impl Model for PlanMove {
    ghost use Rattle.job_model.specs.Tasks.{IsJobMove, JobMove};

    ghost Value = { JobMove };

    ghost view = { λ m. record { sweep = m.sweep; cutter = m.cutter; rapid = m.rapid; line = m.line } };

    ghost invariant = { λ m. IsJobMove record { sweep = m.sweep; cutter = m.cutter; rapid = m.rapid; line = m.line } };

    ghost inverse = { λ m. record { sweep = m.sweep; cutter = m.cutter; rapid = m.rapid; line = m.line } };
}

impl PlanMove {
    ghost use Rattle.std.specs.Prelude.{◌≡◌};
    ghost use Rattle.holder_check.specs.Above.{HolderFits};
    ghost use Rattle.job_model.specs.Holders.{holder_move};

    /// The move of a sweep and a cutter; `line` is counted from 1.
    pub fn new(sweep: Sweep, cutter: Cutter, rapid: bool, line: u32) -> PlanMove
        ensures { result ≡ record { sweep = sweep; cutter = cutter; rapid = rapid; line = line } }
    {
        // Reading a field of the sweep and of the cutter gives the prover their invariants.
        let _sweep = &sweep.from;
        let _cutter = &cutter.d;
        PlanMove {
            sweep,
            cutter,
            rapid,
            line,
        }
    }

    /// The holder above the move's cutter as a move of its own: on the same way, in rapid motion.
    pub fn of_holder(&self, holder: &Holder) -> PlanMove
        requires { HolderFits holder.now self.now.cutter }
        ensures { result ≡ holder_move holder.now self.now }
    {
        PlanMove::new(self.sweep, holder.above(&self.cutter), true, self.line)
    }
}
