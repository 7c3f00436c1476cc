ghost use Rattle.job_model.specs.Law.{SafeMoveKeepsOff};

/// The law of a safe move, on which what a report says of safety rests: a contract, with nothing to run.
pub fn safe_move_law()
    ensures { SafeMoveKeepsOff }
{}
