ghost use Rattle.ray_grid.specs.TurnLaws.{AreDifferent, BackUndoesForth, ForthUndoesBack, KeepsDistances, ThereAre24};

/// The laws of turns: a contract, with nothing to run.
pub fn laws_of_turns()
    ensures back { BackUndoesForth }
    ensures forth { ForthUndoesBack }
    ensures distances { KeepsDistances }
    ensures many { ThereAre24 }
    ensures different { AreDifferent }
{}
