ghost use Rattle.laws.specs.Windows.{CountsAreSums, FindingsAreSums, SafeInEach, TotalsAreSums};

/// The laws of a grid that is cut into windows: a contract, with nothing to run.
pub fn window_laws()
    ensures counts { CountsAreSums }
    ensures totals { TotalsAreSums }
    ensures findings { FindingsAreSums }
    ensures safe { SafeInEach }
{}
