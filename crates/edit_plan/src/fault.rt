ghost use Rattle.std.specs.Prelude.{◌≡◌};

/// What is wrong with a line of a script, in the order in which one line is judged, except for `RedoDepth`, which is judged last.
/// The names are those that are printed.
#[derive(Clone, Copy)]
pub enum ScriptWhy {
    /// The line is none of the grammar.
    ScriptSyntax,
    /// The moves to apply are not all there, or are out of order; or nothing is to be undone or redone; or a probe is outside the
    /// grid.
    ScriptRange,
    /// More moves are to be undone than are left.
    UndoDepth { asked: u32, left: u32 },
    /// The line would bring the edits above the most.
    TooManyEdits,
    /// The line would bring the queries above the most.
    TooManyQueries,
    /// More moves are to be redone than are dropped; `left` is how many are.
    RedoDepth { asked: u32, left: u32 },
}

/// A fault of a script, with the number of its line.
#[derive(Clone, Copy)]
pub struct ScriptFault {
    pub line: u32,
    pub why: ScriptWhy,
}

/// How a read ends that gives no script.
#[derive(Clone, Copy)]
pub enum ScriptEnd {
    Refused(ScriptFault),
    NoMemory,
}

impl ScriptEnd {
    /// The refusal of a line.
    pub fn refused(line: u32, why: ScriptWhy) -> ScriptEnd
        ensures { result ≡ ScriptEnd.Refused (record { line = line; why = why }) }
    {
        ScriptEnd::Refused(ScriptFault { line, why })
    }
}
