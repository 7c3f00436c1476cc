use cl_lines::{ClFault, ClWhy, Word};
use edit_plan::{ScriptFault, ScriptWhy};
use input_faults::{Fault, Input};
use report_text::refusal_text;
use setup_keys::{KeyName, SetupFault};
use std::alloc::Global;
use std::test::Fail;
use vf_io::NoMemory;

/// Refusals, and the line that reports each.
const REFUSALS: [(Fault, &str); 30] = [
    (
        Fault::Cl(ClFault {
            line: 12,
            why: ClWhy::LineLong,
        }),
        "refused: cl line 12: LineLong\n",
    ),
    (
        Fault::Cl(ClFault {
            line: 12,
            why: ClWhy::DanglingDollar,
        }),
        "refused: cl line 12: DanglingDollar\n",
    ),
    (
        Fault::Cl(ClFault {
            line: 12,
            why: ClWhy::BadByte,
        }),
        "refused: cl line 12: BadByte\n",
    ),
    (
        Fault::Cl(ClFault {
            line: 12,
            why: ClWhy::Unsupported(Word::Circle),
        }),
        "refused: cl line 12: Unsupported CIRCLE\n",
    ),
    (
        Fault::Cl(ClFault {
            line: 12,
            why: ClWhy::Unsupported(Word::Tlaxis),
        }),
        "refused: cl line 12: Unsupported TLAXIS\n",
    ),
    (
        Fault::Cl(ClFault {
            line: 12,
            why: ClWhy::ParamCount,
        }),
        "refused: cl line 12: ParamCount\n",
    ),
    (
        Fault::Cl(ClFault {
            line: 12,
            why: ClWhy::ParamWord,
        }),
        "refused: cl line 12: ParamWord\n",
    ),
    (
        Fault::Cl(ClFault {
            line: 12,
            why: ClWhy::NumberSyntax,
        }),
        "refused: cl line 12: NumberSyntax\n",
    ),
    (
        Fault::Cl(ClFault {
            line: 12,
            why: ClWhy::NumberRange,
        }),
        "refused: cl line 12: NumberRange\n",
    ),
    (
        Fault::Cl(ClFault {
            line: 12,
            why: ClWhy::CutterShape,
        }),
        "refused: cl line 12: CutterShape\n",
    ),
    (
        Fault::Cl(ClFault {
            line: 12,
            why: ClWhy::AxisZero,
        }),
        "refused: cl line 12: AxisZero\n",
    ),
    (
        Fault::Cl(ClFault {
            line: 12,
            why: ClWhy::NoPosition,
        }),
        "refused: cl line 12: NoPosition\n",
    ),
    (
        Fault::Cl(ClFault {
            line: 12,
            why: ClWhy::AxisFlip,
        }),
        "refused: cl line 12: AxisFlip\n",
    ),
    (
        Fault::Cl(ClFault {
            line: 12,
            why: ClWhy::TooManyMoves,
        }),
        "refused: cl line 12: TooManyMoves\n",
    ),
    (
        Fault::Setup(SetupFault::SetupSyntax),
        "refused: setup: SetupSyntax\n",
    ),
    (
        Fault::Setup(SetupFault::SetupKey(KeyName::Setup)),
        "refused: setup setup: SetupKey\n",
    ),
    (
        Fault::Setup(SetupFault::SetupKey(KeyName::GridPitch)),
        "refused: setup grid.pitch: SetupKey\n",
    ),
    (
        Fault::Setup(SetupFault::SetupRange(KeyName::GridPitch, 0)),
        "refused: setup grid.pitch: SetupRange 0\n",
    ),
    (
        Fault::Setup(SetupFault::SetupRange(KeyName::StockBox, -9_223_372_036_854_775_808)),
        "refused: setup stock.box: SetupRange -9223372036854775808\n",
    ),
    (
        Fault::Script(ScriptFault {
            line: 2,
            why: ScriptWhy::ScriptSyntax,
        }),
        "refused: script line 2: ScriptSyntax\n",
    ),
    (
        Fault::Script(ScriptFault {
            line: 2,
            why: ScriptWhy::ScriptRange,
        }),
        "refused: script line 2: ScriptRange\n",
    ),
    (
        Fault::Script(ScriptFault {
            line: 2,
            why: ScriptWhy::UndoDepth { asked: 3, left: 2 },
        }),
        "refused: script line 2: UndoDepth 3 2\n",
    ),
    (
        Fault::Script(ScriptFault {
            line: 2,
            why: ScriptWhy::TooManyEdits,
        }),
        "refused: script line 2: TooManyEdits\n",
    ),
    (
        Fault::Script(ScriptFault {
            line: 2,
            why: ScriptWhy::TooManyQueries,
        }),
        "refused: script line 2: TooManyQueries\n",
    ),
    (
        Fault::Script(ScriptFault {
            line: 2,
            why: ScriptWhy::RedoDepth { asked: 1, left: 0 },
        }),
        "refused: script line 2: RedoDepth 1 0\n",
    ),
    (
        Fault::Script(ScriptFault {
            line: 2,
            why: ScriptWhy::RedoDepth {
                asked: 999_999_999,
                left: 100_000,
            },
        }),
        "refused: script line 2: RedoDepth 999999999 100000\n",
    ),
    (Fault::TooLong(Input::Cl), "refused: cl: TooLong\n"),
    (Fault::TooLong(Input::Setup), "refused: setup: TooLong\n"),
    (Fault::TooLong(Input::Script), "refused: script: TooLong\n"),
    (
        Fault::CutterHeight(4_294_967_295),
        "refused: cl line 4294967295: CutterHeight\n",
    ),
];

/// Whether the line of a refusal is this one.
fn is_told(alloc: Global, fault: &Fault, line: &str) -> Result<bool, NoMemory> {
    Ok(refusal_text(alloc, fault)?.as_slice() == line.as_bytes())
}

#[test]
fn refuses_with_one_line(rt: HostRuntime) -> Result<(), Fail> {
    for (fault, line) in &REFUSALS {
        assert!(rt; is_told(rt.alloc(), fault, line)?, "{line}");
    }
    Ok(())
}
