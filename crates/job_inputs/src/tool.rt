ghost use Rattle.std.specs.Prelude.{◌≡◌, false};
ghost use Rattle.cl_moves.specs.Moves.{IsMove};
ghost use Rattle.setup_file.specs.Sound.{IsTool};
ghost use Rattle.move_cutters.specs.Cutters.{is_move_low};
ghost use Rattle.job_inputs.specs.Tasks.{job_move, tool_defaults, tool_text};

use cl_moves::{CutterText, Move};
use cutter_slabs::Cutter;
use move_cutters::{CutterDefaults, size};

/// A tool as a program would give it.
pub fn tool_text(tool: &Cutter) -> CutterText
    ensures { result ≡ tool_text tool.now }
{
    CutterText {
        d: tool.d,
        r: tool.r,
        h: Some(tool.h),
        flank: tool.flank,
    }
}

/// What the setup's tool fills in.
pub fn defaults_of(tool: &Cutter) -> CutterDefaults
    ensures { result ≡ tool_defaults tool.now }
{
    CutterDefaults {
        cutter: Some(tool_text(tool)),
        height: tool.h,
    }
}

/// The cutter that a move is made with: its own, or the setup's tool.
pub fn move_cutter(tool: &Cutter, next: &Move) -> Cutter
    requires tool { IsTool tool.now }
    requires valid { IsMove next.now }
    requires high { is_move_low (tool_defaults tool.now) next.now ≡ false }
    ensures cutter { result ≡ (job_move tool.now next.now).cutter }
    ensures tip { result.base ≡ 0 }
{
    size(&defaults_of(tool), &next.cutter.unwrap_or(tool_text(tool)))
}
