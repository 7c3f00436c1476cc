ghost use Rattle.std.specs.Prelude.{◌≡◌, ◌+◌, ◌^◌, ◌≤◌, pos};
ghost use Rattle.space.specs.Ranges.{IsPoint};
ghost use Rattle.bern_form.specs.Sizes.{scale_limit};
ghost use Rattle.wanted_marks.specs.Lines.{FitsAt, heights_at, width_at};
ghost use Rattle.wanted_marks.specs.StretchLines.{IsThroughOn};
ghost use Rattle.wanted_marks.specs.Ways.{scaled_way};

use crate::line::Line;
use crate::scaled::scaled_way;
use crate::sheet::{heights_on, width_on};
use axis_cells::{Pose, Sweep, cells_of, scalar_product_on_cell};
use bern_form::Form2;
use ray_runs::OpenStretch;
use width_bisect::WholeForms;

/// The forms of the points of a line on a stretch of a move. n is the same for all of them.
#[derive(Drop)]
pub struct StretchLine {
    pub line: Line,
    pub n: Form2,
}

impl StretchLine {
    /// The line through two points.
    pub fn through(
        start: &[i32; 3],
        next: &[i32; 3],
        sweep: &Sweep,
        stretch: &OpenStretch,
        scale: u32,
    ) -> StretchLine
        requires start { IsPoint start.now }
        requires next { IsPoint next.now }
        requires scale { scale ≤ scale_limit }
        requires few { stretch.now.levels ≤ 10 }
        requires within { stretch.now.first + 2 ^ stretch.now.levels ≤ scale }
        ensures { IsThroughOn result stretch.now sweep.now start.now (scaled_way (pos scale) start.now next.now) scale }
    {
        let end = stretch.first + cells_of(stretch.levels);
        let from = Pose::at_sample(sweep, start, stretch.first, scale);
        let to = Pose::at_sample(sweep, start, end, scale);
        let way = scaled_way(scale, start, next);
        StretchLine {
            line: Line::between(&from.offset, &to.offset, &way, &from.axis, &to.axis),
            n: scalar_product_on_cell(&from.axis, &to.axis, &from.axis, &to.axis),
        }
    }

    /// The forms of the point l steps on.
    #[inline]
    pub fn forms(&self, l: u32) -> WholeForms
        requires { FitsAt self.now.line (pos l) }
        ensures u { result.u.c ≡ heights_at self.now.line (pos l) }
        ensures n { result.n.c ≡ self.now.n.c }
        ensures width { result.width.c ≡ width_at self.now.line (pos l) }
    {
        WholeForms {
            u: heights_on(&self.line, l),
            n: self.n,
            width: width_on(&self.line, l),
        }
    }
}
