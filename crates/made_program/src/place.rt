ghost use Rattle.std.specs.Prelude.{◌≡◌, ◌^◌, ◌<◌};
ghost use Rattle.made_program.specs.Draws.{generator_state};
ghost use Rattle.made_program.specs.Made.{first_place, place_by, place_from};

use crate::draw::draw;

/// Where the tool is: its tip in micrometres, and its axis in 1/100,000.
#[derive(Clone, Copy)]
pub(crate) struct Place {
    pub(crate) tip: [i32; 3],
    pub(crate) axis: [i32; 3],
}

impl Place {
    /// The tool is upright at the start, above the origin.
    pub(crate) fn first() -> Place
        ensures { result ≡ first_place }
    {
        Place {
            tip: [0, 0, 20_000],
            axis: [0, 0, 100_000],
        }
    }

    /// The place that the next five draws give.
    pub(crate) fn next(state: &mut u32) -> Place
        ensures state { state.new ≡ generator_state 5 state.old }
        ensures place { result ≡ place_from state.old }
    {
        let a = draw(state);
        let b = draw(state);
        let c = draw(state);
        let p = draw(state);
        let q = draw(state);
        Place::by(a, b, c, p, q)
    }

    /// The place that these five draws are.
    fn by(a: u32, b: u32, c: u32, p: u32, q: u32) -> Place
        requires along_x { p < 2 ^ 15 }
        requires along_y { q < 2 ^ 15 }
        ensures { result ≡ place_by a b c p q }
    {
        Place {
            tip: [
                (a % 20_001) as i32,
                (b % 20_001) as i32,
                (2_000 + c % 8_001) as i32,
            ],
            axis: [p as i32 - 16_384, q as i32 - 16_384, 100_000],
        }
    }
}
