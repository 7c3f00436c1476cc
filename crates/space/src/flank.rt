ghost use Rattle.std.specs.Prelude.{◌≡◌, ◌+◌, ◌*◌, ◌<◌, ◌≤◌, ◌==◌, find};
ghost use Rattle.space.specs.Flanks.{flanks, is_flank, least_widening, lower_tangent, most_widening, top_of, upper_tangent};

/// A flank angle that is read, in whole degrees, with the bounds of its tangent in millionths.
#[derive(Clone, Copy)]
pub struct Flank {
    pub degrees: u32,
    pub lower: u32,
    pub upper: u32,
}

/// The flank angles that are read.
const FLANKS: [Flank; 9] = [
    Flank {
        degrees: 0,
        lower: 0,
        upper: 0,
    },
    Flank {
        degrees: 1,
        lower: 17455,
        upper: 17456,
    },
    Flank {
        degrees: 2,
        lower: 34920,
        upper: 34921,
    },
    Flank {
        degrees: 3,
        lower: 52407,
        upper: 52408,
    },
    Flank {
        degrees: 5,
        lower: 87488,
        upper: 87489,
    },
    Flank {
        degrees: 10,
        lower: 176326,
        upper: 176327,
    },
    Flank {
        degrees: 15,
        lower: 267949,
        upper: 267950,
    },
    Flank {
        degrees: 30,
        lower: 577350,
        upper: 577351,
    },
    Flank {
        degrees: 45,
        lower: 1000000,
        upper: 1000000,
    },
];

/// The angle of this many degrees, where it is in the table.
fn find_in(table: &[Flank], degrees: u32) -> Option<Flank>
    ensures { result ≡ find (λ f. f.degrees == degrees) table.now }
{
    for flank in table {
        if flank.degrees == degrees {
            return Some(*flank);
        }
    }
    None
}

/// The angle of this many degrees, where it is read.
fn find_flank(degrees: u32) -> Option<Flank>
    ensures { result ≡ find (λ f. f.degrees == degrees) flanks }
{
    find_in(&FLANKS, degrees)
}

/// Whether an angle of whole degrees is read.
pub fn is_flank(degrees: u32) -> bool
    ensures { result ≡ is_flank degrees }
{
    find_flank(degrees).is_some()
}

/// The lower bound of an angle's tangent in millionths: 0 for an angle that isn't read.
fn lower_tangent(degrees: u32) -> u32
    ensures { result ≡ lower_tangent degrees }
{
    find_flank(degrees).map_or(0, |f| f.lower)
}

/// The upper bound of an angle's tangent in millionths: 0 for an angle that isn't read.
fn upper_tangent(degrees: u32) -> u32
    ensures { result ≡ upper_tangent degrees }
{
    find_flank(degrees).map_or(0, |f| f.upper)
}

/// How much a cutter widens up to the height `x`, on one side, at the least: micrometres, rounded down.
pub fn least_widening(degrees: u32, x: u32) -> u64
    ensures value { result ≡ least_widening degrees x }
{
    u64::from(x) * u64::from(lower_tangent(degrees)) / 1_000_000
}

/// How much a cutter widens up to the height `x`, on one side, at the most: micrometres, rounded up.
pub fn most_widening(degrees: u32, x: u32) -> u64
    ensures value { result ≡ most_widening degrees x }
{
    (u64::from(x) * u64::from(upper_tangent(degrees))).div_ceil(1_000_000)
}

/// The diameter at the top of a cutter of the diameter `d` at its tip and the height `h`, in micrometres.
pub fn top_diameter(d: u32, h: u32, degrees: u32) -> u64
    ensures { result ≡ top_of d h degrees }
{
    u64::from(d) + 2 * most_widening(degrees, h)
}
