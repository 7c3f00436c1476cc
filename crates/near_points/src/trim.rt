ghost use Rattle.std.specs.Prelude.{◌≡◌, ◌<◌, ◌≤◌, ◌<ℤ◌, not, Contains, IfSome, IsTrue};
ghost use Rattle.near_points.specs.Trimmed.{IsOut, is_within};

use sweep_boxes::{BANDS, Band};

/// How many bands to pass over from a place on: `many` where the one there isn't above a height, and else none.
#[inline]
fn passed_over(bands: &[Band; BANDS], place: usize, height: i64, many: usize) -> usize
    requires { place < 8 }
    ensures { result ≤ many }
{
    if bands[place].height <= height {
        many
    } else {
        0
    }
}

/// The lowest band above a height, where they are in order and the last one is above it. It is found by halving, in three steps that a
/// processor need not guess.
#[inline]
fn band_above(bands: &[Band; BANDS], height: i64) -> Option<&Band>
    ensures { IfSome result (λ band. Contains bands.now band.now × (height <ℤ band.now.height)) }
{
    let half = passed_over(bands, 3, height, 4);
    let quarter = passed_over(bands, half + 1, height, 2);
    let rest = passed_over(bands, half + quarter, height, 1);
    let band = &bands[half + quarter + rest];
    if height < band.height {
        Some(band)
    } else {
        None
    }
}

/// Whether a point below the height of a band has too long a moment for it, by its square, or is too far to either side.
#[inline]
fn is_beyond(band: &Band, side: i64, width: i128) -> bool
    ensures { result ≡ not (is_within band.now side width) }
{
    if side < -band.across {
        return true;
    }
    if band.across < side {
        return true;
    }
    let moment = i128::from(band.moment);
    moment * moment < width
}

/// Whether a band is found that leaves out a point. Most points are above all bands, and the last one is the highest.
#[inline]
pub fn is_out(bands: &[Band; BANDS], height: i64, side: i64, width: i128) -> bool
    ensures { IsTrue result → IsOut bands.now height side width }
{
    if bands[BANDS - 1].height <= height {
        return false;
    }
    match band_above(bands, height) {
        Some(band) => is_beyond(band, side, width),
        None => false,
    }
}
