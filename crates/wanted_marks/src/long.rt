use axis_cells::Sweep;

/// Whether a component goes further than a way, in µm.
#[inline]
fn goes_beyond(from: i32, to: i32, way: i64) -> bool {
    way < i64::from(from.abs_diff(to))
}

/// Whether the tip goes further than three times a diameter along x, y or z. On shorter moves it is faster to mark each point by itself.
pub fn is_long(sweep: &Sweep, diameter: i32) -> bool {
    let way = 3 * i64::from(diameter);
    let ([x, y, z], [to_x, to_y, to_z]) = (sweep.from, sweep.to);
    goes_beyond(x, to_x, way) || goes_beyond(y, to_y, way) || goes_beyond(z, to_z, way)
}
