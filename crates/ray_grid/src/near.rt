ghost use Rattle.std.specs.Prelude.{◌≡◌, ℕ, ◌*◌, ◌<◌, ◌≤◌, ◌↔◌, IsTrue, pos, ◌≤ℤ◌, ◌+ℤ◌, ◌*ℤ◌, ◌-ℤ◌};
ghost use Rattle.std.specs.Int.{int_min, int_max};
ghost use Rattle.space.specs.Vectors.{at};
ghost use Rattle.ray_grid.specs.Selects.{Selects};
ghost use Rattle.ray_grid.specs.OnAxis.{is_near_on};

/// What lies on each axis at most `reach` outside the segment from `from` to `to`.
#[derive(Clone, Copy)]
pub struct Reach {
    pub from: [i32; 3],
    pub to: [i32; 3],
    pub reach: i32,
}

impl Reach {
    /// Whether a coordinate of the axis is within reach.
    pub fn holds(&self, axis: usize, x: i32) -> bool
        requires { axis < 3 }
        ensures { result ≡ is_near_on self.now axis x }
    {
        space::is_near(self.reach, self.from[axis], self.to[axis], x)
    }

    /// The indices below `count` of the coordinates `origin + l * step` of the axis that are within
    /// reach, the first included, the second excluded, found by two divisions.
    ///
    /// The first is the least number of steps that come up to the lowest coordinate within reach, so
    /// it is rounded up; the last is the greatest number of steps that don't go past the highest, so
    /// it is rounded down.
    pub fn indices(&self, axis: usize, origin: i32, step: i32, count: u32) -> (u32, u32)
        requires axis { axis < 3 }
        requires step { pos 1 ≤ℤ step }
        ensures order { result.0 ≤ result.1 }
        ensures within { result.1 ≤ count }
        ensures exact { Selects result.0 result.1
            (λ l. (l < count) × IsTrue (is_near_on self.now axis (origin +ℤ (pos l *ℤ step)))) }
    {
        let step = u64::from(step.unsigned_abs());
        let first = steps_up_to(self.to_lowest(axis, origin), step).min(u64::from(count)) as u32;
        let end = steps_within(self.to_highest(axis, origin), step).min(u64::from(count)) as u32;
        (first, end.max(first))
    }

    /// The distance from a coordinate up to the lowest one within reach.
    fn to_lowest(&self, axis: usize, x: i32) -> i64
        requires { axis < 3 }
        ensures { let end = int_min (at self.now.from axis) (at self.now.to axis) in
            result ≡ (end -ℤ self.now.reach) -ℤ x }
    {
        let end = self.from[axis].min(self.to[axis]);
        i64::from(end) - i64::from(self.reach) - i64::from(x)
    }

    /// The distance from a coordinate up to the highest one within reach.
    fn to_highest(&self, axis: usize, x: i32) -> i64
        requires { axis < 3 }
        ensures { let end = int_max (at self.now.from axis) (at self.now.to axis) in
            result ≡ (end +ℤ self.now.reach) -ℤ x }
    {
        let end = self.from[axis].max(self.to[axis]);
        i64::from(end) + i64::from(self.reach) - i64::from(x)
    }
}

/// The least number of steps that come up to a distance.
fn steps_up_to(distance: i64, step: u64) -> u64
    requires { 0 < step }
    ensures { (l : ℕ) → (result ≤ l) ↔ (distance ≤ℤ pos (l * step)) }
{
    if distance <= 0 {
        return 0;
    }
    distance.unsigned_abs().div_ceil(step)
}

/// How many numbers of steps, from none on, don't go past a distance.
fn steps_within(distance: i64, step: u64) -> u64
    requires { 0 < step }
    ensures { (l : ℕ) → (l < result) ↔ (pos (l * step) ≤ℤ distance) }
{
    if distance < 0 {
        return 0;
    }
    distance.unsigned_abs() / step + 1
}
