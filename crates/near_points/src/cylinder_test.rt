ghost use Rattle.std.specs.Prelude.{◌≡◌, ◌*ℤ◌, ◌-ℤ◌, ◌≤ℤ◌, ◌&&◌, int_le, pos};

use sweep_boxes::BoundingCylinder;

/// What holds a point in a cylinder: the least and the most of its height, how far from zero what of its moment is along the side may
/// be, the moment that its moment is not longer than, and the square of that.
#[derive(Drop)]
pub struct CylinderTest {
    pub least: i64,
    pub most: i64,
    pub across: i64,
    pub moment: i64,
    pub square: i128,
    ghost across_some: { pos 0 ≤ℤ across },
    ghost square_is: { square ≡ moment *ℤ moment },
    ghost moment_some: { pos 0 ≤ℤ moment },
}

impl CylinderTest {
    ghost use Rattle.near_points.specs.Ready.{IsTestOf};

    /// Of a cylinder where it is widest, in the units of the cylinder.
    pub fn of_cylinder(cylinder: &BoundingCylinder) -> CylinderTest
        ensures { IsTestOf result cylinder.now }
    {
        let moment = i128::from(cylinder.moment);
        CylinderTest {
            least: cylinder.least,
            most: cylinder.most,
            across: cylinder.across,
            moment: cylinder.moment,
            square: moment * moment,
        }
    }

    /// Whether a point with this square of the moment isn't too far from the axis to be held.
    #[inline]
    pub fn has_width(&self, width: i128) -> bool
        ensures { result ≡ int_le width self.now.square }
    {
        width <= self.square
    }

    /// Whether a point at this height is high enough to be held, and low enough.
    #[inline]
    pub fn has_height(&self, height: i64) -> bool
        ensures { result ≡ (int_le self.now.least height && int_le height self.now.most) }
    {
        if height < self.least {
            return false;
        }
        height <= self.most
    }

    /// Whether a point whose moment has this much along the side isn't too far to either side to be held.
    #[inline]
    pub fn has_side(&self, side: i64) -> bool
        ensures { result ≡ (int_le (pos 0 -ℤ self.now.across) side && int_le side self.now.across) }
    {
        if side < -self.across {
            return false;
        }
        side <= self.across
    }

    /// Both.
    #[inline]
    pub fn has_place(&self, height: i64, side: i64) -> bool
        ensures { result
            ≡ ((int_le self.now.least height && int_le height self.now.most)
            && (int_le (pos 0 -ℤ self.now.across) side && int_le side self.now.across)) }
    {
        if !self.has_height(height) {
            return false;
        }
        self.has_side(side)
    }
}
