/// The axis along which a ray runs.
#[derive(Clone, Copy)]
pub enum Family {
    X,
    Y,
    Z,
}

impl Family {
    ghost use Rattle.std.specs.Prelude.{◌≡◌, ◌<◌};
    ghost use Rattle.ray_grid.specs.Families.{ray_axis, first_axis, second_axis};

    /// The axis along which its rays run.
    pub(crate) fn axis(self) -> usize
        ensures axis { result ≡ ray_axis self }
        ensures three { result < 3 }
    {
        match self {
            Family::X => 0,
            Family::Y => 1,
            Family::Z => 2,
        }
    }

    /// The axis of a ray's node `i`.
    pub(crate) fn first_axis(self) -> usize
        ensures axis { result ≡ first_axis self }
        ensures three { result < 3 }
    {
        match self {
            Family::X => 1,
            Family::Y | Family::Z => 0,
        }
    }

    /// The axis of a ray's node `j`.
    pub(crate) fn second_axis(self) -> usize
        ensures axis { result ≡ second_axis self }
        ensures three { result < 3 }
    {
        match self {
            Family::X | Family::Y => 2,
            Family::Z => 1,
        }
    }
}

/// A ray through the nodes `i` and `j` of the two other axes, in the order x, y, z.
///
/// A ray along z has the x node `i` and the y node `j`; along x, the y node `i` and the z node `j`;
/// along y, the x node `i` and the z node `j`.
#[derive(Clone, Copy)]
pub struct Ray {
    pub family: Family,
    pub i: u32,
    pub j: u32,
}
