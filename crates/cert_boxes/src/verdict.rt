use ray_grid::Ray;

/// What a certificate comes to.
#[derive(Clone, Copy)]
pub enum Verdict {
    /// Each box holds, and each point that has to be covered is.
    Accepted,
    /// The box of the cell on this line does not exclude some slab: the first such line.
    BoxStands { line: u64 },
    /// The first point, in the order of the lattice, that has to be covered and isn't.
    Uncovered { ray: Ray, l: u32 },
}
