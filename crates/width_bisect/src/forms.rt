use bern_form::{Form2, Form4};

/// The forms of a point on a whole move, by its offset p from the tip and the axis a: u = p.a and n = |a|^2, and the width
/// 4 (|p|^2 n - u^2), which is four times the squared distance from the axis times n.
#[derive(Clone, Copy)]
pub struct WholeForms {
    pub u: Form2,
    pub n: Form2,
    pub width: Form4,
}
