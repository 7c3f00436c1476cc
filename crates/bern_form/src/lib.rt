//! Integer roots, coefficient forms with exact products and signs, slabs, and one point's marks over plain numbers.
#![tactic(auto)]

mod form;
mod grid;
mod product;
mod root;
mod sign;
mod slab;

pub use form::{Form1, Form2, Form4};
pub use grid::{Grid21, Grid42};
pub use product::{lift24, minus4, plus2, scale2, scale4, times11, times22};
pub use root::{isqrt_ceil, isqrt_floor};
pub use slab::Slab;
