//! The text of a saved stock: which points of each ray of a grid are left, read and written.
#![tactic(auto)]

mod fault;
mod grid_line;
mod laws;
mod line;
mod numbers;
mod ray_set;
mod rays;
mod read;
mod same_grids;
mod stock;
mod text;
mod words;

pub use fault::{StockEnd, StockFault, StockWhy};
pub use laws::laws_of_texts;
pub use rays::{FIRST_RAY, count_rays, ray_after};
pub use read::{MAX_STOCK_BYTES, fits_stock, read_stock};
pub use same_grids::{has_same_steps, is_same_grid};
pub use stock::SavedStock;
pub use text::has_three_axes;
