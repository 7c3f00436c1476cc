mod box_forms;
mod box_limits;
mod flags;
mod ray_box;
mod ray_marks;
mod search;

pub use ray_marks::{RayMarks, mark_ray};
