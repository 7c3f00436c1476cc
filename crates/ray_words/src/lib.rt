//! The five sets of a ray: its bodies as ranges, and words of 64 points on the stretch where moves changed something; and rays in a row.
#![tactic(auto)]

mod range_word;
mod settled;
mod strip_rays;
mod word_ray;

pub use strip_rays::StripRays;
pub use word_ray::WordRay;
