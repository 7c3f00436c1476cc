//! The rule of a box in time and along a ray: when a slab is excluded on it for each of its points.
#![tactic(auto)]
