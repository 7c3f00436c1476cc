//! Tests of the lowest crates: shelves, sinks, sets, tangents, roots, the slabs of a cutter, windows, bodies on rays, counts, and one ray.
#![tactic(auto)]

#[cfg(test)]
mod bodies;
#[cfg(test)]
mod calls;
#[cfg(test)]
mod counts;
#[cfg(test)]
mod cut_shelves;
#[cfg(test)]
mod dexels;
#[cfg(test)]
mod folders;
#[cfg(test)]
mod grids;
#[cfg(test)]
mod lines_put;
#[cfg(test)]
mod outputs;
#[cfg(test)]
mod roots;
#[cfg(test)]
mod shelves;
#[cfg(test)]
mod sinks;
#[cfg(test)]
mod slabs;
#[cfg(test)]
mod spans;
#[cfg(test)]
mod tangents;
#[cfg(test)]
mod turns;
#[cfg(test)]
mod whole_files;
