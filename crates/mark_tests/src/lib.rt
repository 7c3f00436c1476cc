//! Tests of the marks of points: cylinders, runs, words of a ray, plans, the moves of a file, and the holder.
#![tactic(auto)]

#[cfg(test)]
mod bands;
#[cfg(test)]
mod cylinders;
#[cfg(test)]
mod files;
#[cfg(test)]
mod holders;
#[cfg(test)]
mod plans;
#[cfg(test)]
mod runs;
#[cfg(test)]
mod words;
