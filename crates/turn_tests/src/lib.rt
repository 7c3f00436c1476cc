//! Tests of turns of strips, over the small job: orders of steps, versions looked back at, tickets of two threads, crews.
#![tactic(auto)]

#[cfg(test)]
mod again;
#[cfg(test)]
mod ahead;
#[cfg(test)]
mod boards;
#[cfg(test)]
mod crews;
#[cfg(test)]
mod long_ray;
#[cfg(test)]
mod looked_back;
#[cfg(test)]
mod meeting;
#[cfg(test)]
mod orders;
#[cfg(test)]
mod passing;
#[cfg(test)]
mod tickets;
#[cfg(test)]
mod versions;
