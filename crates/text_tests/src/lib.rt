//! Tests of texts: lines, records, certificates, saved stock, words of `verify`, listings, refusals, reports, a generated program, tasks.
#![tactic(auto)]

#[cfg(test)]
mod certificates;
#[cfg(test)]
mod listings;
#[cfg(test)]
mod made_moves;
#[cfg(test)]
mod pieces;
#[cfg(test)]
mod record_texts;
#[cfg(test)]
mod refusals;
#[cfg(test)]
mod reports;
#[cfg(test)]
mod stocks;
#[cfg(test)]
mod tasks;
#[cfg(test)]
mod verify_calls;
