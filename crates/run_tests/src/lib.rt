//! Tests of the verifier over files in memory: the words of each command, marks, reports, calls that fail, crews and verdicts.
#![tactic(auto)]

#[cfg(test)]
mod answered;
#[cfg(test)]
mod crews;
#[cfg(test)]
mod faults;
#[cfg(test)]
mod points;
#[cfg(test)]
mod reports;
#[cfg(test)]
mod verdicts;
#[cfg(test)]
mod words;
