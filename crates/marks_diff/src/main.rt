//! Marks the points of the rays of a small plate by each of the fast bodies and by the plain one, and prints how many differ.
#![tactic(auto)]

mod boxes;
mod case;
mod compare;
mod jobs;
mod long_ray;
mod print;
mod sets;
mod tally;
mod word_marks;
mod words;

use crate::jobs::{JOBS, compare_job};
use crate::long_ray::long_counts;
use crate::print::{print_job, print_long_ray, print_total};
use crate::tally::Tally;
use std::io;

fn main(rt: HostRuntime) -> io::Result<()> {
    let mut total = Tally::NONE;
    for (before, job) in JOBS.iter().enumerate() {
        for depth in 0..4 {
            let (sure, possible) = (total.sure, total.possible);
            if compare_job(rt.alloc(), job, depth, &mut total).is_err() {
                return println!(rt; "no memory");
            }
            print_job(
                &rt,
                before.wrapping_add(1),
                depth,
                total.sure.wrapping_sub(sure),
                total.possible.wrapping_sub(possible),
            )?;
        }
    }
    let Ok(counts) = long_counts(rt.alloc()) else {
        return println!(rt; "no memory");
    };
    print_long_ray(&rt, counts)?;
    print_total(&rt, &total)
}
