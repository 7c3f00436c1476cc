use crate::tally::Tally;
use std::io;

/// Prints how many points a job leaves sure and possible at a depth.
pub(crate) fn print_job(
    rt: &impl Print,
    job: usize,
    depth: u32,
    sure: u64,
    possible: u64,
) -> io::Result<()> {
    println!(rt; "job {job} depth {depth} sure {sure} possible {possible}")
}

pub(crate) fn print_long_ray(rt: &impl Print, counts: (u32, u32, u32)) -> io::Result<()> {
    let (points, sure, possible) = counts;
    println!(rt; "long ray points {points} sure {sure} possible {possible}")
}

/// Prints what was counted over all rays.
pub(crate) fn print_total(rt: &impl Print, total: &Tally) -> io::Result<()> {
    print_counts(rt, total)?;
    print_differences(rt, total)?;
    println!(rt; "possible outside of all boxes {}", total.outside)
}

fn print_counts(rt: &impl Print, total: &Tally) -> io::Result<()> {
    println!(rt;
        "rays {} points {} sure {} possible {} in boxes {}",
        total.rays, total.points, total.sure, total.possible, total.boxed
    )
}

fn print_differences(rt: &impl Print, total: &Tally) -> io::Result<()> {
    println!(rt;
        "differences by points {} by sets {} by words {}",
        total.of_points, total.of_sets, total.of_words
    )
}
