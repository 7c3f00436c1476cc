ghost use Rattle.std.specs.Prelude.{◌+◌, ◌<◌, ◌≤◌, length};
ghost use Rattle.strip_turns.specs.Plays.{IsAlone};
ghost use Rattle.strip_turns.specs.Passes.{IsPass};
ghost use Rattle.worker_gate.specs.Crew.{CanHire};

use crate::again::crew_or_another;
use crate::boards::board;
use crate::meeting::Meeting;
use sample_job::{answers, queries};
use std::alloc::Global;
use std::sync::Wait;
use std::test::Fail;
use std::thread::Threads;
use strip_journal::Strip;
use strip_turns::{Board, Pass};
use vf_io::NoMemory;
use worker_gate::{Gate, Open};

/// Whether the nine strips are at this version.
fn are_at(strips: &[Strip], version: u32) -> bool {
    for strip in strips {
        if strip.done() != version {
            return false;
        }
    }
    strips.len() == 9
}

/// Whether a crew on a board of the small job gives the expected answers.
fn is_told<R: Threads + Wait + Sync, G: Gate + Sync>(
    rt: &R,
    alloc: Global,
    board: &Board,
    pass: &mut Pass,
    workers: u32,
    gate: &G,
) -> Result<bool, NoMemory>
    requires workers { (0 < workers) × (workers ≤ 16) }
    requires ready { CanHire board.now (workers + workers) pass.old }
    requires edits { 5 ≤ length board.now.plan.edits }
    ensures pass { IsPass board.now pass.new }
    ensures alone { IsAlone pass.new.seat.me.0 }
{
    let queries = queries(alloc, board.plan())?;
    let told = crew_or_another(rt, alloc, board, pass, &queries, workers, gate)?;
    Ok(told.as_slice() == answers().as_slice())
}

/// Has a crew work on a board of the small job, with `rounds` rounds of edits, and closes the board. Whether it gave the expected
/// answers, and left the strips at this version.
fn is_crewed<R: Threads + Wait + Sync, G: Gate + Sync>(
    rt: &R,
    alloc: Global,
    rounds: u32,
    workers: u32,
    gate: &G,
    version: u32,
) -> Result<bool, NoMemory>
    requires rounds { (0 < rounds) × (rounds ≤ 9) }
    requires workers { (0 < workers) × (workers ≤ 16) }
{
    let (board, mut pass) = board(alloc, rounds)?;
    let told = is_told(rt, alloc, &board, &mut pass, workers, gate);
    let strips = board.close(alloc, pass)?;
    Ok(told? && are_at(&strips, version))
}

/// Two workers wait for each other before their first turns, so neither comes on where one thread makes all turns.
#[test]
fn gate_holds(rt: HostRuntime) -> Result<(), Fail> {
    let gate = Meeting::new();
    assert!(rt; is_crewed(&rt, rt.alloc(), 1, 2, &gate, 5)?, "two");
    assert!(rt; gate.took_place());
    Ok(())
}

/// Sixteen workers have three turns of each strip to make.
#[test]
fn sixteen_workers(rt: HostRuntime) -> Result<(), Fail> {
    assert!(rt; is_crewed(&rt, rt.alloc(), 5, 16, &Open, 21)?);
    Ok(())
}
