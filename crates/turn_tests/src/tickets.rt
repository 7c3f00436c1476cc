ghost use Rattle.std.specs.Prelude.{◌≡◌, All, Some, length, true};
ghost use Rattle.ray_grid.specs.Strips.{strips_of};
ghost use Rattle.edit_plan.specs.Queries.{IsQuery};
ghost use Rattle.strip_turns.specs.Passes.{card, IsPass};
ghost use Rattle.strip_turns.specs.Views.{fresh};

use crate::boards::board;
use edit_plan::Query;
use job_counts::Answer;
use sample_job::{answers, queries};
use std::alloc::Global;
use std::sync::Wait;
use std::test::Fail;
use std::thread;
use std::thread::Threads;
use strip_journal::Strip;
use strip_turns::{Board, Pass, Turned};
use vf_io::NoMemory;

/// Draws a hundred tickets, and does nothing else.
fn hundred(board: &Board, pass: &mut Pass) -> [u64; 100]
    requires pass { IsPass board.now pass.old }
    requires none { pass.old.seat.me.0.drawn ≡ 0 }
    ensures pass { IsPass board.now pass.new }
    ensures view { let log = pass.new.seat.me.0.log in pass.new.seat.me.0 ≡ record pass.old.seat.me.0 { drawn = 100; log = log } }
{
    let mut tickets = [0; 100];
    for k in 0..100 {
        tickets[k] = board.claim(pass);
    }
    tickets
}

/// Two threads draw a hundred tickets each.
fn drawn_by_two<R: Threads + Sync>(
    rt: &R,
    board: &Board,
    one: &mut Pass,
    two: &mut Pass,
) -> ([u64; 100], [u64; 100])
    requires one { IsPass board.now one.old }
    requires two { IsPass board.now two.old }
    requires none_by_one { one.old.seat.me.0.drawn ≡ 0 }
    requires none_by_two { two.old.seat.me.0.drawn ≡ 0 }
    ensures one { IsPass board.now one.new }
    ensures two { IsPass board.now two.new }
    ensures view_of_one { let log = one.new.seat.me.0.log in one.new.seat.me.0 ≡ record one.old.seat.me.0 { drawn = 100; log = log } }
    ensures view_of_two { let log = two.new.seat.me.0.log in two.new.seat.me.0 ≡ record two.old.seat.me.0 { drawn = 100; log = log } }
{
    thread::join_mut(
        rt,
        &mut || -> [u64; 100]
            requires { IsPass board.now one.now × (one.now.seat.me.0.drawn ≡ 0) }
            ensures { IsPass board.entry.now one.exit.now × (one.exit.now.seat.me.0
                ≡ record one.entry.now.seat.me.0 { drawn = 100; log = one.exit.now.seat.me.0.log }) }
        { hundred(board, one) },
        &mut || -> [u64; 100]
            requires { IsPass board.now two.now × (two.now.seat.me.0.drawn ≡ 0) }
            ensures { IsPass board.entry.now two.exit.now × (two.exit.now.seat.me.0
                ≡ record two.entry.now.seat.me.0 { drawn = 100; log = two.exit.now.seat.me.0.log }) }
        { hundred(board, two) },
    )
}

/// Asks the queries in order.
fn asked<R: Wait>(
    rt: &R,
    alloc: Global,
    board: &Board,
    pass: &mut Pass,
    queries: &[Query],
) -> Result<Vec<Answer>, NoMemory>
    requires pass { IsPass board.now pass.old }
    requires queries { All (IsQuery board.now.plan.grid (length board.now.plan.edits)) queries.now }
    ensures pass { IsPass board.now pass.new }
{
    let mut answers = Vec::new(alloc);
    for query in queries {
        answers.push(board.ask(rt, pass, query)?)?;
    }
    Ok(answers)
}

/// Whether the tickets of both are 0 to 199, each once.
fn are_all(alloc: Global, one: &[u64; 100], two: &[u64; 100]) -> Result<bool, NoMemory> {
    let mut tickets = Vec::from_slice(alloc, one.as_slice())?;
    tickets.extend_from_slice(two.as_slice())?;
    tickets.sort()?;
    for (k, ticket) in tickets.iter().enumerate() {
        if *ticket != k as u64 {
            return Ok(false);
        }
    }
    Ok(tickets.len() == 200)
}

/// Whether no strip was turned.
fn are_fresh(strips: &[Strip]) -> bool {
    for strip in strips {
        if strip.done() != 0 {
            return false;
        }
    }
    true
}

/// Whether two threads draw all tickets on a board, and turn none of its strips.
fn is_drawn<R: Threads + Sync>(rt: &R, alloc: Global) -> Result<bool, NoMemory> {
    let (board, mut pass) = board(alloc, 1)?;
    let mut other = board.split(&mut pass);
    let (one, two) = drawn_by_two(rt, &board, &mut pass, &mut other);
    board.merge(&mut pass, other);
    let strips = board.close(alloc, pass)?;
    Ok(are_all(alloc, &one, &two)? && are_fresh(&strips))
}

/// The log of both has no bytes, so what `claim` gave is looked at in its place.
#[test]
fn tickets_of_two_threads(rt: HostRuntime) -> Result<(), Fail> {
    assert!(rt; is_drawn(&rt, rt.alloc())?);
    Ok(())
}

/// Whether the first pass draws the first tickets, takes a strip to the end of its edits, and gets the expected answers.
fn are_told<R: Wait>(
    rt: &R,
    alloc: Global,
    board: &Board,
    pass: &mut Pass,
) -> Result<bool, NoMemory>
    requires pass { IsPass board.now pass.old }
    requires view { pass.old.seat.me.0 ≡ fresh true 0 (Some (card board.now)) }
    requires strips { length (strips_of board.now.plan.grid) ≡ 9 }
    requires edits { length board.now.plan.edits ≡ 5 }
    ensures pass { IsPass board.now pass.new }
{
    let tickets = [board.claim(pass), board.claim(pass), board.claim(pass)];
    let turned = board.turn(pass, 0);
    let queries = queries(alloc, board.plan())?;
    let told = asked(rt, alloc, board, pass, &queries)?;
    Ok(
        tickets == [0, 1, 2]
            && turned == Turned::Moved { from: 0, to: 5 }
            && told.as_slice() == answers().as_slice(),
    )
}

/// The same on a board of its own, which the pass finishes.
fn is_told<R: Wait>(rt: &R, alloc: Global) -> Result<bool, NoMemory> {
    let (board, mut pass) = board(alloc, 1)?;
    let told = are_told(rt, alloc, &board, &mut pass)?;
    board.finish(rt, &mut pass)?;
    Ok(told)
}

/// Strip 0 is past all queries except the last two, and the others come to each.
#[test]
fn what_one_pass_is_told(rt: HostRuntime) -> Result<(), Fail> {
    assert!(rt; is_told(&rt, rt.alloc())?);
    Ok(())
}
