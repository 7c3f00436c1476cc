ghost use Rattle.setup_file.specs.Sound.{IsSetup};

use crate::line::Word::{Count, Number, Text};
use crate::line::{write_line, write_words};
use itoa::Buffer;
use ray_grid::Turn;
use ray_shapes::{Body, Plane};
use setup_file::{Setup, shifted};
use std::alloc::Global;
use vf_io::NoMemory;
use vf_text::Page;

/// A line for each fact of a setup: the grid, the check, the tool, and each plane of each body, the part lowered by the
/// tolerance and the fixtures raised by the clearance, and how the part is turned.
pub(crate) fn setup_text(alloc: Global, setup: &Setup) -> Result<Vec<u8>, NoMemory>
    requires { IsSetup setup.now }
{
    let mut page = Page::new(alloc);
    page.text(b"inputs_dump setup 1\n")?;
    write_grid(&mut page, setup)?;
    write_check(&mut page, setup)?;
    write_tool(&mut page, setup)?;
    write_bodies(&mut page, b"stock ", setup.stock.as_slice())?;
    let part = shifted(alloc, setup.part.as_slice(), -setup.tolerance)?;
    write_bodies(&mut page, b"part ", part.as_slice())?;
    let fixture = shifted(alloc, setup.fixture.as_slice(), setup.clearance)?;
    write_bodies(&mut page, b"fixture ", fixture.as_slice())?;
    write_turn(&mut page, &setup.turn)?;
    Ok(page.into_vec())
}

/// How many bodies there are, of stock, part and fixture.
pub(crate) fn setup_counts(alloc: Global, setup: &Setup) -> Result<Vec<u8>, NoMemory> {
    let mut page = Page::new(alloc);
    let stock = Count(setup.stock.as_slice().len());
    let part = Count(setup.part.as_slice().len());
    let fixture = Count(setup.fixture.as_slice().len());
    let words = [
        Text(b"stock "),
        stock,
        Text(b" part "),
        part,
        Text(b" fixture "),
        fixture,
    ];
    write_line(&mut page, &words)?;
    Ok(page.into_vec())
}

fn write_grid(page: &mut Page, setup: &Setup) -> Result<(), NoMemory> {
    page.text(b"grid.origin")?;
    page.point(&setup.grid.origin)?;
    page.end_line()?;
    write_line(page, &[Text(b"grid.pitch "), Number(setup.grid.pitch)])?;
    write_line(page, &[Text(b"grid.step "), Number(setup.grid.step)])?;
    let [x, y, z] = setup.grid.counts;
    let (x, y, z) = (Count(x as usize), Count(y as usize), Count(z as usize));
    write_line(
        page,
        &[Text(b"grid.counts "), x, Text(b" "), y, Text(b" "), z],
    )
}

fn write_check(page: &mut Page, setup: &Setup) -> Result<(), NoMemory> {
    write_line(page, &[Text(b"check.tolerance "), Number(setup.tolerance)])?;
    write_line(page, &[Text(b"check.clearance "), Number(setup.clearance)])?;
    write_line(page, &[Text(b"check.slabs "), Count(setup.slabs as usize)])?;
    write_line(page, &[Text(b"check.depth "), Count(setup.depth as usize)])
}

fn write_tool(page: &mut Page, setup: &Setup) -> Result<(), NoMemory> {
    write_line(page, &[Text(b"tool.diameter "), Number(setup.tool.d)])?;
    write_line(page, &[Text(b"tool.radius "), Number(setup.tool.r)])?;
    write_line(page, &[Text(b"tool.height "), Number(setup.tool.h)])
}

/// The old axis of each new one, which are negated, and how far it is moved; no line where there is no turn.
fn write_turn(page: &mut Page, turn: &Option<Turn>) -> Result<(), NoMemory> {
    let Some(turn) = turn else {
        return Ok(());
    };
    page.text(b"turn")?;
    for n in 0..3 {
        let sign: &[u8] = if turn.neg[n] { b" -" } else { b" +" };
        write_words(page, &[Text(sign), Count(turn.axis[n] as usize)])?;
    }
    page.point(&turn.shift)?;
    page.end_line()
}

/// A line with the number of the bodies, and one for each plane, with the number of its body from 1.
fn write_bodies(page: &mut Page, list: &[u8], bodies: &[Body]) -> Result<(), NoMemory> {
    write_line(page, &[Text(list), Count(bodies.len())])?;
    for (before, body) in bodies.iter().enumerate() {
        for plane in body.planes() {
            write_words(page, &[Text(list), Count(before + 1)])?;
            write_plane(page, plane)?;
        }
    }
    Ok(())
}

fn write_plane(page: &mut Page, plane: &Plane) -> Result<(), NoMemory> {
    page.text(b" plane")?;
    page.point(&[plane.a, plane.b, plane.c])?;
    write_line(
        page,
        &[Text(b" "), Text(Buffer::new().format(plane.d).as_bytes())],
    )
}
