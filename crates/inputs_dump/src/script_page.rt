use crate::line::Word::{Count, Text};
use crate::line::{write_line, write_words};
use edit_plan::{Ask, Edit, Query, Script};
use ray_grid::{Family, Ray};
use std::alloc::Global;
use vf_io::NoMemory;
use vf_text::Page;

/// How many moves are left, and how many are dropped.
#[derive(Clone, Copy)]
struct Depths {
    left: u32,
    dropped: u32,
}

impl Depths {
    const NONE: Depths = Depths {
        left: 0,
        dropped: 0,
    };

    /// The same after an edit.
    fn after(self, edit: Edit) -> Depths {
        match edit {
            Edit::Apply(_) => Depths {
                left: self.left.saturating_add(1),
                dropped: 0,
            },
            Edit::Undo => Depths {
                left: self.left.saturating_sub(1),
                dropped: self.dropped.saturating_add(1),
            },
            Edit::Redo => Depths {
                left: self.left.saturating_add(1),
                dropped: self.dropped.saturating_sub(1),
            },
        }
    }
}

/// A line for each edit, with how many moves are left and dropped after it, one for each query, and the counts.
pub(crate) fn script_text(alloc: Global, script: &Script) -> Result<Vec<u8>, NoMemory> {
    let mut page = Page::new(alloc);
    page.text(b"inputs_dump script 1\n")?;
    let mut depths = Depths::NONE;
    for (before, edit) in script.edits.as_slice().iter().enumerate() {
        depths = depths.after(*edit);
        write_words(&mut page, &[Text(b"edit "), Count(before + 1)])?;
        write_edit(&mut page, *edit)?;
        write_depths(&mut page, depths)?;
    }
    for query in script.queries.as_slice() {
        write_query(&mut page, query)?;
    }
    write_counts(&mut page, script)?;
    Ok(page.into_vec())
}

/// Only the counts.
pub(crate) fn script_counts(alloc: Global, script: &Script) -> Result<Vec<u8>, NoMemory> {
    let mut page = Page::new(alloc);
    write_counts(&mut page, script)?;
    Ok(page.into_vec())
}

/// Writes an edit, a move's number from 1.
fn write_edit(page: &mut Page, edit: Edit) -> Result<(), NoMemory> {
    match edit {
        Edit::Apply(number) => write_words(page, &[Text(b" apply "), Count(number as usize + 1)]),
        Edit::Undo => page.text(b" undo"),
        Edit::Redo => page.text(b" redo"),
    }
}

fn write_depths(page: &mut Page, depths: Depths) -> Result<(), NoMemory> {
    let left = Count(depths.left as usize);
    let dropped = Count(depths.dropped as usize);
    write_line(page, &[Text(b" left "), left, Text(b" dropped "), dropped])
}

fn write_query(page: &mut Page, query: &Query) -> Result<(), NoMemory> {
    write_words(page, &[Text(b"version "), Count(query.version as usize)])?;
    match query.ask {
        Ask::Probe { ray, l } => write_probe(page, ray, l),
        Ask::Count => write_line(page, &[Text(b" count")]),
    }
}

fn write_probe(page: &mut Page, ray: Ray, l: u32) -> Result<(), NoMemory> {
    let family = match ray.family {
        Family::X => Text(b" probe X "),
        Family::Y => Text(b" probe Y "),
        Family::Z => Text(b" probe Z "),
    };
    let i = Count(ray.i as usize);
    let j = Count(ray.j as usize);
    let l = Count(l as usize);
    write_line(page, &[family, i, Text(b" "), j, Text(b" "), l])
}

fn write_counts(page: &mut Page, script: &Script) -> Result<(), NoMemory> {
    let mut depths = Depths::NONE;
    for edit in script.edits.as_slice() {
        depths = depths.after(*edit);
    }
    let edits = Count(script.edits.len());
    let queries = Count(script.queries.len());
    write_words(page, &[Text(b"edits "), edits, Text(b" queries "), queries])?;
    write_depths(page, depths)
}
