ghost use Rattle.std.specs.Prelude.{◌+◌, ◌-◌, ◌*◌, ◌≤◌, All, IsTrue, List, IfOk, length};
ghost use Rattle.std.specs.List.{AllWithin};
ghost use Rattle.std.specs.Option.{IfSome};
ghost use Rattle.edit_plan.specs.declared.edit.Edit.{Edit};
ghost use Rattle.edit_plan.specs.Edits.{AppliesBelow};
ghost use Rattle.strip_plan.specs.declared.index_box.IndexBox.{IndexBox};
ghost use Rattle.strip_plan.specs.Untouched.{AppliesNone, AreGroups, HasNone, IsAppliedIn};

use crate::index_box::IndexBox;
use crate::strip_range::StripRange;
use edit_plan::Edit;
use ray_grid::Family;
use std::alloc::Global;
use vf_io::NoMemory;

/// How many edits in a row make a group: as many as a strip's turn has. It only matters for speed, but `AreGroups` says 8 too.
const GROUP: usize = 8;

/// The least box that holds the hulls of the moves that edits apply, where each applies one.
fn group_of(hulls: &[IndexBox], edits: &[Edit]) -> Option<IndexBox>
    requires { All (AppliesBelow (length hulls.now)) edits.now }
    ensures { IfSome result (λ group. AllWithin (IsAppliedIn hulls.now group) edits.now 0 (length edits.now)) }
{
    let mut group = IndexBox::none();
    for edit in edits {
        match *edit {
            Edit::Apply(number) => group = group.hull(&hulls[number as usize]),
            Edit::Undo | Edit::Redo => return None,
        }
    }
    Some(group)
}

/// The boxes of the groups of edits: of the first eight, of the eight after them, and so on. One in which an edit applies no move has
/// none, and edits after the last full group have none either: they are tested one by one, which costs only time.
pub fn groups_of(
    alloc: Global,
    hulls: &[IndexBox],
    edits: &[Edit],
) -> Result<Vec<Option<IndexBox>>, NoMemory>
    requires { All (AppliesBelow (length hulls.now)) edits.now }
    ensures { IfOk result (λ groups. AreGroups hulls.now edits.now groups.items) }
{
    let mut groups = Vec::new(alloc);
    for number in 0..edits.len() / GROUP {
        let first = number * GROUP;
        groups.push(group_of(hulls, &edits[first..first + GROUP]))?;
    }
    Ok(groups)
}

/// Whether a box has nothing in a strip: in that of a family's rays with the first node `i`.
#[inline]
fn is_off(held: &IndexBox, family: Family, i: u32) -> bool
    ensures { IsTrue result → HasNone held.now family i }
{
    let window = held.in_strip(family, i, StripRange::Rays);
    window.0 == window.1
}

/// Whether an edit applies a move of whose boxes the hull leaves a strip alone: that of a family's rays with the first node `i`.
#[inline]
fn is_untouched(hulls: &[IndexBox], edit: Edit, family: Family, i: u32) -> bool
    requires { AppliesBelow (length hulls.now) edit }
    ensures { IsTrue result → AppliesNone hulls.now family i edit }
{
    match edit {
        Edit::Apply(number) => is_off(&hulls[number as usize], family, i),
        Edit::Undo | Edit::Redo => false,
    }
}

/// Whether there is a group of a number, and its box leaves the strip alone of a family's rays with the first node `i`: then so do its
/// edits.
#[inline]
fn is_group_untouched(groups: &[Option<IndexBox>], number: usize, family: Family, i: u32) -> bool
    ensures { (hulls : List IndexBox) (edits : List Edit) → AreGroups hulls edits groups.now → IsTrue result
        → AllWithin (AppliesNone hulls family i) edits (8 * number) (8 * number + 8) }
{
    if number >= groups.len() {
        return false;
    }
    match &groups[number] {
        Some(group) => is_off(group, family, i),
        None => false,
    }
}

/// How many of the edits from one on and below another, one after the other, leave the strip alone of a family's rays with the first
/// node `i`. A move of several boxes does so only if their hull does, and eight edits do so if the box of their group does: so one test
/// is enough for each edit, and mostly for eight.
pub fn count_untouched(
    hulls: &[IndexBox],
    groups: &[Option<IndexBox>],
    edits: &[Edit],
    from: usize,
    to: usize,
    family: Family,
    i: u32,
) -> usize
    requires named { All (AppliesBelow (length hulls.now)) edits.now }
    requires groups { AreGroups hulls.now edits.now groups.now }
    requires order { from ≤ to }
    requires within { to ≤ length edits.now }
    ensures within { result ≤ to - from }
    ensures alone { AllWithin (AppliesNone hulls.now family i) edits.now from (from + result) }
{
    let mut at = from;
    while at < to {
        if at % GROUP == 0
            && GROUP <= to - at
            && is_group_untouched(groups, at / GROUP, family, i)
        {
            at += GROUP;
        } else if is_untouched(hulls, edits[at], family, i) {
            at += 1;
        } else {
            break;
        }
    }
    at - from
}
