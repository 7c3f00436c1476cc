ghost use Rattle.std.specs.Prelude.{◌≡◌, ◌^◌, ◌<◌, ◌≤◌, All, Some, IfOk, OnOk, length, map, slice_get};
ghost use Rattle.edit_plan.specs.Limits.{most_script_moves};
ghost use Rattle.job_model.specs.Holders.{holder_move};
ghost use Rattle.strip_plan.specs.Holders.{AreHoldersOf, AreNear, FitsAbove, IsTakenIn};

use crate::boxes::boxes_of;
use crate::cutters::cutters_of;
use crate::draft::PlanDraft;
use crate::index_box::IndexBox;
use crate::plan::Plan;
use crate::plan_move::PlanMove;
use edit_plan::Edits;
use holder_check::Holder;
use std::alloc::Global;
use std::marker::Model;
use vf_io::NoMemory;

/// The holders above the cutters of a plan's moves, as moves of a plan of their own that has no edits: of those moves whose holder's boxes
/// have a point of the lattice. Of most jobs that is none.
#[derive(Drop)]
pub struct HolderPlan {
    plan: Plan,
    places: Vec<Option<u32>>,
}

impl Model for HolderPlan {
    ghost use Rattle.strip_plan.specs.Holders.{HolderPlanOf};

    ghost Value = { HolderPlanOf };

    ghost view = { λ h. record { plan = h.plan; places = h.places.items } };
}

/// Holders whose boxes have a point, and of each move the number that its holder has among them, if it has one.
#[derive(Drop)]
pub(crate) struct NearHolders {
    moves: Vec<PlanMove>,
    places: Vec<Option<u32>>,
}

/// The holders of moves.
fn holders_of(alloc: Global, moves: &[PlanMove], holder: &Holder) -> Result<Vec<PlanMove>, NoMemory>
    requires { All (FitsAbove holder.now) moves.now }
    ensures { IfOk result (λ made. made.items ≡ map (holder_move holder.now) moves.now) }
{
    let mut made = Vec::with_capacity(alloc, moves.len())?;
    for n in 0..moves.len() {
        made.push(moves[n].of_holder(holder))?;
    }
    Ok(made)
}

/// Takes in one more holder with the box that holds its boxes.
fn take_in(near: &mut NearHolders, next: PlanMove, held: &IndexBox) -> Result<(), NoMemory>
    requires { length near.old.moves.items < 2 ^ 32 }
    ensures { OnOk result (IsTakenIn near.old near.new next held.now) }
{
    if held.is_empty() {
        near.places.push(None)?;
        return Ok(());
    }
    let place = near.moves.len() as u32;
    near.moves.push(next)?;
    near.places.push(Some(place))?;
    Ok(())
}

/// Which of the holders have a point in the box that holds their boxes.
fn near_holders(
    alloc: Global,
    moves: &[PlanMove],
    hulls: &[IndexBox],
) -> Result<NearHolders, NoMemory>
    requires many { length hulls.now ≡ length moves.now }
    requires few { length moves.now ≤ most_script_moves }
    ensures { IfOk result (λ near. AreNear moves.now hulls.now near.moves.items near.places.items (length moves.now)) }
{
    let places = Vec::with_capacity(alloc, moves.len())?;
    let mut near = NearHolders {
        moves: Vec::new(alloc),
        places,
    };
    for n in 0..moves.len() {
        take_in(&mut near, moves[n], &hulls[n])?;
    }
    Ok(near)
}

impl HolderPlan {
    /// The holders of a draft's moves, for as many slabs. Fails only when out of memory.
    pub fn new(alloc: Global, draft: &PlanDraft, holder: &Holder) -> Result<HolderPlan, NoMemory>
        requires { All (FitsAbove holder.now) draft.now.moves }
        ensures { IfOk result (AreHoldersOf draft.now holder.now) }
    {
        let all = holders_of(alloc, &draft.moves, holder)?;
        let slabs = draft.cutters.slabs;
        let cutters = cutters_of(alloc, &all, slabs)?;
        let boxes = boxes_of(alloc, &draft.grid, draft.depth, &all, &cutters)?;
        let NearHolders { moves, places } = near_holders(alloc, &all, &boxes.hulls)?;
        let plan = Plan::new(
            alloc,
            draft.grid,
            slabs,
            draft.depth,
            moves,
            Edits::new(alloc),
        )?;
        Ok(HolderPlan { plan, places })
    }

    /// The plan of the holders.
    pub fn plan(&self) -> &Plan
        ensures { result.now ≡ self.now.plan }
    {
        &self.plan
    }

    /// The number in that plan of the holder of a move, if it has one. The number is the move's in its own plan.
    pub fn place(&self, number: u32) -> Option<u32>
        requires { number < length self.now.places }
        ensures { slice_get self.now.places number ≡ Some result }
    {
        self.places[number as usize]
    }
}
