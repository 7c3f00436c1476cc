ghost use Rattle.std.specs.Prelude.{◌≡◌, ℕ, ◌<◌, IsTrue, IfOk, length};
ghost use Rattle.std.specs.List.{range_with_len};
ghost use Rattle.job_counts.specs.Holder.{is_holder_clear};
ghost use Rattle.holder_check.specs.Contacts.{IsKeptOff, holder_findings, holder_seen_at};

use crate::marks::HolderMarks;
use job_counts::HolderCounts;
use vf_io::NoMemory;
use vf_spans::Spans;

/// What the holder of a move meets on a ray, by its marks there, the ray's bodies, the points of which some earlier move was sure, and
/// those at which this move or an earlier one was possible. It takes no memory, so the answer is never `NoMemory`.
pub fn holder_counts(
    marks: &HolderMarks,
    stock: &Spans,
    part: &Spans,
    fixture: &Spans,
    sure_before: &Spans,
    possible_after: &Spans,
) -> Result<HolderCounts, NoMemory>
    requires sure { length marks.now.sure ≡ length stock.now }
    requires possible { length marks.now.possible ≡ length stock.now }
    requires part { length part.now ≡ length stock.now }
    requires fixture { length fixture.now ≡ length stock.now }
    requires before { length sure_before.now ≡ length stock.now }
    requires after { length possible_after.now ≡ length stock.now }
    ensures counts { let seen = holder_seen_at marks.now stock.now part.now fixture.now sure_before.now possible_after.now in
        result ≡ Ok (holder_findings seen (range_with_len 0 (length stock.now))) }
    // Where the holder may meet nothing, it keeps off all that is there at each point of the ray.
    ensures clear { let seen = holder_seen_at marks.now stock.now part.now fixture.now sure_before.now possible_after.now in
        IfOk result (λ counts. IsTrue (is_holder_clear counts) → (i : ℕ) → i < length stock.now → IsKeptOff (seen i)) }
{
    Ok(HolderCounts {
        part_sure: u64::from(part.count_meet(&marks.sure)),
        part_possible: u64::from(part.count_meet(&marks.possible)),
        fix_sure: u64::from(fixture.count_meet(&marks.sure)),
        fix_possible: u64::from(fixture.count_meet(&marks.possible)),
        stock_sure: u64::from(stock.count_meet_minus(&marks.sure, possible_after)),
        stock_possible: u64::from(stock.count_meet_minus(&marks.possible, sure_before)),
    })
}
