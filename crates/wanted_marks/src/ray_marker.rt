use crate::held::{Held, Told};
use crate::line::Line;
use crate::move_marker::MoveMarker;
use crate::near::Near;
use crate::on_stretch::StretchLine;
use crate::sides::{Sides, are_many, is_few};
use crate::word::{WordMarks, asked_at, bits_between, bits_without, chosen_bits};
use crate::word_progress::WordProgress;
use axis_cells::Mark;
use ray_grid::{Grid, Ray};
use ray_runs::OpenStretch;
use std::marker::Model;
use vf_spans::bits::{bits_below, highest_bit, lowest_bit};
use width_bisect::{Asked, Sample};

/// A move of a cutter, ready to mark points of one ray.
#[derive(Drop)]
pub struct RayMarker<'a> {
    mover: &'a MoveMarker<'a>,
    grid: &'a Grid,
    ray: Ray,
    line: Line,
}

impl<'a> Model for RayMarker<'a> {
    ghost use Rattle.wanted_marks.specs.Rays.{RayOf};
    ghost use Rattle.wanted_marks.specs.ReadyRay.{IsReadyRay};

    ghost Value = { RayOf };

    ghost view = { λ s. record { sweep = s.mover.now; grid = s.grid.now; ray = s.ray } };

    ghost invariant = { λ s. IsReadyRay s.line record { sweep = s.mover.now; grid = s.grid.now; ray = s.ray } };
}

impl<'a> RayMarker<'a> {
    ghost use Rattle.std.specs.Prelude.{◌≡◌, ℕ, ◌+◌, ◌-◌, ◌<◌, ◌≤◌, ◌&&◌, pos, not, nat_eq, true, false, IsTrue};
    ghost use Rattle.space.specs.Vectors.{at};
    ghost use Rattle.std.specs.Option.{IfSome, MatchOption};
    ghost use Rattle.ray_grid.specs.Lattice.{IsRay, point_of, points_of};
    ghost use Rattle.vf_spans.specs.Words.{has_bit};
    ghost use Rattle.wanted_marks.specs.Lines.{IsLineOf, height_at, width_at};
    ghost use Rattle.wanted_marks.specs.Nears.{IsNear};
    ghost use Rattle.wanted_marks.specs.Opens.{AreOpenAt, IsOpenAt};
    ghost use Rattle.wanted_marks.specs.Progress.{AreAmong, AreFrom, AreRemoved, FollowsFrom};
    ghost use Rattle.wanted_marks.specs.Rays.{AreOnRay, IsClearOf, IsRemovedBy};
    ghost use Rattle.wanted_marks.specs.Runs.{IsHeldFirst, IsHeldLast, IsRun};
    ghost use Rattle.wanted_marks.specs.Rays.{is_possible_at, is_possible_bit, is_sure_at, is_sure_bit, is_told_bit};
    ghost use Rattle.wanted_marks.specs.StretchLines.{IsStretchLineOf};
    ghost use Rattle.wanted_marks.specs.Told.{tells_possible, tells_sure};

    pub(crate) fn new(mover: &'a MoveMarker<'a>, grid: &'a Grid, ray: Ray) -> RayMarker<'a>
        requires { IsRay grid.now ray }
        ensures { result ≡ record { sweep = mover.now; grid = grid.now; ray = ray } }
    {
        let line = mover.line_of(grid, &ray);
        RayMarker::with_line(mover, grid, ray, line)
    }

    /// With the line through its points.
    pub(crate) fn with_line(
        mover: &'a MoveMarker<'a>,
        grid: &'a Grid,
        ray: Ray,
        line: Line,
    ) -> RayMarker<'a>
        requires ray { IsRay grid.now ray }
        requires line { IsLineOf line record { sweep = mover.now; grid = grid.now; ray = ray } }
        ensures { result ≡ record { sweep = mover.now; grid = grid.now; ray = ray } }
    {
        let _few = grid.points(ray.family);
        RayMarker {
            mover,
            grid,
            ray,
            line,
        }
    }

    /// Whether the points from one index to another are all behind the tip throughout the move, or all beside every outer slab.
    #[inline]
    fn are_missed(&self, l: u32, m: u32) -> bool
        requires order { l ≤ m }
        requires few { m - l < 64 }
        requires within { m < points_of self.now.grid self.now.ray.family }
        ensures { IsTrue result → (x : ℕ) → l ≤ x → x ≤ m → IsClearOf self.now.sweep (point_of self.now.grid self.now.ray x) }
    {
        self.mover.are_missed(&self.line, l, m)
    }

    /// Whether the points of these bits are apart, for which all points from the lowest of them to the highest have to be.
    #[inline]
    fn are_bits_missed(&self, first: u32, bits: u64) -> bool
        requires { AreOnRay self.now first bits }
        ensures { IsTrue result → (b : ℕ) → b < 64 → has_bit bits b ≡ true
            → IsClearOf self.now.sweep (point_of self.now.grid self.now.ray (first + b)) }
    {
        // Reading a field gives the prover the type's invariant: the points are few.
        let _few = &self.ray;
        if bits == 0 {
            return true;
        }
        self.are_missed(first + lowest_bit(bits), first + highest_bit(bits))
    }

    /// The mark of the point at an index, which its last sample doesn't decide, by the line through the points. `near` is the number of
    /// a slab to look from. It is a function of its own, for most points are decided before.
    #[inline(never)]
    fn mark_further(&self, line: &Line, l: u32, last: &Sample, near: usize, asked: Asked) -> Mark
        requires within { l < points_of self.now.grid self.now.ray.family }
        requires line { IsLineOf line.now self.now }
        requires u { last.now.u ≡ height_at line.now 2 (pos l) }
        requires width { last.now.width ≡ at (width_at line.now (pos l)) 4 }
        ensures sure { tells_sure result ≡ is_sure_at self.now l }
        ensures possible { asked ≡ Asked.Whole → tells_possible result ≡ is_possible_at self.now l }
    {
        let Some(high) = self.mover.slab_above(line, l, last, near) else {
            return Mark::Clear;
        };
        if self.mover.is_held_first(line, l, near) {
            return Mark::Removed;
        }
        let point = self.grid.point(&self.ray, l);
        self.mover.mark_on(line, l, point, high, asked)
    }

    /// The answer for the point at an index. `near` is the slab that was looked for last; where the
    /// slab at the point's height is looked for, it replaces `near`.
    #[inline]
    fn mark_at(&self, l: u32, near: &mut Near, asked: Asked) -> Told
        requires within { l < points_of self.now.grid self.now.ray.family }
        requires near { IsNear near.old self.now.sweep }
        ensures near { IsNear near.new self.now.sweep }
        ensures sure { tells_sure result.mark ≡ is_sure_at self.now l }
        ensures possible { asked ≡ Asked.Whole → tells_possible result.mark ≡ is_possible_at self.now l }
        ensures index { IfSome result.held (λ held. held.index ≡ l) }
        ensures held { IfSome result.held (λ held. IsHeldLast held self.now) }
    {
        let line = &self.line;
        let last = self.mover.last_sample(line, l);
        if self.mover.is_missed(line, l, &last) {
            return Told {
                mark: Mark::Clear,
                held: None,
            };
        }
        if self.mover.is_held_last(&last, near) {
            return Told {
                mark: Mark::Removed,
                held: Some(Held {
                    index: l,
                    sample: last,
                    bounds: near.bounds,
                }),
            };
        }
        Told {
            mark: self.mark_further(line, l, &last, near.reached, asked),
            held: None,
        }
    }

    /// Whether the points from one that is held at its last sample to another are all sure.
    #[inline]
    fn is_run(&self, low: &Held, high: &Held) -> bool
        requires low { IsHeldLast low.now self.now }
        requires high { IsHeldLast high.now self.now }
        ensures { IsTrue result → IsRun self.now low.now.index high.now.index }
    {
        // Reading a field gives the prover the type's invariant: a line runs through the points.
        let _line = &self.line;
        self.mover.is_run(low, high)
    }

    /// Marks one of the points that are left, and returns what is known of it.
    #[inline(always)]
    fn mark_one(
        &self,
        first: u32,
        b: u32,
        sure_only: u64,
        progress: &mut WordProgress,
        near: &mut Near,
    ) -> Told
        requires bit { b < 64 }
        requires left { has_bit progress.old.rest b ≡ true }
        requires on_ray { AreOnRay self.now first progress.old.rest }
        requires near { IsNear near.old self.now.sweep }
        ensures near { IsNear near.new self.now.sweep }
        ensures rest { (k : ℕ) → k < 64 → has_bit progress.new.rest k ≡ (has_bit progress.old.rest k && not (nat_eq k b)) }
        ensures less { progress.new.rest < progress.old.rest }
        ensures progress { FollowsFrom progress.new progress.old self.now first sure_only }
        ensures index { IfSome result.held (λ held. held.index ≡ first + b) }
        ensures held { IfSome result.held (λ held. IsHeldLast held self.now) }
    {
        // Reading a field gives the prover the type's invariant: the points are few.
        let _few = &self.ray;
        let told = self.mark_at(first + b, near, asked_at(sure_only, b));
        *progress = progress.with_mark(b, told.mark);
        told
    }

    /// Whether the points from one that is held at its first sample to the one at an index are all sure, as that one is held there too.
    fn is_first_run(&self, line: &Line, low: &Held, l: u32, near: &mut usize) -> bool
        requires within { l < points_of self.now.grid self.now.ray.family }
        requires line { IsLineOf line.now self.now }
        requires low { IsHeldFirst low.now self.now }
        ensures { IsTrue result → IsRun self.now low.now.index l }
    {
        match self.mover.held_first(line, l, near) {
            None => false,
            Some(high) => self.mover.is_run(low, &high),
        }
    }

    /// The index of a point up to which all are sure, from one on that is held at its first sample, as far as another, which is tested
    /// first: mostly the run goes that far. Else its end is found by halves, down to two points, which are marked as fast by themselves.
    fn last_of_run(&self, line: &Line, low: &Held, top: u32, near: &mut usize) -> u32
        requires order { low.now.index ≤ top }
        requires within { top < points_of self.now.grid self.now.ray.family }
        requires line { IsLineOf line.now self.now }
        requires low { IsHeldFirst low.now self.now }
        requires sure { IsRemovedBy self.now.sweep (point_of self.now.grid self.now.ray low.now.index) }
        ensures from { low.now.index ≤ result }
        ensures to { result ≤ top }
        ensures run { IsRun self.now low.now.index result }
    {
        // Reading a field gives the prover the type's invariant: the points are few.
        let _few = &self.ray;
        let mut last = low.index;
        let mut end = top + 1;
        let mut at = top;
        while 2 < end - last {
            if self.is_first_run(line, low, at, near) {
                last = at;
            } else {
                end = at;
            }
            at = last + (end - last) / 2;
        }
        last
    }

    /// Some of the points that are left, which are above the one of bit b: those of a run from that one on, where it is held at its first
    /// sample. A wide cutter leaves many such behind. It is a function of its own, for most points are decided by their last sample. `near`
    /// is the number of a slab to look from.
    #[cold]
    #[inline(never)]
    fn first_run_bits(&self, first: u32, b: u32, rest: u64, near: usize) -> u64
        requires some { 0 < rest }
        requires above { AreFrom (first + b) first rest }
        requires on_ray { AreOnRay self.now first rest }
        ensures among { AreAmong result rest }
        ensures sure { AreRemoved self.now first result }
    {
        // Reading a field gives the prover the type's invariant: the points are few.
        let _few = &self.ray;
        let line = &self.line;
        let top = first + highest_bit(rest);
        let mut near = near;
        let Some(low) = self.mover.held_first(line, first + b, &mut near) else {
            return 0;
        };
        let last = self.last_of_run(line, &low, top, &mut near);
        bits_below(rest, last - first + 1)
    }

    /// Marks the points that are left from the lowest upwards, as far as the first that is held at its last sample. Where one is sure
    /// without that, those of a run from it on at their first samples are marked at once.
    fn mark_to_held(
        &self,
        first: u32,
        sure_only: u64,
        progress: &mut WordProgress,
        near: &mut Near,
    ) -> Option<Held>
        requires on_ray { AreOnRay self.now first progress.old.rest }
        requires near { IsNear near.old self.now.sweep }
        ensures near { IsNear near.new self.now.sweep }
        ensures fewer { AreAmong progress.new.rest progress.old.rest }
        ensures progress { FollowsFrom progress.new progress.old self.now first sure_only }
        ensures held { IfSome result (λ held. IsHeldLast held self.now) }
        ensures above { MatchOption result (progress.new.rest ≡ 0) (λ held. AreFrom held.index first progress.new.rest) }
    {
        while progress.rest != 0 {
            let b = lowest_bit(progress.rest);
            let told = self.mark_one(first, b, sure_only, progress, near);
            if let Some(held) = told.held {
                return Some(held);
            }
            if matches!(told.mark, Mark::Removed) && progress.rest != 0 {
                let run = self.first_run_bits(first, b, progress.rest, near.reached);
                *progress = progress.with_run(run);
            }
        }
        None
    }

    /// Marks the points that are left, which are above a held one, from the highest downwards, as far as one that is held too, so that
    /// all between both are sure.
    fn mark_down_to(
        &self,
        low: &Held,
        first: u32,
        sure_only: u64,
        progress: &mut WordProgress,
        near: &mut Near,
    )
        requires low { IsHeldLast low.now self.now }
        requires above { AreFrom low.now.index first progress.old.rest }
        requires on_ray { AreOnRay self.now first progress.old.rest }
        requires near { IsNear near.old self.now.sweep }
        ensures all { progress.new.rest ≡ 0 }
        ensures progress { FollowsFrom progress.new progress.old self.now first sure_only }
    {
        while progress.rest != 0 {
            let b = highest_bit(progress.rest);
            if let Some(high) = self.mark_one(first, b, sure_only, progress, near).held {
                if self.is_run(low, &high) {
                    *progress = progress.with_rest_removed();
                    return;
                }
            }
        }
    }

    /// Which of the wanted points are sure, and which of those that are not in `sure_only` are possible. `slab` is the number of an inner
    /// slab to look from; that of the slab that holds the lowest point at its last sample replaces it.
    fn mark_each(&self, first: u32, wanted: u64, sure_only: u64, slab: &mut usize) -> WordMarks
        requires { AreOnRay self.now first wanted }
        ensures sure { (b : ℕ) → b < 64 → has_bit result.sure b ≡ is_sure_bit self.now first wanted b }
        ensures possible { (b : ℕ) → b < 64 → has_bit sure_only b ≡ false
            → has_bit result.possible b ≡ is_possible_bit self.now first wanted b }
    {
        let mut near = Near::from_slab(*slab);
        let mut progress = WordProgress::of_word(wanted);
        match self.mark_to_held(first, sure_only, &mut progress, &mut near) {
            None => progress.marks,
            Some(low) => {
                *slab = near.reached;
                self.mark_down_to(&low, first, sure_only, &mut progress, &mut near);
                progress.marks
            }
        }
    }

    /// Some wanted points that one sample shows to be sure.
    fn sure_bits(&self, first: u32, wanted: u64) -> u64
        requires { AreOnRay self.now first wanted }
        ensures wanted { (b : ℕ) → b < 64 → has_bit result b ≡ true → has_bit wanted b ≡ true }
        ensures sure { (b : ℕ) → b < 64 → has_bit result b ≡ true
            → IsRemovedBy self.now.sweep (point_of self.now.grid self.now.ray (first + b)) }
    {
        // Reading a field gives the prover the type's invariant: the points are few.
        let _few = &self.ray;
        if wanted == 0 || is_few(wanted) {
            return 0;
        }
        let from = first + lowest_bit(wanted);
        let to = first + highest_bit(wanted);
        match self.mover.sure_run(self.grid, &self.ray, from, to) {
            None => 0,
            Some(run) => bits_between(wanted, run.first - first, run.last - first),
        }
    }

    /// The same by three samples: one for all, and one for what it leaves below and above.
    fn sure_on_sides(&self, first: u32, wanted: u64) -> u64
        requires { AreOnRay self.now first wanted }
        ensures wanted { (b : ℕ) → b < 64 → has_bit result b ≡ true → has_bit wanted b ≡ true }
        ensures sure { (b : ℕ) → b < 64 → has_bit result b ≡ true
            → IsRemovedBy self.now.sweep (point_of self.now.grid self.now.ray (first + b)) }
    {
        let sure = self.sure_bits(first, wanted);
        let sides = Sides::beside(bits_without(wanted, sure), sure);
        let below = self.sure_bits(first, sides.below);
        let above = self.sure_bits(first, sides.above);
        sure | below | above
    }

    /// The same where some are known to be sure, by three more samples for what those leave below and three for what they leave above.
    fn sure_beside(&self, first: u32, wanted: u64, known: u64) -> u64
        requires on_ray { AreOnRay self.now first wanted }
        requires among { AreAmong known wanted }
        requires known { AreRemoved self.now first known }
        ensures wanted { AreAmong result wanted }
        ensures sure { AreRemoved self.now first result }
    {
        let sides = Sides::beside(bits_without(wanted, known), known);
        let below = self.sure_on_sides(first, sides.below);
        let above = self.sure_on_sides(first, sides.above);
        known | below | above
    }

    /// The part of the move outside of which the points of these bits are clear, for which all points from the lowest of them to the
    /// highest have to be. Where there is none they are clear throughout.
    fn open_of_bits(&self, first: u32, bits: u64) -> Option<OpenStretch>
        requires { AreOnRay self.now first bits }
        ensures { MatchOption result
            ((b : ℕ) → b < 64 → has_bit bits b ≡ true → IsClearOf self.now.sweep (point_of self.now.grid self.now.ray (first + b)))
            (λ s. AreOpenAt s self.now first bits) }
    {
        // Reading a field gives the prover the type's invariant: the points are few.
        let _few = &self.ray;
        if bits == 0 {
            return None;
        }
        let from = first + lowest_bit(bits);
        let to = first + highest_bit(bits);
        self.mover.open_stretch(self.grid, &self.ray, from, to)
    }

    /// The answer for the point at an index, by the line through the points on the stretch outside of which it is clear.
    #[inline]
    fn mark_on_stretch(
        &self,
        stretch: &OpenStretch,
        line: &StretchLine,
        l: u32,
        near: &mut usize,
        asked: Asked,
    ) -> Mark
        requires within { l < points_of self.now.grid self.now.ray.family }
        requires line { IsStretchLineOf line.now stretch.now self.now }
        requires open { IsOpenAt stretch.now self.now.sweep (point_of self.now.grid self.now.ray l) }
        ensures sure { tells_sure result ≡ is_sure_at self.now l }
        ensures possible { asked ≡ Asked.Whole → tells_possible result ≡ is_possible_at self.now l }
    {
        let point = self.grid.point(&self.ray, l);
        self.mover
            .mark_on_stretch(line, l, point, stretch, near, asked)
    }

    /// Which of the wanted points are sure, and which of those that are not in `sure_only` are possible, each by the line through them
    /// on the stretch outside of which all are clear.
    fn mark_on(
        &self,
        stretch: &OpenStretch,
        line: &StretchLine,
        first: u32,
        wanted: u64,
        sure_only: u64,
    ) -> WordMarks
        requires line { IsStretchLineOf line.now stretch.now self.now }
        requires on_ray { AreOnRay self.now first wanted }
        requires open { AreOpenAt stretch.now self.now first wanted }
        ensures sure { (b : ℕ) → b < 64 → has_bit result.sure b ≡ is_sure_bit self.now first wanted b }
        ensures possible { (b : ℕ) → b < 64 → has_bit sure_only b ≡ false
            → has_bit result.possible b ≡ is_possible_bit self.now first wanted b }
    {
        // Reading a field gives the prover the type's invariant: the points are few.
        let _few = &self.ray;
        let mut near = 0;
        let mut progress = WordProgress::of_word(wanted);
        while progress.rest != 0 {
            let b = lowest_bit(progress.rest);
            let asked = asked_at(sure_only, b);
            let mark = self.mark_on_stretch(stretch, line, first + b, &mut near, asked);
            progress = progress.with_mark(b, mark);
        }
        progress.marks
    }

    /// The same, only on the stretch where that is short.
    fn mark_open(
        &self,
        stretch: &OpenStretch,
        first: u32,
        wanted: u64,
        sure_only: u64,
        slab: &mut usize,
    ) -> WordMarks
        requires on_ray { AreOnRay self.now first wanted }
        requires open { AreOpenAt stretch.now self.now first wanted }
        ensures sure { (b : ℕ) → b < 64 → has_bit result.sure b ≡ is_sure_bit self.now first wanted b }
        ensures possible { (b : ℕ) → b < 64 → has_bit sure_only b ≡ false
            → has_bit result.possible b ≡ is_possible_bit self.now first wanted b }
    {
        if !self.mover.is_short(stretch) {
            return self.mark_each(first, wanted, sure_only, slab);
        }
        match self.mover.line_on_stretch(self.grid, &self.ray, stretch) {
            None => self.mark_each(first, wanted, sure_only, slab),
            Some(line) => self.mark_on(stretch, &line, first, wanted, sure_only),
        }
    }

    /// The same as `mark_each` for a long move: where the halves of the time show that the points are clear except for a short part of it,
    /// they are marked only on that part.
    fn mark_by_parts(&self, first: u32, wanted: u64, sure_only: u64, slab: &mut usize) -> WordMarks
        requires { AreOnRay self.now first wanted }
        ensures sure { (b : ℕ) → b < 64 → has_bit result.sure b ≡ is_sure_bit self.now first wanted b }
        ensures possible { (b : ℕ) → b < 64 → has_bit sure_only b ≡ false
            → has_bit result.possible b ≡ is_possible_bit self.now first wanted b }
    {
        match self.open_of_bits(first, wanted) {
            None => WordMarks {
                sure: 0,
                possible: 0,
            },
            Some(stretch) => self.mark_open(&stretch, first, wanted, sure_only, slab),
        }
    }

    /// The same, of points of which a sample has shown none to be sure. Mostly all are clear, so further samples are taken only where the
    /// halves of the time don't show that.
    fn mark_unless_clear(
        &self,
        first: u32,
        wanted: u64,
        sure_only: u64,
        slab: &mut usize,
    ) -> WordMarks
        requires { AreOnRay self.now first wanted }
        ensures sure { (b : ℕ) → b < 64 → has_bit result.sure b ≡ is_sure_bit self.now first wanted b }
        ensures possible { (b : ℕ) → b < 64 → has_bit sure_only b ≡ false
            → has_bit result.possible b ≡ is_possible_bit self.now first wanted b }
    {
        match self.open_of_bits(first, wanted) {
            None => WordMarks {
                sure: 0,
                possible: 0,
            },
            Some(stretch) => {
                let sure = self.sure_beside(first, wanted, 0);
                let rest = bits_without(wanted, sure);
                let marks = self.mark_open(&stretch, first, rest, sure_only, slab);
                marks.with_sure(sure)
            }
        }
    }

    /// The same, where what some samples show to be sure isn't tested point by point.
    fn mark_by_runs(&self, first: u32, wanted: u64, sure_only: u64, slab: &mut usize) -> WordMarks
        requires { AreOnRay self.now first wanted }
        ensures sure { (b : ℕ) → b < 64 → has_bit result.sure b ≡ is_sure_bit self.now first wanted b }
        ensures possible { (b : ℕ) → b < 64 → has_bit sure_only b ≡ false
            → has_bit result.possible b ≡ is_possible_bit self.now first wanted b }
    {
        let known = self.sure_bits(first, wanted);
        if known == 0 {
            return self.mark_unless_clear(first, wanted, sure_only, slab);
        }
        let sure = self.sure_beside(first, wanted, known);
        let rest = bits_without(wanted, sure);
        self.mark_by_parts(first, rest, sure_only, slab)
            .with_sure(sure)
    }

    /// Which of the wanted points are sure, and which of those that are not in `sure_only` are possible, by what suits the move.
    fn mark_all(&self, first: u32, wanted: u64, sure_only: u64, slab: &mut usize) -> WordMarks
        requires { AreOnRay self.now first wanted }
        ensures sure { (b : ℕ) → b < 64 → has_bit result.sure b ≡ is_sure_bit self.now first wanted b }
        ensures possible { (b : ℕ) → b < 64 → has_bit sure_only b ≡ false
            → has_bit result.possible b ≡ is_possible_bit self.now first wanted b }
    {
        if !self.mover.is_long() {
            return self.mark_each(first, wanted, sure_only, slab);
        }
        self.mark_by_runs(first, wanted, sure_only, slab)
    }

    /// Whether it pays to test first whether all points of a word are apart: of a few that a short move is near, each is marked as fast.
    #[inline]
    fn is_asked_at_once(&self, wanted: u64) -> bool {
        self.mover.is_long() || are_many(wanted)
    }

    /// The marks of the wanted points of a word: bit b is the point at the index `first + b`. Each wanted bit is a point of the
    /// ray. Of those in `sure_only` only whether they are sure is reported: both words have the same bit there. `slab` is the number of
    /// an inner slab to look from, such as `LOW_SLAB`: any is right, best that which a call for a ray next to it left there.
    pub fn mark(&self, first: u32, wanted: u64, sure_only: u64, slab: &mut usize) -> WordMarks
        requires { AreOnRay self.now first wanted }
        ensures sure { (b : ℕ) → b < 64 → has_bit result.sure b ≡ is_sure_bit self.now first wanted b }
        ensures possible { (b : ℕ) → b < 64 → has_bit result.possible b ≡ is_told_bit self.now first wanted sure_only b }
    {
        if self.is_asked_at_once(wanted) && self.are_bits_missed(first, wanted) {
            return WordMarks {
                sure: 0,
                possible: 0,
            };
        }
        let marks = self.mark_all(first, wanted, sure_only, slab);
        WordMarks {
            sure: marks.sure,
            possible: chosen_bits(marks.possible, marks.sure, sure_only),
        }
    }
}
