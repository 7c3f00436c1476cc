ghost use Rattle.std.specs.Prelude.{◌≤◌, ◌<◌, ◌≤ℤ◌, pos, length, unsigned_abs, All, Contains};
ghost use Rattle.bern_form.specs.Sizes.{scale_limit};

use crate::peak::Peak;
use axis_cells::short_scaled_square;
use bern_form::Slab;
use width_bisect::product;

/// The numbers of slabs of a stack to look from at a sample, by u: entry i has one for the heights whose u, shifted, is i. Those that are
/// higher have the last entry, and where the highest slab begins is in the upper half of the table.
#[derive(Drop)]
pub struct SlabTable {
    pub shift: u32,
    pub numbers: [u8; 64],
    ghost shift_small: { shift ≤ 58 },
}

/// Where a slab begins.
#[inline]
fn low_of(slab: &Slab) -> i32
    ensures { unsigned_abs result ≤ 300000 }
{
    slab.lo
}

/// Where the highest of some slabs begins: 0 where there are none.
fn highest_low(slabs: &[Slab]) -> i32
    ensures { unsigned_abs result ≤ 300000 }
{
    if slabs.is_empty() {
        return 0;
    }
    low_of(&slabs[slabs.len() - 1])
}

/// By how many bits the root of a square, which has half as many bits as the square, is shifted so that six of them are left.
fn shift_of(square: i128) -> u32
    ensures { result ≤ 58 }
{
    let bits = 128 - square.unsigned_abs().leading_zeros();
    bits.div_ceil(2).saturating_sub(6)
}

/// u in the middle of an entry, or the greatest number where it is more.
#[inline]
fn middle_of(entry: usize, shift: u32) -> i64
    requires entry { entry < 64 }
    requires shift { shift ≤ 58 }
    ensures { pos 0 ≤ℤ result }
{
    ((2 * entry as u64 + 1).saturating_mul(1 << shift) / 2) as i64
}

impl SlabTable {
    /// Of the slabs of a stack, at a sample with the scale and n. Each number is that of the slab above the highest that is reached in the
    /// middle of its entry, or 255 where that is more. It is looked for from the one before it on, so a table takes no more steps than it
    /// has entries and slabs. Any number is right to look from: a near one only saves time.
    pub fn of_slabs(slabs: &[Slab], scale: u32, n: i64) -> SlabTable
        requires { scale ≤ scale_limit }
        ensures { All (λ number. number ≤ length slabs.now) result.numbers }
    {
        let shift = shift_of(product(short_scaled_square(scale, highest_low(slabs)), n));
        let mut numbers = [0; 64];
        let mut reached = 0;
        for i in 0..64 {
            let u = middle_of(i, shift);
            let middle = Peak {
                scale,
                square: product(u, u),
                least: n,
            };
            reached = middle.walk_up(slabs, reached);
            numbers[i] = reached.min(255) as u8;
        }
        SlabTable { shift, numbers }
    }

    /// The number to look from at the height of u. A point behind the tip has some number too.
    #[inline]
    pub fn near(&self, u: i64) -> usize
        ensures { Contains self.now.numbers result }
    {
        let entry = (u.cast_unsigned() >> self.shift).min(63) as usize;
        usize::from(self.numbers[entry])
    }
}
