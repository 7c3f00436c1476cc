ghost use Rattle.std.specs.Prelude.{◌≡◌, length, IfOk};
ghost use Rattle.dexel_rays.specs.Sets.{HaveBound};

use dexel_rays::{Delta, Dexel};
use job_counts::Counts;
use std::alloc::Global;
use std::test::Fail;
use vf_io::NoMemory;
use vf_spans::Spans;

/// Whether the index is among the bits, of which the lowest is index 0.
pub(crate) fn is_marked(bits: u8, i: u32) -> bool {
    i < 8 && (bits >> i) & 1 == 1
}

/// The set below 8 of these bits.
pub(crate) fn set_of(alloc: Global, bits: u8) -> Result<Spans, NoMemory>
    ensures { IfOk result (λ s. length s ≡ 8) }
{
    let mut set = Spans::new(alloc, 8);
    for i in 0..8 {
        if is_marked(bits, i) {
            set.push(i)?;
        }
    }
    Ok(set)
}

/// Whether the ray has these bits as sure and as possible.
fn shows(ray: &Dexel, sure: u8, possible: u8) -> bool {
    for i in 0..9 {
        if ray.has_sure(i) != is_marked(sure, i) || ray.has_possible(i) != is_marked(possible, i) {
            return false;
        }
    }
    true
}

/// A move on the ray: its marks, what it finds (removed and possible, part sure and possible,
/// fixture sure and possible, rapid sure and possible), and the sets afterwards.
#[derive(Clone, Copy)]
struct Row {
    what: &'static str,
    rapid: bool,
    sure: u8,
    possible: u8,
    counts: [u64; 8],
    sure_after: u8,
    possible_after: u8,
}

/// Adds the row's marks.
fn add_row(alloc: Global, ray: &mut Dexel, row: &Row) -> Result<Delta, NoMemory>
    requires { HaveBound 8 ray.old }
    ensures ray { HaveBound 8 ray.new }
    ensures sure { IfOk result (λ d. length d.sure ≡ 8) }
    ensures possible { IfOk result (λ d. length d.possible ≡ 8) }
{
    let sure = set_of(alloc, row.sure)?;
    let possible = set_of(alloc, row.possible)?;
    ray.add(&sure, &possible, row.rapid)
}

/// Adds the row to the ray, and takes it back.
fn add_and_take_back(alloc: Global, ray: &mut Dexel, row: &Row) -> Result<(), NoMemory>
    requires { HaveBound 8 ray.old }
{
    let delta = add_row(alloc, ray, row)?;
    ray.take_back(&delta)
}

/// Whether a copy of the ray to which the row was added, and from which it was taken back, has these bits.
fn comes_back(
    alloc: Global,
    ray: &Dexel,
    row: &Row,
    sure: u8,
    possible: u8,
) -> Result<bool, NoMemory>
    requires { HaveBound 8 ray.now }
{
    let mut other = ray.copy()?;
    add_and_take_back(alloc, &mut other, row)?;
    Ok(shows(&other, sure, possible))
}

fn are_counts(found: &Counts, wanted: &[u64; 8]) -> bool {
    found.removed == wanted[0]
        && found.possible == wanted[1]
        && found.part_sure == wanted[2]
        && found.part_possible == wanted[3]
        && found.fix_sure == wanted[4]
        && found.fix_possible == wanted[5]
        && found.rapid_sure == wanted[6]
        && found.rapid_possible == wanted[7]
}

/// A ray whose stock is 1 to 6, whose part is 3 and 4, and whose fixture is 7.
fn new_ray(alloc: Global) -> Result<Dexel, NoMemory>
    ensures { IfOk result (λ d. HaveBound 8 d) }
{
    let stock = set_of(alloc, 0b0111_1110)?;
    let part = set_of(alloc, 0b0001_1000)?;
    let fixture = set_of(alloc, 0b1000_0000)?;
    Ok(Dexel::new(alloc, stock, part, fixture))
}

/// Four moves, one after the other.
const ROWS: [Row; 4] = [
    Row {
        what: "a cut",
        rapid: false,
        sure: 0b0000_0110,
        possible: 0b0000_1110,
        counts: [2, 3, 0, 1, 0, 0, 0, 0],
        sure_after: 0b0000_0110,
        possible_after: 0b0000_1110,
    },
    Row {
        what: "a rapid move through what was possible",
        rapid: true,
        sure: 0b0000_1100,
        possible: 0b1001_1100,
        counts: [1, 1, 1, 2, 0, 1, 0, 2],
        sure_after: 0b0000_1110,
        possible_after: 0b1001_1110,
    },
    Row {
        what: "a rapid move into the rest",
        rapid: true,
        sure: 0b1110_0000,
        possible: 0b1111_0001,
        counts: [2, 2, 0, 1, 1, 1, 2, 3],
        sure_after: 0b1110_1110,
        possible_after: 0b1111_1111,
    },
    Row {
        what: "the first cut again",
        rapid: false,
        sure: 0b0000_0110,
        possible: 0b0000_1110,
        counts: [0, 0, 0, 1, 0, 0, 0, 0],
        sure_after: 0b1110_1110,
        possible_after: 0b1111_1111,
    },
];

/// Whether the row's move finds what the row says, and leaves these sets.
fn is_moved(alloc: Global, ray: &mut Dexel, row: &Row) -> Result<bool, NoMemory>
    requires { HaveBound 8 ray.old }
    ensures { HaveBound 8 ray.new }
{
    let delta = add_row(alloc, ray, row)?;
    Ok(are_counts(&delta.counts, &row.counts) && shows(ray, row.sure_after, row.possible_after))
}

/// What the first row is that fails on the ray, or nothing where none does.
fn first_other(alloc: Global, ray: &mut Dexel) -> Result<&'static str, NoMemory>
    requires { HaveBound 8 ray.old }
{
    let mut sure_before = 0;
    let mut possible_before = 0;
    for row in &ROWS {
        let is_back = comes_back(alloc, ray, row, sure_before, possible_before)?;
        if !is_moved(alloc, ray, row)? || !is_back {
            return Ok(row.what);
        }
        sure_before = row.sure_after;
        possible_before = row.possible_after;
    }
    Ok("")
}

/// The same on a new ray.
fn first_on_new(alloc: Global) -> Result<&'static str, NoMemory> {
    let mut ray = new_ray(alloc)?;
    first_other(alloc, &mut ray)
}

#[test]
fn moves_on_one_ray(rt: HostRuntime) -> Result<(), Fail> {
    assert_eq!(rt; first_on_new(rt.alloc())?, "");
    Ok(())
}

/// Whether the ray's stock begins at 1 and ends at 6.
fn is_new(alloc: Global) -> Result<bool, NoMemory> {
    let ray = new_ray(alloc)?;
    Ok(
        ray.bound() == 8
            && ray.stock_count() == 6
            && !ray.has_stock(0)
            && ray.has_stock(1)
            && ray.has_stock(6)
            && !ray.has_stock(7),
    )
}

/// Whether nothing is found, and no index is new.
fn is_same(delta: &Delta) -> bool {
    delta.sure.is_empty() && delta.possible.is_empty() && are_counts(&delta.counts, &[0; 8])
}

#[test]
fn reading_a_ray(rt: HostRuntime) -> Result<(), Fail> {
    assert!(rt; is_new(rt.alloc())?, "a new ray");
    assert!(rt; is_same(&Delta::same(rt.alloc(), 8)), "no change");
    Ok(())
}
