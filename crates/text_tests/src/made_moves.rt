use cl_moves::Move;
use made_program::made_program;
use std::alloc::Global;
use std::test::Fail;
use vf_io::NoMemory;

/// A number, and where its first move and its last one end.
type Row = (u32, [i32; 5], [i32; 5]);

/// A number, and where its first move and its last one end: the tip, and the axis along x and along y. The rows were computed
/// separately, only by the rule.
const ROWS: [Row; 7] = [
    (
        0,
        [0, 1_467, 3_987, 5_733, -12_886],
        [8_850, 7_031, 6_373, 1_898, 15_978],
    ),
    (
        1,
        [16_838, 5_758, 4_112, 1_131, 14_667],
        [14_110, 4_747, 6_207, 12_936, 15_665],
    ),
    (
        2,
        [908, 2_816, 4_238, -3_470, 9_453],
        [12_135, 9_698, 5_278, -8_794, 15_353],
    ),
    (
        3,
        [17_747, 7_107, 4_364, -8_072, 4_238],
        [17_395, 7_415, 4_348, 2_244, 15_041],
    ),
    (
        5_260,
        [10_354, 10_935, 2_003, -15_393, -15_486],
        [18_200, 9_402, 3_809, -3_411, 13_070],
    ),
    (
        999_999,
        [6_727, 12_758, 2_181, -14_145, 6_798],
        [1_271, 7_627, 4_108, 1_704, -2_444],
    ),
    (
        4_294_967_295,
        [15_929, 4_409, 3_861, 10_334, -7_671],
        [10_824, 2_080, 7_303, -9_140, 16_290],
    ),
];

/// Where a move ends, as a row has it.
fn end_of(made: &Move) -> [i32; 5] {
    let [x, y, z] = made.to;
    let [along_x, along_y, _] = made.axis_to;
    [x, y, z, along_x, along_y]
}

/// Whether the moves are those of a generated program, and its first and last one end there.
fn are_made(moves: &[Move], first: &[i32; 5], last: &[i32; 5]) -> bool {
    moves.len() == 24
        && end_of(&moves[0]) == *first
        && end_of(&moves[23]) == *last
        && moves[0].from == [0, 0, 20_000]
        && moves[23].from == moves[22].to
        && moves[23].line == 24
}

/// Whether the program of a number is the expected one, and passes nothing over.
fn is_made(alloc: Global, row: &Row) -> Result<bool, NoMemory> {
    let (number, first, last) = row;
    let program = made_program(alloc, *number)?;
    Ok(are_made(program.moves.as_slice(), first, last) && program.passed == 0)
}

#[test]
fn made_programs(rt: HostRuntime) -> Result<(), Fail> {
    for row in &ROWS {
        assert!(rt; is_made(rt.alloc(), row)?, "the program of {}", row.0);
    }
    Ok(())
}
