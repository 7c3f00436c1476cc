ghost use Rattle.std.specs.Prelude.{◌≡◌, ◌/◌, ◌^◌, ◌<◌};
ghost use Rattle.made_program.specs.Draws.{next_state};

const MULTIPLIER: u64 = 1_103_515_245;

const INCREMENT: u64 = 12_345;

/// How many states there are.
const STATES: u64 = 2_147_483_648;

/// How many states give one number.
const STATES_OF_A_NUMBER: u64 = 65_536;

/// Draws a number of 15 bits, and goes on to the next state.
pub(crate) fn draw(state: &mut u32) -> u32
    ensures state { state.new ≡ next_state state.old }
    ensures number { result ≡ next_state state.old / 65536 }
    ensures small { result < 2 ^ 15 }
{
    let next = (MULTIPLIER * *state as u64 + INCREMENT) % STATES;
    *state = next as u32;
    (next / STATES_OF_A_NUMBER) as u32
}
