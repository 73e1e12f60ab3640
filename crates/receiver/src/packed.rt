// State and answer as one number, for C: from the lowest bit on eight for the number, one for whether more is wanted, seven zeros, 16 for
// n, and 32 for the bytes so far.
ghost use Rattle.std.specs.Prelude.{◌≡◌};
ghost use Rattle.receiver.specs.Packed.{state_in, packed, Fits};

use crate::state::State;

const WANTED: u64 = 0x100;

const N_START: u64 = 0x1_0000;

const BYTES_START: u64 = 0x1_0000_0000;

// The low 16 bits, which are what the last call said, are not looked at: no `From`, which is for what loses nothing.
pub fn state_in(x: u64) -> State
    ensures { result ≡ state_in x }
{
    State {
        n: (x / N_START % N_START) as usize,
        bytes: (x / BYTES_START) as usize,
    }
}

// What a call said, and the state after it.
pub fn packed(state: State, number: u32, more: bool) -> u64
    requires { Fits (record { state = state; number = number; more = more }) }
    ensures { result ≡ packed (record { state = state; number = number; more = more }) }
{
    let wanted = if more { WANTED } else { 0 };
    u64::from(number) + wanted + state.n as u64 * N_START + state.bytes as u64 * BYTES_START
}
