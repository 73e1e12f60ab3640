// The four functions of include/gazenohyri.h. They require nothing but what the header says that a caller owes. C gets numbers where
// Rattle has enums.
ghost use Rattle.frame.specs.Calls.{Encodes, Reads};
ghost use Rattle.host.specs.Calls.{HostDecodes, HostReceives};

use crate::figures::{figures_of, put_figures};
use frame::decode::decode;
use frame::encode::encode;
use frame::read::read;
use receiver::packed::{packed, state_in};
use receiver::state::receive;
use word::refusal::{DONE, Refusal, number_of};

// The length of the block that C lends to decode.
const BLOCK_BYTES: usize = 20;

#[unsafe(no_mangle)]
pub extern "C" fn gazenohyri_encode(n: usize, message: &[u8], frame: &mut [u8]) -> u32
    ensures { Encodes n message.now frame.old result frame.new }
{
    number_of(encode(n, message, frame))
}

#[unsafe(no_mangle)]
pub extern "C" fn gazenohyri_decode(
    n: usize,
    allowance: usize,
    received: &[u8],
    frame: &mut [u8],
    block: &mut [u8],
) -> u32
    ensures { HostDecodes n allowance received.now frame.old block.old result frame.new block.new }
{
    if block.len() != BLOCK_BYTES {
        return Refusal::BadBlockLength.number();
    }
    let f = figures_of(decode(n, allowance, received, frame));
    put_figures(f, block);
    f.number
}

#[unsafe(no_mangle)]
pub extern "C" fn gazenohyri_read(n: usize, frame: &[u8], message: &mut [u8]) -> u32
    ensures { Reads n frame.now message.old result message.new }
{
    number_of(read(n, frame, message))
}

#[unsafe(no_mangle)]
pub extern "C" fn gazenohyri_receive(state: u64, piece: &[u8], frame: &mut [u8]) -> u64
    ensures { HostReceives state piece.now frame.old result frame.new }
{
    let before = state_in(state);
    match receive(before, piece, frame) {
        Ok(r) => packed(r.state, DONE, r.more),
        Err(refusal) => packed(before, refusal.number(), false),
    }
}
