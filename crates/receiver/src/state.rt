// A frame received in pieces, each put at its place in the lent buffer.
ghost use Rattle.std.specs.Prelude.{◌≡◌};
ghost use Rattle.rules.specs.Codes.{small_code};
ghost use Rattle.word.specs.Refused.{number_of};
ghost use Rattle.receiver.specs.Pieces.{fresh_of, refusal};
ghost use Rattle.receiver.specs.Calls.{told, Receives};

use square::sizes::square_bytes;
use word::refusal::Refusal;
use word::sizes::check_n;

// The rows of the frame, and how many of its bytes have come. Any two numbers are a state: what is wrong with them `receive` says.
#[derive(Clone, Copy, Debug, PartialEq, Eq)]
pub struct State {
    pub n: usize,
    pub bytes: usize,
}

impl State {
    pub fn fresh(n: usize) -> State
        ensures { result ≡ fresh_of n }
    {
        State { n, bytes: 0 }
    }

    // The next frame, of as many rows. What the buffer holds is of no account.
    pub fn reset(self) -> State
        ensures { result ≡ fresh_of self.n }
    {
        State::fresh(self.n)
    }
}

// The next state, and whether more is wanted: every piece that is taken has both.
#[derive(Clone, Copy, Debug, PartialEq, Eq)]
pub struct Received {
    pub state: State,
    pub more: bool,
}

// Lengths are compared, and nothing is added that could overflow.
#[tactic(auto, unfolding(crate::specs::Pieces::refusal))]
fn check(state: State, piece: usize, frame: usize) -> Result<(), Refusal>
    ensures { number_of result ≡ refusal small_code state piece frame }
{
    check_n(state.n)?;
    let whole = square_bytes(state.n);
    if frame != whole {
        return Err(Refusal::BadInputLength);
    }
    if state.bytes > whole || piece > whole - state.bytes {
        return Err(Refusal::PastFrame);
    }
    Ok(())
}

// A piece that is refused leaves the buffer as it was, and the caller has the state still.
#[tactic(auto, unfolding(crate::specs::Pieces::receive, crate::specs::Pieces::refusal, text::specs::Laid::laid))]
pub fn receive(state: State, piece: &[u8], frame: &mut [u8]) -> Result<Received, Refusal>
    ensures { Receives state piece.now frame.old (told state result) frame.new }
{
    check(state, piece.len(), frame.len())?;
    let bytes = state.bytes + piece.len();
    frame[state.bytes..bytes].copy_from_slice(piece);
    Ok(Received {
        state: State { bytes, ..state },
        more: bytes < frame.len(),
    })
}
