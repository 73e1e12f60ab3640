// A text taken in pieces of any size, line by line. The longest line is as long as the lent line buffer.
ghost use Rattle.std.specs.Prelude.{◌≡◌, length, take, set};
ghost use Rattle.lines.specs.Stream.{at_start, following, is_header, closed, next_line, longer, is_between, event_at_end};
ghost use Rattle.lines.specs.Calls.{Takes};

// The number of the line being read, its characters so far (one more than the most says too long), and whether the header was
// bad: then nothing more happens. A flag, as the definitions of the rules have it (`Takes`).
#[derive(Clone, Copy, Debug, PartialEq, Eq)]
pub struct State {
    pub number: usize,
    pub length: usize,
    pub rejected: bool,
}

// What has happened: nothing; the first line is whole, and is the header or not; line k is whole and so many characters long;
// or line k is whole and too long.
#[derive(Clone, Copy, Debug, PartialEq, Eq)]
pub enum Event {
    Nothing,
    Header(bool),
    Line(usize, usize),
    Long(usize),
}

// The next state, what has happened, and the bytes that were taken of the piece.
#[derive(Clone, Copy, Debug, PartialEq, Eq)]
pub struct Taken {
    pub state: State,
    pub event: Event,
    pub taken: usize,
}

pub fn start() -> State
    ensures { result ≡ at_start }
{
    State {
        number: 1,
        length: 0,
        rejected: false,
    }
}

// As much of the buffer as the line takes up.
pub fn part<'a>(line: &'a [u8], long: usize) -> &'a [u8]
    ensures { result.now ≡ take long line.now }
{
    &line[..long.min(line.len())]
}

fn is_header(long: usize, header: &[u8], line: &[u8]) -> bool
    ensures { result ≡ is_header header.now long line.now }
{
    if long > line.len() {
        return false;
    }
    &line[0..long] == header
}

// The line is whole.
#[tactic(auto, unfolding(crate::specs::Stream::closed))]
fn closed_line(state: State, header: &[u8], line: &[u8]) -> Event
    ensures { result ≡ closed header.now state line.now }
{
    let number = state.number;
    let length = state.length;
    if number == 1 {
        return Event::Header(is_header(length, header, line));
    }
    if length > line.len() {
        return Event::Long(number);
    }
    Event::Line(number, length)
}

#[tactic(auto, unfolding(crate::specs::Stream::next_line))]
fn next_line(state: State, header: &[u8], line: &[u8]) -> State
    ensures { result ≡ next_line header.now state line.now }
{
    State {
        number: state.number.saturating_add(1),
        length: 0,
        rejected: state.number == 1 && !is_header(state.length, header, line),
    }
}

fn longer_line(state: State, line: &[u8]) -> State
    ensures { result ≡ longer (length line.now) state }
{
    let length = if state.length > line.len() {
        state.length
    } else {
        state.length + 1
    };
    State {
        length,
        rejected: false,
        ..state
    }
}

// A character that no longer fits is not kept. (With `get_mut` the proof does not close.)
#[tactic(auto, using(crate::proofs::StateLaws::keep_out))]
fn keep(line: &mut [u8], place: usize, byte: u8)
    ensures { line.new ≡ set line.old place byte }
{
    if place < line.len() {
        line[place] = byte;
    }
}

// The bytes of a piece up to the first LF, and that one. After a bad header all of them.
pub fn take(state: State, piece: &[u8], header: &[u8], line: &mut [u8]) -> Taken
    ensures { Takes header.now state piece.now line.old result line.new }
{
    if state.rejected {
        return Taken {
            state,
            event: Event::Nothing,
            taken: piece.len(),
        };
    }
    let mut current = state;
    for (i, &byte) in piece.iter().enumerate() {
        if byte == b'\n' {
            return Taken {
                state: next_line(current, header, line),
                event: closed_line(current, header, line),
                taken: i + 1,
            };
        }
        keep(line, current.length, byte);
        current = longer_line(current, line);
    }
    Taken {
        state: current,
        event: Event::Nothing,
        taken: piece.len(),
    }
}

// Nothing has come after the last LF. With no line at all the first is missing: it counts as begun.
fn is_between(state: State) -> bool
    ensures { result ≡ is_between state }
{
    state.length == 0 && state.number != 1
}

// At the end of the input: a last line without its LF, or the header that is missing.
#[tactic(auto, unfolding(crate::specs::Stream::event_at_end))]
pub fn finish(state: State, header: &[u8], line: &[u8]) -> Event
    ensures { result ≡ event_at_end header.now state line.now }
{
    if state.rejected || is_between(state) {
        return Event::Nothing;
    }
    closed_line(state, header, line)
}
