// What tells one program from another, and what each says of what has happened.
ghost use Rattle.std.specs.Prelude.{◌≡◌, [], ◌^◌, ◌≤◌, ◌<◌, length};
ghost use Rattle.textrules.specs.Programs as rules;
ghost use Rattle.lines.specs.declared.state.Event.TheVariants.{Line};
ghost use Rattle.lines.specs.Say.{question_room};
ghost use Rattle.lines.specs.Calls.{Says};

use crate::say::put_questioned;
use crate::state::Event;
use text::page::Page;

// A program of the rules, with the size of its line buffer and the room for what it says of a line.
pub trait Program<const LINE: usize, const ROOM: usize> {
    ghost program: { rules.Program };

    // The first line that it asks for.
    fn header() -> &'static [u8]
        ensures { result.now ≡ program.header };

    // The first line that it writes.
    fn opening() -> &'static [u8]
        ensures { result.now ≡ program.opening };

    // What a line gives, whole and not too long: so many characters of the line buffer. The page is empty.
    fn put_line(page: &mut Page<ROOM>, number: usize, line: &[u8; LINE], long: usize)
        requires { page.old ≡ [] }
        ensures { Says program (Line number long) line.now page.new };

    ghost longest: { LINE ≡ program.longest };

    ghost room: { (question_room ≤ ROOM) × (length program.opening ≤ ROOM) × (ROOM < 2 ^ 62) };
}

// What a program says of what has happened; the page has that text then, and nothing else.
pub fn say<P: Program<LINE, ROOM>, const LINE: usize, const ROOM: usize>(
    event: Event,
    line: &[u8; LINE],
    page: &mut Page<ROOM>,
)
    ensures { Says P.program event line.now page.new }
{
    page.clear();
    match event {
        Event::Nothing => {}
        Event::Header(true) => page.put(P::opening()),
        Event::Header(false) => page.put(b"bad header\n"),
        Event::Line(number, long) => P::put_line(page, number, line, long),
        Event::Long(number) => put_questioned(page, number),
    }
}
