// What every program says alike.
ghost use Rattle.std.specs.Prelude.{◌≡◌, ◌++◌, ◌+◌, ◌≤◌, length};
ghost use Rattle.textrules.specs.Programs.{questioned};
ghost use Rattle.lines.specs.Say.{question_room};

use text::page::Page;

// Of a bad line.
pub fn put_questioned<const ROOM: usize>(page: &mut Page<ROOM>, number: usize)
    requires { length page.old + question_room ≤ ROOM }
    ensures { page.new ≡ page.old ++ questioned number }
{
    page.put(b"?");
    page.put_count(number);
    page.put(b"\n");
}
