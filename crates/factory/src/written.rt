// Lines of the dump.
ghost use Rattle.std.specs.Prelude.{◌≡◌, []};
ghost use Rattle.textrules.specs.Factory.{frame_line, refused_line};
ghost use Rattle.word.specs.Refused as refused;
ghost use Rattle.factory.specs.Room.{FitsLine};

use crate::sizes::ROOM;
use text::page::Page;
use word::refusal::Refusal;

// The allowance on every line.
const ALLOWANCE: usize = 8;

pub(crate) fn put_frame(page: &mut Page<ROOM>, number: usize, n: usize, frame: &[u8])
    requires empty { page.old ≡ [] }
    requires fits_line { FitsLine number n frame.now }
    ensures { page.new ≡ frame_line number n frame.now }
{
    page.put_decimal(number);
    page.put_count(n);
    page.put_count(ALLOWANCE);
    page.put(b"\t");
    page.put_hex(frame);
    page.put(b"\n");
}

pub(crate) fn put_refused(page: &mut Page<ROOM>, number: usize, refusal: Refusal)
    requires { page.old ≡ [] }
    ensures { page.new ≡ refused_line number (refused.number refusal) }
{
    let given = refusal.number() as usize;
    page.put(b"!");
    page.put_count(number);
    page.put_count(given);
    page.put(b"\n");
}
