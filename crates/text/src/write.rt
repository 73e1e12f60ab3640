// Text written into a lent buffer, one piece after the other.
ghost use Rattle.std.specs.Prelude.{◌∷◌, ◌+◌, ◌≤◌, length};
ghost use Rattle.textrules.specs.Text.{decimal, tabulator};
ghost use Rattle.text.specs.Laid.{Lays};

// Puts the text at `at` and returns where it ends.
#[tactic(auto, unfolding(crate::specs::Laid::laid))]
pub fn put(out: &mut [u8], at: usize, text: &[u8]) -> usize
    requires { at + length text.now ≤ length out.old }
    ensures { Lays out.old at text.now result out.new }
{
    let end = at + text.len();
    out[at..end].copy_from_slice(text);
    end
}

// The same for a number's decimal digits. Not std's printing: digit_modulo_9, the edit to refuse, turns a remainder.
pub fn put_decimal(out: &mut [u8], at: usize, x: usize) -> usize
    requires { at + length (decimal x) ≤ length out.old }
    ensures { Lays out.old at (decimal x) result out.new }
{
    if x < 10 {
        out[at] = b'0' + x as u8;
        return at + 1;
    }
    let end = put_decimal(out, at, x / 10);
    out[end] = b'0' + (x % 10) as u8;
    end + 1
}

// A tab and a text.
pub fn put_word(out: &mut [u8], at: usize, word: &[u8]) -> usize
    requires { at + 1 + length word.now ≤ length out.old }
    ensures { Lays out.old at (tabulator ∷ word.now) result out.new }
{
    let next = put(out, at, b"\t");
    put(out, next, word)
}

// A tab and a number.
pub fn put_count(out: &mut [u8], at: usize, x: usize) -> usize
    requires { at + 1 + length (decimal x) ≤ length out.old }
    ensures { Lays out.old at (tabulator ∷ decimal x) result out.new }
{
    let next = put(out, at, b"\t");
    put_decimal(out, next, x)
}
