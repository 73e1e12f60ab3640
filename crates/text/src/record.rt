// The fields of a line: numbers closed by tabs, and the hex digits after them.
ghost use Rattle.std.specs.Prelude.{◌≡◌, ◌==◌, MatchOption, Some, None, position};
ghost use Rattle.text.specs.Read.{field_of, opening_of, head_of};

use crate::number::number;

// The two numbers that open every line, and what follows them.
#[derive(Clone, Copy)]
pub struct Opening<'a> {
    pub number: usize,
    pub n: usize,
    pub rest: &'a [u8],
}

// The three numbers that open a record, and the frame's digits.
#[derive(Clone, Copy)]
pub struct Head<'a> {
    pub number: usize,
    pub n: usize,
    pub allowance: usize,
    pub digits: &'a [u8],
}

// The first place of `b`.
fn find(line: &[u8], b: u8) -> Option<usize>
    ensures { result ≡ position (λ x. x == b) line.now }
{
    line.iter().position(|x| *x == b)
}

// A number closed by a tab, and what follows the tab.
#[tactic(auto, unfolding(crate::specs::Read::field_of))]
fn number_field(line: &[u8]) -> Option<(usize, &[u8])>
    ensures { MatchOption result (field_of line.now ≡ None) (λ f. field_of line.now ≡ Some (f.0, f.1.now)) }
{
    let end = find(line, b'\t')?;
    let value = number(&line[..end])?;
    Some((value, &line[end + 1..]))
}

// Where a field is bad, the line is.
#[tactic(auto, unfolding(crate::specs::Read::opening_of))]
pub fn line_opening(line: &[u8]) -> Option<Opening<'_>>
    ensures { MatchOption result (opening_of line.now ≡ None) (λ o. opening_of line.now ≡ Some (o.number, o.n, o.rest.now)) }
{
    let (number, rest) = number_field(line)?;
    let (n, rest) = number_field(rest)?;
    Some(Opening { number, n, rest })
}

// The same for a record of the dump.
#[tactic(auto, unfolding(crate::specs::Read::head_of))]
pub fn record_head(line: &[u8]) -> Option<Head<'_>>
    ensures { MatchOption result (head_of line.now ≡ None) (λ h. head_of line.now ≡ Some (h.number, h.n, h.allowance, h.digits.now)) }
{
    let opening = line_opening(line)?;
    let (allowance, digits) = number_field(opening.rest)?;
    Some(Head {
        number: opening.number,
        n: opening.n,
        allowance,
        digits,
    })
}
