// What a line gives in the report.
ghost use Rattle.std.specs.Prelude.{◌≡◌, true, [], ◌/◌, ◌≤◌, length};
ghost use Rattle.rules.specs.Codes.{small_code};
ghost use Rattle.rules.specs.Numbers.{decode_said};
ghost use Rattle.textrules.specs.Text.{is_hex, hex_bytes};
ghost use Rattle.textrules.specs.Dump.{longest_line, line_text, line_of};
ghost use Rattle.frame.specs.Said.{said};

use crate::report::put_decoded;
use crate::sizes::{MOST_BYTES, ROOM};
use frame::decode::{Report, decode};
use lines::say::put_questioned;
use text::hex::{bytes_of, is_hex};
use text::page::Page;
use text::record::record_head;
use word::refusal::Refusal;

// Lent buffers for the frame as received and as mended; the mended one is handed to nobody.
fn decode_into(
    n: usize,
    allowance: usize,
    digits: &[u8],
    received: &mut [u8],
    mended: &mut [u8],
) -> Result<Report, Refusal>
    requires digits_value { is_hex digits.now ≡ true }
    requires digits_in_bounds { (length digits.now / 2 ≤ length received.old) × (length digits.now / 2 ≤ length mended.old) }
    ensures { said result ≡ decode_said small_code n allowance (hex_bytes digits.now) (hex_bytes digits.now) }
{
    let bytes = bytes_of(digits, received);
    decode(n, allowance, &received[0..bytes], &mut mended[0..bytes])
}

fn decode_digits(n: usize, allowance: usize, digits: &[u8]) -> Result<Report, Refusal>
    requires digits_value { is_hex digits.now ≡ true }
    requires digits_len_bound { length digits.now ≤ longest_line }
    ensures { said result ≡ decode_said small_code n allowance (hex_bytes digits.now) (hex_bytes digits.now) }
{
    let mut received = [0u8; MOST_BYTES];
    let mut mended = [0u8; MOST_BYTES];
    decode_into(n, allowance, digits, &mut received, &mut mended)
}

// A line after the first, whole and not too long.
pub(crate) fn put_reported(page: &mut Page<ROOM>, number: usize, line: &[u8])
    requires empty { page.old ≡ [] }
    requires line_len_bound { length line.now ≤ longest_line }
    ensures { page.new ≡ line_text number (line_of line.now) }
{
    let Some(head) = record_head(line) else {
        put_questioned(page, number);
        return;
    };
    if !is_hex(head.digits) {
        put_questioned(page, number);
        return;
    }
    let decoded = decode_digits(head.n, head.allowance, head.digits);
    put_decoded(page, head.number, decoded);
}
