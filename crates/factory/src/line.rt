// What a line gives in the dump.
ghost use Rattle.std.specs.Prelude.{◌≡◌, true, [], ◌/◌, ◌≤◌, length};
ghost use Rattle.textrules.specs.Text.{is_hex, hex_bytes};
ghost use Rattle.textrules.specs.Dump.{greatest_frame};
ghost use Rattle.textrules.specs.Factory.{longest_data, data_of, given_text, data_text};
ghost use Rattle.factory.specs.Room.{NineDigits, buffer_for};

use crate::sizes::{MOST_BYTES, ROOM};
use crate::written::{put_frame, put_refused};
use frame::encode::encode;
use lines::say::put_questioned;
use square::sizes::{GREATEST_FRAME, square_bytes};
use text::hex::{bytes_of, is_hex};
use text::page::Page;
use text::record::line_opening;
use word::sizes::outside;

// The bytes that encoding wants lent; where n is refused, it looks at none.
fn frame_size(n: usize) -> usize
    ensures { (result ≡ buffer_for n) × (result ≤ greatest_frame) }
{
    if outside(n) {
        return 0;
    }
    square_bytes(n)
}

#[tactic(auto, using(crate::proofs::LineLaws::refused_written, crate::proofs::LineLaws::frame_fits, crate::proofs::LineLaws::frame_written, word::proofs::RefusedLaws::number_some))]
fn put_encoded(page: &mut Page<ROOM>, number: usize, n: usize, message: &[u8], frame: &mut [u8])
    requires empty { page.old ≡ [] }
    requires nine_digits { NineDigits number }
    requires frame_len { length frame.old ≡ buffer_for n }
    ensures { page.new ≡ given_text number n message.now }
{
    match encode(n, message, frame) {
        Ok(()) => put_frame(page, number, n, frame),
        Err(refusal) => put_refused(page, number, refusal),
    }
}

// Lent buffers for the data and for the frame.
fn put_into(
    page: &mut Page<ROOM>,
    number: usize,
    n: usize,
    digits: &[u8],
    message: &mut [u8],
    frame: &mut [u8],
)
    requires empty { page.old ≡ [] }
    requires nine_digits { NineDigits number }
    requires digits_value { is_hex digits.now ≡ true }
    requires digits_in_bounds { (length digits.now / 2 ≤ length message.old) × (length frame.old ≡ greatest_frame) }
    ensures { page.new ≡ given_text number n (hex_bytes digits.now) }
{
    let bytes = bytes_of(digits, message);
    let size = frame_size(n);
    put_encoded(page, number, n, &message[0..bytes], &mut frame[0..size]);
}

fn put_digits(page: &mut Page<ROOM>, number: usize, n: usize, digits: &[u8])
    requires empty { page.old ≡ [] }
    requires nine_digits { NineDigits number }
    requires digits_value { is_hex digits.now ≡ true }
    requires digits_len_bound { length digits.now ≤ longest_data }
    ensures { page.new ≡ given_text number n (hex_bytes digits.now) }
{
    let mut message = [0u8; MOST_BYTES];
    let mut frame = [0u8; GREATEST_FRAME];
    put_into(page, number, n, digits, &mut message, &mut frame);
}

// A line after the first, whole and not too long.
pub(crate) fn put_line(page: &mut Page<ROOM>, number: usize, line: &[u8])
    requires empty { page.old ≡ [] }
    requires line_len_bound { length line.now ≤ longest_data }
    ensures { page.new ≡ data_text number (data_of line.now) }
{
    let Some(opening) = line_opening(line) else {
        put_questioned(page, number);
        return;
    };
    if !is_hex(opening.rest) {
        put_questioned(page, number);
        return;
    }
    put_digits(page, opening.number, opening.n, opening.rest);
}
