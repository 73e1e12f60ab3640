// Bytes in upper-case hex, read and written.
ghost use Rattle.std.specs.Prelude.{◌≡◌, true, ◌+◌, ◌*◌, ◌/◌, ◌≤◌, ◌<◌, length};
ghost use Rattle.textrules.specs.Text.{is_hex_digit, hex_value, is_hex, hex_bytes, hex_digit, hex_text};
ghost use Rattle.text.specs.Laid.{laid, Lays};

const DIGITS: [u8; 16] = *b"0123456789ABCDEF";

const BASE: u8 = 16;

fn is_hex_digit(x: u8) -> bool
    ensures { result ≡ is_hex_digit x }
{
    x.is_ascii_digit() || matches!(x, b'A'..=b'F')
}

fn hex_value(x: u8) -> u8
    requires { is_hex_digit x ≡ true }
    ensures { (result ≡ hex_value x) × (result < 16) }
{
    if x >= b'A' { x - b'A' + 10 } else { x - b'0' }
}

// An even number of digits, possibly none.
pub fn is_hex(s: &[u8]) -> bool
    ensures { result ≡ is_hex s.now }
{
    s.len() % 2 == 0 && s.iter().all(|x| is_hex_digit(*x))
}

// Puts the bytes at the start of the lent buffer and returns how many they are.
pub fn bytes_of(digits: &[u8], frame: &mut [u8]) -> usize
    requires digits_value { is_hex digits.now ≡ true }
    requires digits_in_bounds { length digits.now / 2 ≤ length frame.old }
    ensures value { result ≡ length digits.now / 2 }
    ensures frame_after { frame.new ≡ laid frame.old 0 (hex_bytes digits.now) }
{
    let (pairs, _) = digits.as_chunks::<2>();
    // By index: what is written through an `iter_mut` that is zipped can't be proved.
    for (i, pair) in pairs.iter().enumerate() {
        let high = hex_value(pair[0]);
        let low = hex_value(pair[1]);
        frame[i] = high * BASE + low;
    }
    pairs.len()
}

fn hex_digit(h: u8) -> u8
    requires { h < 16 }
    ensures { result ≡ hex_digit h }
{
    DIGITS[h as usize]
}

// Puts the digits at `at`, two a byte and the higher first, and returns where they end.
pub fn put_hex(out: &mut [u8], at: usize, bytes: &[u8]) -> usize
    requires { at + 2 * length bytes.now ≤ length out.old }
    ensures { Lays out.old at (hex_text bytes.now) result out.new }
{
    for (i, &x) in bytes.iter().enumerate() {
        out[at + 2 * i] = hex_digit(x / BASE);
        out[at + 2 * i + 1] = hex_digit(x % BASE);
    }
    at + 2 * bytes.len()
}
