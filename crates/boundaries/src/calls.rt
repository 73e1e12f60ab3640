// One call of an entry point, and the line that is printed of it.
use crate::cases::Entry;
use crate::show::{Answered, Decoded};
use frame::decode::decode;
use frame::encode::encode;
use frame::read::read;
use frame::row::row;
use std::fmt::Display;
use std::io;
use word::decode::decode_word;
use word::refusal::number_of;

// What the output holds before each call.
const MARK: u8 = 165;

// The longest part that can be lent.
const MOST: usize = 8200;

// The first `count` bytes, or all where there are fewer, become x.
fn fill(s: &mut [u8], count: usize, x: u8) {
    let end = s.len().min(count);
    s[..end].fill(x);
}

// Whether the output still holds what was put there before the call.
fn output(to: &[u8]) -> &'static str {
    if to.iter().any(|&b| b != MARK) {
        "output written"
    } else {
        "output untouched"
    }
}

fn line(
    rt: &impl Print,
    name: &str,
    n: usize,
    takes: usize,
    answer: impl Display + Drop,
    to: &[u8],
) -> io::Result<()> {
    let gives = to.len();
    let output = output(to);
    println!(rt; "{name} {n} {takes} {gives}: {answer}, {output}")
}

fn call_lent(
    rt: &impl Print,
    entry: Entry,
    n: usize,
    from: &mut [u8],
    to: &mut [u8],
) -> io::Result<()> {
    let takes = from.len();
    let gives = to.len();
    match entry {
        Entry::Encode => {
            let number = number_of(encode(n, from, to));
            line(rt, "encode", n, takes, number, to)
        }
        Entry::Read => {
            let number = number_of(read(n, from, to));
            line(rt, "read", n, takes, number, to)
        }
        Entry::Decode(allowance, ones) => {
            fill(from, ones, 255);
            let decoded = Decoded(decode(n, allowance, from, to));
            let output = output(to);
            println!(rt; "decode {n} {allowance} {takes} {gives}: {decoded}, {output}")
        }
        Entry::Row(i) => {
            let length = row(n, from, i).len();
            println!(rt; "row {n} {takes} {i}: {length}")
        }
        Entry::Word => {
            fill(from, 1, 192);
            let answered = Answered(decode_word(n, from, to));
            line(rt, "word", n, takes, answered, to)
        }
    }
}

// Lends parts of the given lengths: what is read, all zero so far, and what is written, full of marks.
pub fn call(rt: &impl Print, entry: Entry, n: usize, takes: usize, gives: usize) -> io::Result<()> {
    if MOST < takes || MOST < gives {
        return Ok(());
    }
    let mut from = [0u8; MOST];
    let mut to = [MARK; MOST];
    call_lent(rt, entry, n, &mut from[..takes], &mut to[..gives])
}
