//! Bytes as hexadecimal text.
ghost use Rattle.std.specs.Prelude.{◌≡◌, ◌+◌, ◌*◌, ◌/◌, ◌%◌, ◌<◌, ◌≤◌, true, ◌++◌, Some, IfSome, is_ok, IfOk, vec_items, string_bytes, length, take};
ghost use Rattle.text.specs.Hex.{hex_digit, hex_text, digit_value, pair_value, hex_bytes};
ghost use Rattle.std.specs.Option.{option_map};
ghost use Rattle.std.specs.List.{All};

use std::alloc::{AllocError, Global};
use std::fmt;

/// Bytes that print as hexadecimal text.
#[derive(Clone, Copy)]
pub struct Hex<'a>(pub &'a [u8]);

/// How many bytes are written at a time.
const RUN: usize = 32;

/// The digit that writes a number below sixteen, as ASCII.
fn digit(n: u8) -> u8
    requires { n < 16 }
    ensures { result ≡ hex_digit n }
{
    if n < 10 { b'0' + n } else { b'a' + (n - 10) }
}

/// The digits that write a run of bytes, in front of zeros.
fn digits_of(run: &[u8]) -> [u8; 2 * RUN]
    requires { length run.now ≤ 32 }
    ensures written { take (2 * length run.now) result ≡ hex_text run.now }
    ensures ascii { All (λ c. c < 128) (take (2 * length run.now) result) }
{
    let mut digits = [0; 2 * RUN];
    // by index: a pair of places at a time, from `chunks_exact_mut`, would be taken apart again to write its two digits
    for i in 0..run.len() {
        digits[2 * i] = digit(run[i] / 16);
        digits[2 * i + 1] = digit(run[i] % 16);
    }
    digits
}

impl fmt::Display for Hex<'_> {
    ghost output = { λ h. Some (hex_text h.0.now) };

    // A run at a time: digit by digit, `play` takes more than twice the time.
    fn fmt<W: fmt::Write>(&self, f: &mut fmt::Formatter<W>) -> fmt::Result {
        for run in self.0.chunks(RUN) {
            let digits = digits_of(run);
            f.write_str(str::from_utf8(&digits[..2 * run.len()]).unwrap())?;
        }
        Ok(())
    }
}

/// The number that a digit writes, in either case of its letter.
fn value(digit: u8) -> Option<u8>
    ensures value { result ≡ digit_value digit }
    ensures small { IfSome result (λ v. v < 16) }
{
    match digit {
        b'0'..=b'9' => Some(digit - b'0'),
        b'a'..=b'f' => Some(digit - b'a' + 10),
        b'A'..=b'F' => Some(digit - b'A' + 10),
        _ => None,
    }
}

/// The byte that two digits write.
fn byte(digits: &[u8]) -> Option<u8>
    ensures { result ≡ pair_value digits.now }
{
    let [high, low] = digits else {
        return None;
    };
    Some(value(*high)? * 16 + value(*low)?)
}

/// The bytes that a text writes, or none where it writes no bytes. An option in a result, since each caller has a complaint of its own
/// for a text that writes none, and memory may be lacking too.
pub fn from_hex(heap: Global, text: &str) -> Result<Option<Vec<u8>>, AllocError>
    ensures { IfOk result (λ o. option_map vec_items o ≡ hex_bytes text.now) }
{
    let mut bytes = Vec::new(heap);
    for digits in text.as_bytes().chunks(2) {
        let Some(byte) = byte(digits) else {
            return Ok(None);
        };
        bytes.push(byte)?;
    }
    Ok(Some(bytes))
}
