//! What lines are made of.

ghost use Rattle.std.specs.Prelude.{◌≡◌, ◌+◌, ◌≤◌, ◌<◌, ◌++◌, length, false};
ghost use Rattle.std.specs.Fmt.{decimal, digit_glyph, digits, signed_decimal};
ghost use Rattle.arrayvec.specs.ArrayString.{array_string_len};
ghost use Rattle.report_text.specs.Line.{hex_digits, hex_number, hex_word};

use arrayvec::ArrayString;
use itoa::Buffer;

/// A line of the report, without its line feed, or the line of a fault with it.
pub type Row = ArrayString<256>;

pub(crate) fn push_decimal(line: &mut Row, number: u64)
    requires { array_string_len line.old + 20 ≤ 256 }
    ensures text { line.new.bytes ≡ line.old.bytes ++ decimal number }
    ensures short { array_string_len line.new ≤ array_string_len line.old + 20 }
{
    let mut buffer = Buffer::new();
    line.push_str(buffer.format(number));
}

/// Pushes a word, and a number in decimal.
pub(crate) fn push_counted(line: &mut Row, word: &str, number: u64)
    requires { array_string_len line.old + length word.now + 20 ≤ 256 }
    ensures text { line.new.bytes ≡ line.old.bytes ++ word.now ++ decimal number }
    ensures short { array_string_len line.new ≤ array_string_len line.old + length word.now + 20 }
{
    line.push_str(word);
    push_decimal(line, number);
}

/// Pushes a number that may take 128 bits, in decimal.
pub(crate) fn push_wide(line: &mut Row, number: u128)
    requires { array_string_len line.old + 39 ≤ 256 }
    ensures text { line.new.bytes ≡ line.old.bytes ++ decimal number }
    ensures short { array_string_len line.new ≤ array_string_len line.old + 39 }
{
    let mut buffer = Buffer::new();
    line.push_str(buffer.format(number));
}

/// Pushes a number in decimal, with `-` before a negative one.
pub(crate) fn push_signed(line: &mut Row, number: i64)
    requires { array_string_len line.old + 20 ≤ 256 }
    ensures text { line.new.bytes ≡ line.old.bytes ++ signed_decimal number }
    ensures short { array_string_len line.new ≤ array_string_len line.old + 20 }
{
    let mut buffer = Buffer::new();
    line.push_str(buffer.format(number));
}

/// Pushes `0x` and the hexadecimal digits of a number, without leading zeros.
pub(crate) fn push_hex_number(line: &mut Row, number: u64)
    requires { array_string_len line.old + 18 ≤ 256 }
    ensures text { line.new.bytes ≡ line.old.bytes ++ hex_number number }
    ensures short { array_string_len line.new ≤ array_string_len line.old + 18 }
{
    line.push_str("0x");
    push_hex_digits(line, digit_count(number), number);
}

/// How many hexadecimal digits a number has, without leading zeros.
fn digit_count(number: u64) -> usize
    ensures { (result ≡ length (digits 16 false number)) × (result ≤ 16) }
{
    if number < 16 {
        return 1;
    }
    digit_count(number / 16) + 1
}

/// Pushes `0x` and eight hexadecimal digits.
pub(crate) fn push_hex_word(line: &mut Row, word: u32)
    requires { array_string_len line.old + 10 ≤ 256 }
    ensures text { line.new.bytes ≡ line.old.bytes ++ hex_word word }
    ensures length { array_string_len line.new ≡ array_string_len line.old + 10 }
{
    line.push_str("0x");
    push_hex_digits(line, 8, u64::from(word));
}

/// Pushes the last hexadecimal digits of a number, as many as `digits` says.
fn push_hex_digits(line: &mut Row, digits: usize, number: u64)
    requires { array_string_len line.old + digits ≤ 256 }
    ensures text { line.new.bytes ≡ line.old.bytes ++ hex_digits digits number }
    ensures length { array_string_len line.new ≡ array_string_len line.old + digits }
{
    if digits > 0 {
        push_hex_digits(line, digits - 1, number / 16);
        line.push(hex_digit((number % 16) as u32));
    }
}

fn hex_digit(digit: u32) -> char
    requires { digit < 16 }
    ensures glyph { result ≡ digit_glyph false digit }
    ensures ascii { result < 128 }
{
    match digit {
        0..=9 => char::from((48 + digit) as u8),
        _ => char::from((87 + digit) as u8),
    }
}
