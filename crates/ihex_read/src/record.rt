//! Records: the bytes that a line's digits give, and the faults that a line has by itself.

ghost use Rattle.std.specs.Prelude.{◌≡◌, ◌*◌, ◌<◌, ◌≤◌, length, take, IfOk, OnOk};
ghost use Rattle.std.specs.Bool.{OnTrue};
ghost use Rattle.std.specs.List.{list_all};
ghost use Rattle.std.specs.Result.{result_err};
ghost use Rattle.hex.specs.Hex.{is_hex_digit};
ghost use Rattle.ihex_read.specs.Record.{record_of, bytes_of, is_length_of_type};
ghost use Rattle.ihex_read.specs.Alone.{IsWhole, alone_fault, shape_fault, content_fault, digits_fault};

use crate::fault::HexFault;

/// The bytes of the longest record.
pub const LONGEST: usize = 260;

/// The record of a line that isn't blank, written to the front of the buffer, and how many bytes it has; or the first
/// fault that the line has by itself.
pub fn parse(line: &[u8], buffer: &mut [u8; LONGEST]) -> Result<usize, HexFault>
    requires { 0 < length line.now }
    ensures fault { result_err result ≡ alone_fault line.now }
    ensures count { IfOk result (λ count. count ≤ LONGEST) }
    ensures bytes { IfOk result (λ count. take count buffer.new ≡ record_of line.now) }
    ensures whole { OnOk result (IsWhole (record_of line.now)) }
{
    if line[0] != b':' {
        return Err(HexFault::NoColon);
    }
    let count = decode(&line[1..], buffer)?;
    match fault_of_content(&buffer[..count]) {
        Some(fault) => Err(fault),
        None => Ok(count),
    }
}

/// The bytes of the digits of a record, written to the front of the buffer, and how many they are.
fn decode(digits: &[u8], buffer: &mut [u8; LONGEST]) -> Result<usize, HexFault>
    ensures fault { result_err result ≡ shape_fault digits.now }
    ensures least { IfOk result (λ count. 5 ≤ count) }
    ensures most { IfOk result (λ count. count ≤ LONGEST) }
    ensures bytes { IfOk result (λ count. take count buffer.new ≡ bytes_of digits.now) }
{
    let count = digits.len() / 2;
    if digits.len() % 2 == 1 || count < 5 || count > LONGEST {
        return Err(fault_of_digits(digits));
    }
    if !read_digits(digits, &mut buffer[..count]) {
        return Err(HexFault::BadDigit);
    }
    if usize::from(buffer[0]) + 5 != count {
        return Err(HexFault::BadLength);
    }
    Ok(count)
}

/// Writes the bytes of pairs of digits. The answer says whether all are digits.
fn read_digits(digits: &[u8], bytes: &mut [u8]) -> bool
    requires { length digits.now ≡ 2 * length bytes.old }
    ensures all { result ≡ list_all is_hex_digit digits.now }
    ensures bytes { OnTrue result (bytes.new ≡ bytes_of digits.now) }
{
    hex::decode_to_slice(digits, bytes).is_ok()
}

fn is_digit(byte: u8) -> bool
    ensures { result ≡ is_hex_digit byte }
{
    byte.is_ascii_hexdigit()
}

fn are_digits(text: &[u8]) -> bool
    ensures { result ≡ list_all is_hex_digit text.now }
{
    text.iter().all(|byte| is_digit(*byte))
}

/// What is wrong with digits that are no record, whatever they are.
fn fault_of_digits(digits: &[u8]) -> HexFault
    ensures { result ≡ digits_fault digits.now }
{
    if are_digits(digits) {
        HexFault::BadLength
    } else {
        HexFault::BadDigit
    }
}

/// What is wrong with a record's sum, type or number of data bytes.
fn fault_of_content(bytes: &[u8]) -> Option<HexFault>
    requires least { 5 ≤ length bytes.now }
    requires most { length bytes.now ≤ LONGEST }
    ensures { result ≡ content_fault bytes.now }
{
    let total: u32 = bytes.iter().map(|byte| u32::from(*byte)).sum();
    if total % 256 != 0 {
        return Some(HexFault::BadSum);
    }
    if bytes[3] > 5 {
        return Some(HexFault::BadType);
    }
    if !fits_type(bytes[3], bytes[0]) {
        return Some(HexFault::BadTypeLength);
    }
    None
}

fn fits_type(kind: u8, count: u8) -> bool
    ensures { result ≡ is_length_of_type kind count }
{
    match kind {
        0 => true,
        1 => count == 0,
        2 | 4 => count == 2,
        _ => count == 4,
    }
}
