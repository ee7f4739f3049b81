//! Bytes at their addresses as records.

ghost use Rattle.std.specs.Prelude.{◌≡◌, ◌+◌, ◌≤◌, ◌<◌, ◌++◌, OnOk, length, sum};
ghost use Rattle.image_gen.specs.Records.{checksum_of, record_line, stretch_lines};

use no_memory::Memory;
use std::alloc::Global;

/// The end record's line.
pub const END: &[u8] = b":00000001FF\n";

/// How many data bytes a record has at most.
const LONGEST: usize = 16;

/// Adds the records of the bytes from an address on.
pub fn put_stretch(
    alloc: Global,
    text: &mut Vec<u8>,
    start: u16,
    bytes: &[u8],
) -> Result<(), Memory>
    requires { start + length bytes.now ≤ 65536 }
    ensures { OnOk result (text.new.items ≡ text.old.items ++ stretch_lines start bytes.now) }
{
    let count = (bytes.len() + LONGEST - 1) / LONGEST;
    for k in 0..count {
        let from = k * LONGEST;
        let end = bytes.len().min(from + LONGEST);
        put_record(alloc, text, start + from as u16, &bytes[from..end])?;
    }
    Ok(())
}

/// Adds a data record.
fn put_record(alloc: Global, text: &mut Vec<u8>, at: u16, bytes: &[u8]) -> Result<(), Memory>
    requires { length bytes.now ≤ LONGEST }
    ensures { OnOk result (text.new.items ≡ text.old.items ++ record_line at bytes.now) }
{
    let [high, low] = at.to_be_bytes();
    let mut record = Vec::new(alloc);
    record.extend_from_slice(&[bytes.len() as u8, high, low, 0])?;
    record.extend_from_slice(bytes)?;
    record.push(checksum(&record))?;
    let digits = hex::encode_upper(alloc, record)?;
    text.push(b':')?;
    text.extend_from_slice(digits.as_bytes())?;
    text.push(b'\n')?;
    Ok(())
}

/// What makes the sum of a record's bytes a multiple of 256.
fn checksum(bytes: &[u8]) -> u8
    requires { length bytes.now < 260 }
    ensures { result ≡ checksum_of bytes.now }
{
    let total: u32 = bytes.iter().map(|byte| u32::from(*byte)).sum();
    ((256 - total % 256) % 256) as u8
}
