//! Tables of names.

ghost use Rattle.std.specs.Prelude.{◌≡◌, ◌++◌, OnOk, map};
ghost use Rattle.text_fields.specs.Fields.{one_named};

use std::alloc::AllocError;

/// The number of the row whose name is a text.
pub fn read_name(table: &[(u16, &str)], text: &[u8]) -> Option<u16>
    ensures { result ≡ (one_named (map (λ row. (row.0, row.1.now)) table.now)).value text.now }
{
    for row in table {
        if row.1.as_bytes() == text {
            return Some(row.0);
        }
    }
    None
}

/// Adds the name of the first row that has a number, or nothing where none has it.
pub fn push_name(table: &[(u16, &str)], number: u16, out: &mut Vec<u8>) -> Result<(), AllocError>
    ensures { OnOk result (out.new.items ≡ out.old.items
        ++ (one_named (map (λ row. (row.0, row.1.now)) table.now)).text number) }
{
    for row in table {
        if row.0 == number {
            return out.extend_from_slice(row.1.as_bytes());
        }
    }
    Ok(())
}
