//! Bytes without a relation.

ghost use Rattle.std.specs.Prelude.{◌≡◌, ◌≤◌, length};
ghost use Rattle.value_set.specs.Form.{gather};
ghost use Rattle.value_set.specs.Summing.{single};
ghost use Rattle.mcs51_state.specs.Known.{any_byte, byte_of};

use entry_value::Byte;
use value_set::Vs8;

/// A byte that is one of the numbers of a set.
pub(crate) fn plain(set: Vs8) -> Byte
    ensures { result ≡ byte_of set }
{
    Byte { set, entry: None }
}

/// A byte that is one number.
pub fn one_byte(number: u8) -> Byte
    ensures { result ≡ byte_of (single number) }
{
    plain(Vs8::one(number))
}

/// A byte that is one of some numbers.
pub(crate) fn one_of(numbers: &[u8]) -> Byte
    requires { 1 ≤ length numbers.now }
    ensures { result ≡ byte_of (gather 256 numbers.now) }
{
    match Vs8::gather(numbers) {
        Some(set) => plain(set),
        None => unreachable!(),
    }
}

/// A byte of which nothing is known.
pub(crate) fn unknown() -> Byte
    ensures { result ≡ byte_of any_byte }
{
    plain(Vs8::any())
}
