//! Flags as far as they are known.

use value_bits::Tri;

/// What is known of the flags that a result sets.
#[derive(Clone, Copy, Debug, PartialEq, Eq)]
pub struct FlagBits {
    pub carry: Tri,
    pub zero: Tri,
    pub negative: Tri,
    pub overflow: Tri,
}
