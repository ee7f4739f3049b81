//! What words, bytes and cells hold, over their definitions. Proofs over the formulas, and of representations of cells, call
//! these.

ghost use Rattle.std.specs.Prelude.{◌<◌, ℕ, List};
ghost use Rattle.value_set.specs.declared.form.Form.{Form as AForm};
ghost use Rattle.value_set.specs.Form.{Has, IsNormal};
ghost use Rattle.value_set.specs.Joining.{join};
ghost use Rattle.value_set.specs.Summing.{single};
ghost use Rattle.value_bits.specs.Sets.{pair_set};
ghost use Rattle.entry_value.specs.declared.word.Word.{Word as AWord};
ghost use Rattle.entry_value.specs.Laws.{CellLaws, ValueLaws};
ghost use Rattle.entry_value.specs.Cells as the_cells;

use value_bits::bit_laws;
use value_set::set_laws;

/// Sets of words of which each is a byte, as a write of one byte takes them: that of one byte, that of all bytes, words of
/// bytes with the high byte 0, their joins, and those widened as bytes.
pub fn bytes_stay_bytes()
    ensures single { (n v : ℕ) → n < 256 → Has 65536 (single n) v → v < 256 }
    ensures whole { (v : ℕ) → Has 65536 (the_cells.any_of 1) v → v < 256 }
    ensures pair { (low : AForm) (v : ℕ) → IsNormal 256 low → Has 65536 (pair_set low (single 0)) v → v < 256 }
    ensures join { (a b : AForm) → IsNormal 65536 a → IsNormal 65536 b → ((n : ℕ) → Has 65536 a n → n < 256) → ((n : ℕ) → Has 65536 b n → n < 256)
        → (v : ℕ) → Has 65536 (join 65536 a b) v → v < 256 }
    ensures widen_normal { (held new : AWord) (marks : List ℕ) → IsNormal 65536 held.set
        → IsNormal 65536 new.set → IsNormal 65536 (the_cells.byte_widened held new marks).set }
    ensures widen { (held new : AWord) (marks : List ℕ) → IsNormal 65536 held.set → IsNormal 65536 new.set → ((n : ℕ) → Has 65536 held.set n → n < 256)
        → (v : ℕ) → Has 65536 (the_cells.byte_widened held new marks).set v → v < 256 }
{
    set_laws();
    bit_laws();
}

/// All laws of words, bytes and relations.
pub fn value_laws()
    ensures { ValueLaws }
{
    set_laws();
    bit_laws();
}

/// All laws of cells.
pub fn cell_laws()
    ensures { CellLaws }
{
    set_laws();
    bit_laws();
    bytes_stay_bytes();
}
