//! What is known of a RAM.

ghost use Rattle.std.specs.Prelude.{◌≡◌, ◌≤◌, ◌<◌, ℕ, ◌⊎◌, true, Option, List, [], IfOk, OnOk, OnErr, option_map};
ghost use Rattle.value_set.specs.Form.{Has};
ghost use Rattle.entry_value.specs.Words.{Suspended, HoldsOfWord};
ghost use Rattle.entry_value.specs.Cells as the_cells;
ghost use Rattle.entry_value.specs.Cells.{CellMap, AreCells, StandsUnder, number_at, written};

use crate::word::Word;
use no_memory::Memory;
use std::alloc::Global;
use value_set::Vs16;

/// What is known of one byte of RAM, or of two with the low one first.
#[derive(Clone, Copy, Debug, PartialEq, Eq)]
pub struct Cell {
    /// The address of its first byte.
    pub place: u16,
    /// 1 or 2 bytes.
    pub size: u8,
    /// That of one byte has numbers below 100h.
    pub word: Word,
}

/// The cells of a RAM, each whole in it, none over another, each of which says something.
pub trait Cells: Drop {
    /// The range of RAM, and its cells in ascending order of their places.
    ghost map: { Self → CellMap };

    /// No cells, of a RAM from one address to another.
    fn empty(alloc: Global, lo: u16, hi: u16) -> Result<Self, Memory>
        requires { lo ≤ hi }
        ensures { IfOk result (λ cells. map cells ≡ record { lo = lo; hi = hi; cells = [] }) };

    /// The cells have their form.
    fn keep_form(&self)
        ensures some { (map self.now).lo ≤ (map self.now).hi }
        ensures high { (map self.now).hi < 65536 }
        ensures are { AreCells (map self.now).lo (map self.now).hi (map self.now).lo (map self.now).cells };

    /// What stands at an address in 1 or 2 bytes: the cell of that size, else what is put together from the parts of
    /// others, else any number.
    fn read(&self, at: u16, size: u8) -> Word
        requires { (size ≡ 1) ⊎ (size ≡ 2) }
        ensures value { result ≡ the_cells.read (map self.now).cells at size }
        ensures byte { size ≡ 1 → (v : ℕ) → Has 65536 result.set v → v < 256 }
        ensures holds { (first : Option Suspended) (ram : ℕ → ℕ) → StandsUnder first (map self.now).cells ram
            → HoldsOfWord first result (number_at ram at size) };

    /// Writes a value at one address: the cells that have a byte of it go, and it gets a cell, where that lies whole in
    /// RAM and says something. A refusal leaves the cells as they were.
    fn write_one(&mut self, at: u16, size: u8, value: Word) -> Result<(), Memory>
        requires size { (size ≡ 1) ⊎ (size ≡ 2) }
        requires byte { size ≡ 1 → (v : ℕ) → Has 65536 value.set v → v < 256 }
        ensures value { OnOk result (map self.new ≡ the_cells.write_one (map self.old) at size value) }
        ensures kept { OnErr result (map self.new ≡ map self.old) }
        ensures covers { OnOk result ((first : Option Suspended) (ram : ℕ → ℕ) (v : ℕ) → StandsUnder first (map self.old).cells ram
            → HoldsOfWord first value v → StandsUnder first (map self.new).cells (written ram at size v)) };

    /// Writes a value at one of some addresses. At one address alone this is `write_one`. At several, a cell at one of them
    /// with this size holds of what it held of and of the value, where no other of them has a byte of it, and else each cell
    /// that they have a byte of goes. A refusal leaves the cells as they were.
    fn write_any(&mut self, at: &Vs16, size: u8, value: Word) -> Result<(), Memory>
        requires size { (size ≡ 1) ⊎ (size ≡ 2) }
        requires byte { size ≡ 1 → (v : ℕ) → Has 65536 value.set v → v < 256 }
        ensures value { OnOk result (map self.new ≡ the_cells.write_any (map self.old) at.now size value) }
        ensures kept { OnErr result (map self.new ≡ map self.old) }
        ensures covers { OnOk result ((first : Option Suspended) (ram : ℕ → ℕ) (address v : ℕ) → StandsUnder first (map self.old).cells ram
            → Has 65536 at.now address → HoldsOfWord first value v → StandsUnder first (map self.new).cells (written ram address size v)) };

    /// The cell with the least place that is at least an address.
    fn next(&self, from: u32) -> Option<(u16, u8, Word)>
        ensures { result ≡ option_map (λ cell. (cell.place, cell.size, cell.word)) (the_cells.next (map self.now).cells from) };

    /// The cells that both have, joined.
    fn join(&self, alloc: Global, other: &Self) -> Result<Self, Memory>
        ensures value { IfOk result (λ joined. map joined ≡ record (map self.now) { cells = the_cells.join_cells (map self.now).cells (map other.now).cells }) }
        ensures own { IfOk result (λ joined. (first : Option Suspended) (ram : ℕ → ℕ) → StandsUnder first (map self.now).cells ram → StandsUnder first (map joined).cells ram) }
        ensures others { IfOk result (λ joined. (first : Option Suspended) (ram : ℕ → ℕ) → StandsUnder first (map other.now).cells ram → StandsUnder first (map joined).cells ram) };

    /// The cells that both have, widened from these.
    fn widen(&self, alloc: Global, new: &Self, marks: &[u16]) -> Result<Self, Memory>
        ensures value { IfOk result (λ widened. map widened ≡ record (map self.now) { cells = the_cells.widen_cells (map self.now).cells (map new.now).cells marks.now }) }
        ensures held { IfOk result (λ widened. (first : Option Suspended) (ram : ℕ → ℕ) → StandsUnder first (map self.now).cells ram → StandsUnder first (map widened).cells ram) }
        ensures added { IfOk result (λ widened. (first : Option Suspended) (ram : ℕ → ℕ) → StandsUnder first (map new.now).cells ram → StandsUnder first (map widened).cells ram) };

    /// Whether each cell of the other ones is one of these, with a word that these are within.
    fn within(&self, other: &Self) -> bool
        ensures value { result ≡ the_cells.are_within (map self.now).cells (map other.now).cells }
        ensures holds { result ≡ true → (first : Option Suspended) (ram : ℕ → ℕ)
            → StandsUnder first (map self.now).cells ram → StandsUnder first (map other.now).cells ram };

    /// Equal cells.
    fn copy(&self, alloc: Global) -> Result<Self, Memory>
        ensures { IfOk result (λ copy. map copy ≡ map self.now) };
}
