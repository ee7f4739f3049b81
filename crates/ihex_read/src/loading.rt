//! The image that the lines make so far, and the next line.

ghost use Rattle.std.specs.Prelude.{◌≡◌, ◌==◌, ◌+◌, ◌*◌, ◌^◌, ◌<◌, ◌≤◌, ◌++◌, ◌∷◌, [], List, ℕ, length, slice_index, IfOk, OnOk, OnErr};
ghost use Rattle.std.specs.List.{enumerate_from};
ghost use Rattle.std.specs.Result.{result_err};
ghost use Rattle.ihex_read.specs.Alone.{IsWhole};
ghost use Rattle.ihex_read.specs.ImageText.{fault_of, is_end};
ghost use Rattle.ihex_read.specs.Loading.{Made, placing_fault, row_fault, written};
ghost use Rattle.ihex_read.specs.Record.{base_behind, placed_by, type_of};

use crate::fault::HexFault;
use crate::{placing, record};
use image::{Image, Rules};
use no_memory::Memory;
use std::alloc::Global;

/// What the lines so far have made: the base of the next data record, and what stands at each address.
#[derive(Debug, Drop)]
pub struct Loader {
    rules: Rules,
    base: u32,
    image: Vec<Option<u8>>,
    ghost size: { length image.items ≡ 65536 },
}

impl Loader {
    /// No line yet.
    pub fn new(alloc: Global, rules: Rules) -> Result<Loader, Memory>
        ensures rules { IfOk result (λ loader. loader.rules ≡ rules) }
        ensures made { IfOk result (λ loader. Made [] loader.base loader.image.items) }
    {
        Ok(Loader {
            rules,
            base: 0,
            image: vec![in alloc; None; placing::END_OF_MEMORY]?,
        })
    }

    /// Takes the next line and answers whether it is the end record's, or the first fault that it has behind the lines
    /// so far.
    pub fn accept(&mut self, line: &[u8]) -> Result<bool, HexFault>
        ensures fault { (lines : List (List ℕ)) → Made lines self.old.base self.old.image.items
            → result_err result ≡ fault_of self.old.rules lines line.now }
        ensures made { (lines : List (List ℕ)) → Made lines self.old.base self.old.image.items
            → OnOk result (Made (lines ++ line.now ∷ []) self.new.base self.new.image.items) }
        ensures ends { IfOk result (λ ends. ends ≡ is_end line.now) }
        ensures image_stays { OnErr result (self.new.image.items ≡ self.old.image.items) }
        ensures base_stays { OnErr result (self.new.base ≡ self.old.base) }
        ensures rules { self.new.rules ≡ self.old.rules }
    {
        if line.is_empty() {
            return Ok(false);
        }
        let mut buffer = [0; record::LONGEST];
        let count = record::parse(line, &mut buffer)?;
        self.apply(&buffer[..count])
    }

    /// Takes the record of a line that has no fault by itself.
    fn apply(&mut self, bytes: &[u8]) -> Result<bool, HexFault>
        requires { IsWhole bytes.now }
        ensures fault { result_err result ≡ placing_fault self.old.rules self.old.base self.old.image.items bytes.now }
        ensures image { OnOk result (self.new.image.items ≡ written self.old.image.items (placed_by self.old.base bytes.now)) }
        ensures base { OnOk result (self.new.base ≡ base_behind self.old.base bytes.now) }
        ensures ends { IfOk result (λ ends. ends ≡ (type_of bytes.now == 1)) }
        ensures image_stays { OnErr result (self.new.image.items ≡ self.old.image.items) }
        ensures base_stays { OnErr result (self.new.base ≡ self.old.base) }
        ensures rules { self.new.rules ≡ self.old.rules }
    {
        match bytes[3] {
            0 => {
                let offset = usize::from(bytes[1]) * 256 + usize::from(bytes[2]);
                let start = self.base as usize + offset;
                self.place(start, &bytes[4..bytes.len() - 1])?;
                Ok(false)
            }
            1 => {
                if placing::can_reset(self.rules, &self.image) {
                    Ok(true)
                } else {
                    Err(HexFault::NoReset)
                }
            }
            2 => {
                self.base = address(bytes) * 16;
                Ok(false)
            }
            4 => {
                self.base = address(bytes) * 65536;
                Ok(false)
            }
            _ => Ok(false),
        }
    }

    /// Places the bytes of a data record.
    fn place(&mut self, start: usize, bytes: &[u8]) -> Result<(), HexFault>
        requires { start < 2 ^ 33 }
        ensures fault { result_err result ≡ row_fault self.old.rules self.old.image.items (enumerate_from start bytes.now) }
        ensures image { OnOk result (self.new.image.items ≡ written self.old.image.items (enumerate_from start bytes.now)) }
        ensures image_stays { OnErr result (self.new.image.items ≡ self.old.image.items) }
        ensures base { self.new.base ≡ self.old.base }
        ensures rules { self.new.rules ≡ self.old.rules }
    {
        if placing::overruns(start, bytes) {
            return Err(HexFault::OutOfRange);
        }
        if bytes.is_empty() {
            return Ok(());
        }
        if placing::clashes(&self.image, start, bytes) {
            return Err(HexFault::Clash);
        }
        if placing::is_barred(self.rules, start, bytes) {
            return Err(HexFault::Misplaced);
        }
        placing::write(&mut self.image, start, bytes);
        Ok(())
    }

    /// The image that the lines made.
    pub fn into_image(self) -> Image
        ensures { result ≡ self.image.items }
    {
        Image::new(self.image)
    }
}

/// The two data bytes of a record of type 02 or 04.
fn address(bytes: &[u8]) -> u32
    requires { 6 ≤ length bytes.now }
    ensures { result ≡ slice_index bytes.now 4 * 256 + slice_index bytes.now 5 }
{
    u32::from(bytes[4]) * 256 + u32::from(bytes[5])
}
