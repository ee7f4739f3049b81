//! The chip.

ghost use Rattle.std.specs.Prelude.{◌≡◌, ◌≤◌, [], IfOk, IfSome};
ghost use Rattle.image.specs.Kept.{IsRamRange, IsReadUnder};
ghost use Rattle.image.specs.declared.rule_set.Rules.{Rules};
ghost use Rattle.msp430_chip.specs.Memory.{HasRam};
ghost use Rattle.msp430_chip.specs.State.{reset_address};
ghost use Rattle.msp430_decode.specs.Table.{IsInstr};
ghost use Rattle.msp430_flow.specs.Chip.{IsSetting, msp430_analysis};
ghost use Rattle.msp430_flow.specs.Marks.{stops};
ghost use Rattle.msp430_flow.specs.Standing.{fetched, instr_text as the_text};

use crate::kept::Kept;
use crate::marks::marks_of;
use crate::setting::Setting;
use crate::text::Msp430Text;
use analysis_limits::Limits;
use arrayvec::ArrayString;
use call_context::{Node, Sequence, Unit};
use chip_analysis::{Chip, Work};
use chip_flow::{frame_of, start_node, work};
use image::{Image, RamRange};
use item_lines::InstrText;
use msp430_chip::Device;
use msp430_decode::{Instr, decode};
use msp430_state::State;
use no_memory::Memory;
use promises::Promise;
use std::alloc::Global;
use std::marker::Model;

/// The chip of a device, which contracts see as what its analysis is set to.
#[derive(Drop)]
pub struct Msp430Chip {
    setting: Setting,
    /// What widening stops at.
    marks: Vec<u16>,
}

impl Model for Msp430Chip {
    ghost use Rattle.std.specs.Prelude.{◌≡◌};
    ghost use Rattle.msp430_flow.specs.declared.setting.Setting.{Setting};
    ghost use Rattle.msp430_flow.specs.Chip.{IsSetting};
    ghost use Rattle.msp430_flow.specs.Marks.{marks_of};

    ghost Value = { Setting };

    ghost view = { λ chip. chip.setting };

    ghost invariant = { λ chip. (chip.marks.items ≡ marks_of chip.setting.device) × IsSetting chip.setting };
}

impl Msp430Chip {
    /// The chip with this program, which was read under its rules, with this RAM, call strings of so many sites, and so many
    /// targets of an instruction that are followed. Nothing is promised of its steps.
    pub fn new(
        alloc: Global,
        image: Image,
        ram: RamRange,
        limits: Limits,
    ) -> Result<Msp430Chip, Memory>
        requires read { IsReadUnder (Rules.Msp430 ram) image }
        requires ram { IsRamRange (Rules.Msp430 ram) }
        requires calls { limits.calls ≤ 8 }
        ensures { IfOk result (λ chip. chip ≡ record { device = record { image = image; ram = ram }; limits = limits; promises = [] }) }
    {
        let device = Device { image, ram };
        let marks = marks_of(alloc, &device)?;
        let promises = Sequence::new(alloc);
        let setting = Setting {
            device,
            limits,
            promises,
        };
        Ok(Msp430Chip { setting, marks })
    }

    /// The same where this is promised of its steps.
    pub fn with_promises(self, promises: Sequence<Promise>) -> Msp430Chip
        ensures { result ≡ record self { promises = promises } }
    {
        let Msp430Chip { setting, marks } = self;
        let Setting { device, limits, .. } = setting;
        let setting = Setting {
            device,
            limits,
            promises,
        };
        Msp430Chip { setting, marks }
    }

    /// The program was read under the chip's rules, and call strings have at most eight sites.
    pub fn keeps_rules(&self)
        ensures setting { IsSetting self.now }
        ensures ram { HasRam self.now.device }
    {
        let _marks = self.marks.as_slice();
    }

    /// Where RAM stands.
    pub(crate) fn ram(&self) -> RamRange
        ensures range { result ≡ self.now.device.ram }
        ensures some { result.lo ≤ result.hi }
    {
        self.keeps_rules();
        self.setting.device.ram
    }

    /// Where the program starts: the word at FFFEh without bit 0.
    fn reset(&self) -> u16
        ensures { result ≡ reset_address self.now.device }
    {
        self.keeps_rules();
        let image = &self.setting.device.image;
        let Some(low) = image.byte(0xFFFE) else {
            unreachable!()
        };
        let Some(high) = image.byte(0xFFFF) else {
            unreachable!()
        };
        let word = low as u16 + 256 * high as u16;
        word - word % 2
    }

    /// The instruction at an address, if one stands there.
    #[tactic(auto, unfolding(crate::specs::Standing::fetched))]
    pub(crate) fn instr_at(&self, pc: u16) -> Option<Instr>
        ensures exact { result ≡ fetched self.now.device.image pc }
        ensures in_range { IfSome result IsInstr }
    {
        if pc % 2 != 0 {
            return None;
        }
        match decode(&self.setting.device.image, pc) {
            Ok((instr, _)) => Some(instr),
            Err(_) => None,
        }
    }

    /// The numbers that widening stops at: none where it is coarse.
    fn stops(&self, coarse: bool) -> &[u16]
        ensures { result.now ≡ stops coarse self.now.device }
    {
        if coarse {
            return &[];
        }
        self.marks.as_slice()
    }

    /// The device.
    pub(crate) fn device(&self) -> &Device
        ensures { result.now ≡ self.now.device }
    {
        &self.setting.device
    }

    /// What is promised of the program's steps.
    pub(crate) fn promises(&self) -> &[Promise]
        ensures { result.now ≡ self.now.promises }
    {
        self.setting.promises.as_slice()
    }

    /// The limits of the analysis.
    pub(crate) fn limits(&self) -> &Limits
        ensures { result.now ≡ self.now.limits }
    {
        &self.setting.limits
    }
}

#[tactic(auto, unfolding(crate::specs::Chip::msp430_analysis))]
impl Chip for Msp430Chip {
    type Base = Setting;

    type Abs = Kept;

    ghost base = { λ chip. chip };

    ghost analysis = { msp430_analysis };

    fn start(&self, alloc: Global) -> Result<(Node, Kept), Memory> {
        let first = State::first(alloc, self.ram())?;
        Ok((start_node(self.reset()), Kept::new(alloc, first)?))
    }

    fn work(
        &self,
        alloc: Global,
        unit: &Unit,
        at: &Kept,
        exit: Option<&Kept>,
    ) -> Result<Work<Kept>, Memory> {
        work(self, alloc, unit, at, exit)
    }

    fn copy(&self, _alloc: Global, a: &Kept) -> Result<Kept, Memory> {
        a.copy()
    }

    fn join(&self, alloc: Global, held: &Kept, new: &Kept) -> Result<Kept, Memory> {
        Kept::new(alloc, held.state().join(alloc, new.state())?)
    }

    fn widen(&self, alloc: Global, held: &Kept, new: &Kept, coarse: bool) -> Result<Kept, Memory> {
        let widened = held.state().widen(alloc, new.state(), self.stops(coarse))?;
        Kept::new(alloc, widened)
    }

    fn top(&self, alloc: Global, node: &Node) -> Result<Kept, Memory> {
        let top = State::top(alloc, frame_of(node), self.ram())?;
        Kept::new(alloc, top)
    }

    fn within(&self, new: &Kept, held: &Kept) -> bool {
        new.state().within(held.state())
    }
}

impl InstrText for Msp430Chip {
    ghost text_of = { λ _ pc bytes. the_text pc bytes };

    fn instr_text(&self, pc: u16, bytes: &[u8]) -> ArrayString<40> {
        Msp430Text.instr_text(pc, bytes)
    }
}
