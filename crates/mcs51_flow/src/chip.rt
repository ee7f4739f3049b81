//! The chip.

ghost use Rattle.std.specs.Prelude.{◌≡◌, ◌≤◌, [], IfOk, IfSome};
ghost use Rattle.image.specs.Kept.{IsReadUnder};
ghost use Rattle.image.specs.declared.rule_set.Rules.{Rules};
ghost use Rattle.mcs51_decode.specs.Fitting.{IsInstr};
ghost use Rattle.mcs51_flow.specs.Chip.{IsSetting, mcs51_analysis};
ghost use Rattle.mcs51_flow.specs.Marks.{stops};
ghost use Rattle.mcs51_flow.specs.Standing.{fetched, instr_text as the_text};

use crate::kept::Kept;
use crate::marks::marks_of;
use crate::setting::Setting;
use crate::text::Mcs51Text;
use analysis_limits::Limits;
use arrayvec::ArrayString;
use call_context::{Node, Sequence, Unit};
use chip_analysis::{Chip, Work};
use chip_flow::{frame_of, start_node, work};
use image::Image;
use item_lines::InstrText;
use mcs51_decode::{Instr, decode};
use mcs51_state::State;
use no_memory::Memory;
use promises::Promise;
use std::alloc::Global;
use std::marker::Model;

/// The chip with a program, which contracts see as what its analysis is set to.
#[derive(Drop)]
pub struct Mcs51Chip {
    setting: Setting,
    /// What widening stops at.
    marks: Vec<u8>,
}

impl Model for Mcs51Chip {
    ghost use Rattle.std.specs.Prelude.{◌≡◌};
    ghost use Rattle.mcs51_flow.specs.declared.setting.Setting.{Setting};
    ghost use Rattle.mcs51_flow.specs.Chip.{IsSetting};
    ghost use Rattle.mcs51_flow.specs.Marks.{marks_of};

    ghost Value = { Setting };

    ghost view = { λ chip. chip.setting };

    ghost invariant = { λ chip. (chip.marks.items ≡ marks_of chip.setting.image) × IsSetting chip.setting };
}

impl Mcs51Chip {
    /// The chip with this program, which was read under its rules, with call strings of so many sites, and so many targets
    /// of an instruction that are followed. Nothing is promised of its steps.
    pub fn new(alloc: Global, image: Image, limits: Limits) -> Result<Mcs51Chip, Memory>
        requires read { IsReadUnder Rules.Mcs51 image }
        requires calls { limits.calls ≤ 8 }
        ensures { IfOk result (λ chip. chip ≡ record { image = image; limits = limits; promises = [] }) }
    {
        let marks = marks_of(alloc, &image)?;
        let promises = Sequence::new(alloc);
        let setting = Setting {
            image,
            limits,
            promises,
        };
        Ok(Mcs51Chip { setting, marks })
    }

    /// The same where this is promised of its steps.
    pub fn with_promises(self, promises: Sequence<Promise>) -> Mcs51Chip
        ensures { result ≡ record self { promises = promises } }
    {
        let Mcs51Chip { setting, marks } = self;
        let Setting { image, limits, .. } = setting;
        let setting = Setting {
            image,
            limits,
            promises,
        };
        Mcs51Chip { setting, marks }
    }

    /// The program was read under the chip's rules, and call strings have at most eight sites.
    pub fn keeps_rules(&self)
        ensures { IsSetting self.now }
    {
        let _marks = self.marks.as_slice();
    }

    /// The program.
    pub(crate) fn image(&self) -> &Image
        ensures { result.now ≡ self.now.image }
    {
        &self.setting.image
    }

    /// The limits of the analysis.
    pub(crate) fn limits(&self) -> &Limits
        ensures { result.now ≡ self.now.limits }
    {
        &self.setting.limits
    }

    /// What is promised of its steps.
    pub(crate) fn promises(&self) -> &[Promise]
        ensures { result.now ≡ self.now.promises }
    {
        self.setting.promises.as_slice()
    }

    /// The instruction at an address, if one stands there.
    #[tactic(auto, unfolding(crate::specs::Standing::fetched))]
    pub(crate) fn instr_at(&self, pc: u16) -> Option<Instr>
        ensures exact { result ≡ fetched self.now.image pc }
        ensures in_range { IfSome result IsInstr }
    {
        match decode(&self.setting.image, pc) {
            Ok((instr, _)) => Some(instr),
            Err(_) => None,
        }
    }

    /// The numbers that widening stops at: none where it is coarse.
    fn stops(&self, coarse: bool) -> &[u8]
        ensures { result.now ≡ stops coarse self.now.image }
    {
        if coarse {
            return &[];
        }
        self.marks.as_slice()
    }
}

#[tactic(auto, unfolding(crate::specs::Chip::mcs51_analysis))]
impl Chip for Mcs51Chip {
    type Base = Setting;

    type Abs = Kept;

    ghost base = { λ chip. chip };

    ghost analysis = { mcs51_analysis };

    fn start(&self, alloc: Global) -> Result<(Node, Kept), Memory> {
        let first = State::first(alloc)?;
        Ok((start_node(0), Kept::new(alloc, first)?))
    }

    fn work(
        &self,
        alloc: Global,
        unit: &Unit,
        at: &Kept,
        exit: Option<&Kept>,
    ) -> Result<Work<Kept>, Memory> {
        work(self, alloc, unit, at, exit)
    }

    fn copy(&self, _alloc: Global, a: &Kept) -> Result<Kept, Memory> {
        a.copy()
    }

    fn join(&self, alloc: Global, held: &Kept, new: &Kept) -> Result<Kept, Memory> {
        Kept::new(alloc, held.state().join(alloc, new.state())?)
    }

    fn widen(&self, alloc: Global, held: &Kept, new: &Kept, coarse: bool) -> Result<Kept, Memory> {
        let widened = held.state().widen(alloc, new.state(), self.stops(coarse))?;
        Kept::new(alloc, widened)
    }

    fn top(&self, alloc: Global, node: &Node) -> Result<Kept, Memory> {
        let top = State::top(alloc, frame_of(node))?;
        Kept::new(alloc, top)
    }

    fn within(&self, new: &Kept, held: &Kept) -> bool {
        new.state().within(held.state())
    }
}

impl InstrText for Mcs51Chip {
    ghost text_of = { λ _ pc bytes. the_text pc bytes };

    fn instr_text(&self, pc: u16, bytes: &[u8]) -> ArrayString<40> {
        Mcs51Text.instr_text(pc, bytes)
    }
}
