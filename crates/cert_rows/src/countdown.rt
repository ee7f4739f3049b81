//! The small chip.

ghost use Rattle.std.specs.Prelude.{◌≡◌, ◌<◌, ◌∷◌, [], IfOk};
ghost use Rattle.call_context.specs.declared.node.Frame.TheVariants.{Base};
ghost use Rattle.call_context.specs.declared.node.Node.TheVariants.{At};
ghost use Rattle.cert_rows.specs.Countdown as countdown;

use call_context::{Calls, Frame, Node, Sequence, Unit};
use chip_analysis::{Cause, Chip, OrderlyChip, Work};
use no_memory::Memory;
use state_text::{LawfulText, Outside, StateText};
use std::alloc::Global;
use text_fields::{number, push_number};
use value_set::Vs16;

/// Counts down from 2. A handler is waited for at 4, two are at 5, and sites are open at 7.
#[derive(Drop)]
pub struct Countdown;

fn is_frame(frame: &Frame) -> bool
    ensures { result ≡ countdown.is_frame frame.now }
{
    match frame {
        Frame::Base => true,
        Frame::Irq {
            vector,
            sp: None,
            level,
        } => *vector < 100 && *level == 0,
        Frame::Irq { sp: Some(_), .. } => false,
    }
}

fn is_handler(frame: &Frame) -> bool
    ensures { result ≡ countdown.is_handler frame.now }
{
    match frame {
        Frame::Irq {
            vector,
            sp: Some(sp),
            level,
        } => *vector >= 9 && *vector <= 10 && *sp == 0x0280 && *level == 0,
        _ => false,
    }
}

fn is_mine(node: &Node) -> bool
    ensures { result ≡ countdown.is_mine node.now }
{
    match node {
        Node::At(pc, calls, frame) => {
            // What is read is below 65536.
            let _pc = *pc;
            match calls.as_slice() {
                [] => is_frame(frame),
                _ => false,
            }
        }
        Node::Exit(pc, frame) => {
            let _pc = *pc;
            is_handler(frame)
        }
    }
}

fn handler(vector: u8) -> Frame
    ensures { result ≡ countdown.handler vector }
{
    Frame::Irq {
        vector,
        sp: Some(0x0280),
        level: 0,
    }
}

fn waits_of(alloc: Global, at: u16) -> Result<Sequence<Frame>, Memory>
    ensures { IfOk result (λ waits. waits ≡ countdown.waits_of at) }
{
    let mut waits = Sequence::new(alloc);
    if at == 4 || at == 5 {
        waits.push(handler(9))?;
    }
    if at == 5 {
        waits.push(handler(10))?;
    }
    Ok(waits)
}

fn opens_of(alloc: Global, pc: u16, at: u16) -> Result<Sequence<(u16, Cause)>, Memory>
    ensures { IfOk result (λ opens. opens ≡ countdown.opens_of pc at) }
{
    let mut opens = Sequence::new(alloc);
    if at == 7 {
        opens.push((pc, Cause::Targets(Vs16::any())))?;
        opens.push((pc, Cause::Fetch))?;
    }
    Ok(opens)
}

fn post_of(alloc: Global, pc: u16, state: u16) -> Result<Sequence<(Node, u16)>, Memory>
    ensures { IfOk result (λ posts. posts ≡ (At pc [] Base, state) ∷ []) }
{
    let mut posts = Sequence::new(alloc);
    posts.push((Node::At(pc, Calls::new(), Frame::Base), state))?;
    Ok(posts)
}

fn next_of(alloc: Global, pc: u16, at: u16) -> Result<Work<u16>, Memory>
    ensures { IfOk result (λ work. work ≡ countdown.next_of pc at) }
{
    if at == 0 {
        return Ok(nothing(alloc));
    }
    Ok(Work {
        items: Sequence::new(alloc),
        posts: post_of(alloc, pc.wrapping_add(1), at - 1)?,
        waits: waits_of(alloc, at)?,
        opens: opens_of(alloc, pc, at)?,
    })
}

fn return_of(alloc: Global, pc: u16, left: u16) -> Result<Work<u16>, Memory>
    ensures { IfOk result (λ work. work ≡ countdown.return_of pc left) }
{
    Ok(Work {
        items: Sequence::new(alloc),
        posts: post_of(alloc, pc.wrapping_add(2), left)?,
        waits: Sequence::new(alloc),
        opens: Sequence::new(alloc),
    })
}

fn nothing(alloc: Global) -> Work<u16>
    ensures { result ≡ countdown.nothing }
{
    Work {
        items: Sequence::new(alloc),
        posts: Sequence::new(alloc),
        waits: Sequence::new(alloc),
        opens: Sequence::new(alloc),
    }
}

impl Chip for Countdown {
    type Base = ();

    type Abs = u16;

    ghost use Rattle.cert_rows.specs.Countdown.{countdown as the_countdown};

    ghost base = { λ _. tt };

    ghost analysis = { λ _. the_countdown };

    fn start(&self, _alloc: Global) -> Result<(Node, u16), Memory> {
        Ok((Node::At(0, Calls::new(), Frame::Base), 2))
    }

    fn work(
        &self,
        alloc: Global,
        unit: &Unit,
        at: &u16,
        exit: Option<&u16>,
    ) -> Result<Work<u16>, Memory> {
        match (unit, exit) {
            (Unit::One(Node::At(pc, _, _)), _) => next_of(alloc, *pc, *at),
            (Unit::Back(Node::At(pc, _, _), _), Some(left)) => return_of(alloc, *pc, *left),
            _ => Ok(nothing(alloc)),
        }
    }

    fn copy(&self, _alloc: Global, a: &u16) -> Result<u16, Memory> {
        Ok(*a)
    }

    fn join(&self, _alloc: Global, held: &u16, new: &u16) -> Result<u16, Memory> {
        Ok((*held).max(*new))
    }

    fn widen(&self, _alloc: Global, held: &u16, new: &u16, _coarse: bool) -> Result<u16, Memory> {
        Ok((*held).max(*new))
    }

    fn top(&self, _alloc: Global, _node: &Node) -> Result<u16, Memory> {
        Ok(u16::MAX)
    }

    fn within(&self, new: &u16, held: &u16) -> bool {
        *new <= *held
    }
}

impl OrderlyChip for Countdown {
    ghost program = { λ _. Unit {0} };

    ghost alike = { λ _ _. ⊥ };

    fn is_program(&self) {}

    fn order_laws() {}

    fn alike_laws() {}
}

impl StateText for Countdown {
    ghost use Rattle.cert_rows.specs.Countdown.{texts as the_texts};

    ghost texts = { λ _. the_texts };

    fn sp_digits(&self) -> u8 {
        4
    }

    fn print_abs(&self, a: &u16, out: &mut Vec<u8>) -> Result<(), Memory> {
        push_number(out, *a, 4)?;
        Ok(())
    }

    fn read_abs(&self, _alloc: Global, node: &Node, text: &[u8]) -> Result<Option<u16>, Memory> {
        if is_mine(node) {
            Ok(number(text, 4))
        } else {
            Ok(None)
        }
    }

    fn first_outside(
        &self,
        alloc: Global,
        new: &u16,
        held: &u16,
    ) -> Result<Option<Outside>, Memory> {
        if *new <= *held {
            return Ok(None);
        }
        let mut field = Sequence::new(alloc);
        field.push(b'V')?;
        let mut posted = Vec::new(alloc);
        push_number(&mut posted, *new, 4)?;
        let mut there = Vec::new(alloc);
        push_number(&mut there, *held, 4)?;
        Ok(Some(Outside {
            field,
            posted: Sequence::from_vec(posted),
            held: Sequence::from_vec(there),
        }))
    }
}

impl LawfulText for Countdown {
    fn texts_are_exact() {}
}
