//! The lines of a report, each by its letter.

ghost use Rattle.std.specs.Prelude.{◌≡◌, ◌++◌, IfSome, IfOk, codes};
ghost use Rattle.hex_digits.specs.Digits.{hex};
ghost use Rattle.report_lines.specs.Text as lines;

use crate::digits::{bytes_of, cut};
use crate::refusal::Why;
use crate::set::{Set, Width};
use hex_digits::word;

/// Control can go from one address to the other.
#[derive(Clone, Copy)]
pub struct Edge {
    pub from: u16,
    pub to: u16,
}

/// The instruction of these bytes can run there.
#[derive(Clone, Copy)]
pub struct Instr<'a> {
    pub pc: u16,
    /// Its bytes, two digits each.
    pub bytes: &'a [u8],
    /// How many bytes it has.
    pub len: u16,
    pub text: &'a [u8],
}

/// Where an access goes.
#[derive(Clone, Copy, PartialEq, Eq)]
pub enum Space {
    Mem,
    Ram,
    Sfr,
    Xram,
    Code,
}

/// Whether an access reads or writes, and how many bytes.
#[derive(Clone, Copy, PartialEq, Eq)]
pub enum Kind {
    ReadOne,
    ReadTwo,
    WriteOne,
    WriteTwo,
}

impl Kind {
    /// Whether the access writes.
    pub fn writes(self) -> bool {
        match self {
            Kind::ReadOne | Kind::ReadTwo => false,
            Kind::WriteOne | Kind::WriteTwo => true,
        }
    }
}

/// The instruction there may read or write at each of these addresses.
#[derive(Clone, Copy)]
pub struct Access<'a> {
    pub pc: u16,
    pub space: Space,
    pub kind: Kind,
    pub at: Set<'a>,
}

/// Why the analysis stops.
#[derive(Clone, Copy, PartialEq, Eq)]
pub enum Cause<'a> {
    Fetch,
    Targets(Set<'a>),
    Store(Set<'a>),
}

/// The analysis stops there.
#[derive(Clone, Copy)]
pub struct Open<'a> {
    pub pc: u16,
    pub cause: Cause<'a>,
}

/// The stack pointer has one of these values there.
#[derive(Clone, Copy)]
pub struct Stack<'a> {
    pub pc: u16,
    pub at: Set<'a>,
}

/// A line behind the first and in front of the summary.
#[derive(Clone, Copy)]
pub enum Line<'a> {
    Edge(Edge),
    Instr(Instr<'a>),
    Access(Access<'a>),
    Open(Open<'a>),
    Stack(Stack<'a>),
}

impl<'a> Line<'a> {
    /// The line of a text, or what is wrong with it.
    pub fn read(text: &'a [u8]) -> Result<Line<'a>, Why>
        ensures { IfOk result (λ line. lines.line_text line ≡ text.now) }
    {
        let [letter, b' ', rest @ ..] = text else {
            return Err(Why::NoLetter);
        };
        match letter {
            b'E' => match edge_of(rest) {
                Some(edge) => Ok(Line::Edge(edge)),
                None => Err(Why::Edge),
            },
            b'I' => match instr_of(rest) {
                Some(instr) => Ok(Line::Instr(instr)),
                None => Err(Why::Instr),
            },
            b'M' => match access_of(rest) {
                Some(access) => Ok(Line::Access(access)),
                None => Err(Why::Access),
            },
            b'O' => match open_of(rest) {
                Some(open) => Ok(Line::Open(open)),
                None => Err(Why::Open),
            },
            b'S' => match stack_of(rest) {
                Some(stack) => Ok(Line::Stack(stack)),
                None => Err(Why::Stack),
            },
            _ => Err(Why::NoLetter),
        }
    }
}

/// The address that a line is of, and what stands behind it.
fn located(rest: &[u8]) -> Option<(u16, &[u8])>
    ensures { IfSome result (λ found. hex 4 found.0 ++ codes " " ++ found.1.now ≡ rest.now) }
{
    let (pc, behind) = cut(rest, b' ')?;
    Some((word(pc)?, behind))
}

fn edge_of(rest: &[u8]) -> Option<Edge>
    ensures { IfSome result (λ edge. lines.edge_text edge ≡ rest.now) }
{
    let (from, to) = cut(rest, b' ')?;
    Some(Edge {
        from: word(from)?,
        to: word(to)?,
    })
}

fn instr_of(rest: &[u8]) -> Option<Instr<'_>>
    ensures { IfSome result (λ instr. lines.instr_text instr ≡ rest.now) }
{
    if let Some((pc, rest)) = located(rest)
        && let Some((bytes, text)) = cut(rest, b' ')
        && let Some(len) = bytes_of(bytes)
        && !text.is_empty()
    {
        Some(Instr {
            pc,
            bytes,
            len,
            text,
        })
    } else {
        None
    }
}

fn space_of(word: &[u8]) -> Option<Space>
    ensures { IfSome result (λ space. lines.space_text space ≡ word.now) }
{
    match word {
        b"mem" => Some(Space::Mem),
        b"ram" => Some(Space::Ram),
        b"sfr" => Some(Space::Sfr),
        b"xram" => Some(Space::Xram),
        b"code" => Some(Space::Code),
        _ => None,
    }
}

fn kind_of(word: &[u8]) -> Option<Kind>
    ensures { IfSome result (λ kind. lines.kind_text kind ≡ word.now) }
{
    match word {
        b"r1" => Some(Kind::ReadOne),
        b"r2" => Some(Kind::ReadTwo),
        b"w1" => Some(Kind::WriteOne),
        b"w2" => Some(Kind::WriteTwo),
        _ => None,
    }
}

/// The addresses of a space have two digits or four.
fn fits(space: Space, set: &Set<'_>) -> bool {
    let own = match space {
        Space::Ram | Space::Sfr => Width::Byte,
        Space::Mem | Space::Xram | Space::Code => Width::Word,
    };
    match set.width {
        None => true,
        Some(width) => width == own,
    }
}

fn access_of(rest: &[u8]) -> Option<Access<'_>>
    ensures { IfSome result (λ access. lines.access_text access ≡ rest.now) }
{
    if let Some((pc, rest)) = located(rest)
        && let Some((space, rest)) = cut(rest, b' ')
        && let Some((kind, set)) = cut(rest, b' ')
        && let Some(space) = space_of(space)
        && let Some(kind) = kind_of(kind)
        && let Some(at) = Set::read(set)
        && fits(space, &at)
    {
        Some(Access {
            pc,
            space,
            kind,
            at,
        })
    } else {
        None
    }
}

/// The set of addresses of an open site.
fn addresses(text: &[u8]) -> Option<Set<'_>>
    ensures { IfSome result (λ set. set.text.now ≡ text.now) }
{
    let set = Set::read(text)?;
    if fits(Space::Mem, &set) {
        Some(set)
    } else {
        None
    }
}

/// A cause with a set.
fn set_cause_of(rest: &[u8]) -> Option<Cause<'_>>
    ensures { IfSome result (λ cause. lines.cause_text cause ≡ rest.now) }
{
    let (word, set) = cut(rest, b' ')?;
    let set = addresses(set)?;
    if word == b"Targets".as_slice() {
        Some(Cause::Targets(set))
    } else if word == b"Store".as_slice() {
        Some(Cause::Store(set))
    } else {
        None
    }
}

fn cause_of(rest: &[u8]) -> Option<Cause<'_>>
    ensures { IfSome result (λ cause. lines.cause_text cause ≡ rest.now) }
{
    match rest {
        b"Fetch" => Some(Cause::Fetch),
        _ => set_cause_of(rest),
    }
}

fn open_of(rest: &[u8]) -> Option<Open<'_>>
    ensures { IfSome result (λ site. lines.open_text site ≡ rest.now) }
{
    let (pc, rest) = located(rest)?;
    Some(Open {
        pc,
        cause: cause_of(rest)?,
    })
}

fn stack_of(rest: &[u8]) -> Option<Stack<'_>>
    ensures { IfSome result (λ stack. lines.stack_text stack ≡ rest.now) }
{
    let (pc, set) = located(rest)?;
    Some(Stack {
        pc,
        at: Set::read(set)?,
    })
}
