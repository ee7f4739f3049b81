//! The texts of nodes.

ghost use Rattle.std.specs.Prelude.{◌≡◌, ◌++◌, OnOk};
ghost use Rattle.node_fields.specs.Decimals as decimals;
ghost use Rattle.node_fields.specs.Nodes as fields;

use call_context::{Frame, Node};
use std::alloc::AllocError;
use text_fields::{Field, number, push_list_or_mark, push_number};

/// Adds a number in decimal, as `decimal_text` has it below 100.
fn push_decimal(out: &mut Vec<u8>, number: u8) -> Result<(), AllocError>
    ensures { OnOk result (out.new.items ≡ out.old.items ++ decimals.decimal_text number) }
{
    if number >= 10 {
        out.push(b'0' + number / 10)?;
    }
    out.push(b'0' + number % 10)?;
    Ok(())
}

/// Adds a stack pointer, or a dash for none.
fn push_sp(out: &mut Vec<u8>, sp: Option<u16>, digits: u8) -> Result<(), AllocError>
    ensures { OnOk result (out.new.items ≡ out.old.items ++ (fields.sp_field digits).text sp) }
{
    match sp {
        Some(sp) => push_number(out, sp, digits),
        None => {
            out.push(b'-')?;
            Ok(())
        }
    }
}

/// Adds a frame.
fn push_frame(out: &mut Vec<u8>, frame: &Frame, digits: u8) -> Result<(), AllocError>
    ensures { OnOk result (out.new.items ≡ out.old.items
        ++ (fields.frame_field digits).text frame.now) }
{
    match frame {
        Frame::Base => out.extend_from_slice(b"base"),
        Frame::Irq { vector, sp, level } => {
            out.extend_from_slice(b"irq")?;
            push_decimal(out, *vector)?;
            out.push(b'@')?;
            push_sp(out, *sp, digits)?;
            out.push(b'.')?;
            push_decimal(out, *level)
        }
    }
}

/// A site as a field.
#[derive(Clone, Copy)]
struct SiteField;

impl Field for SiteField {
    type Value = u16;

    ghost use Rattle.text_fields.specs.Numbers.{hex_number};

    ghost field = { λ site. hex_number 4 };

    fn read(&self, text: &[u8]) -> Option<u16> {
        number(text, 4)
    }

    fn push(&self, value: &u16, out: &mut Vec<u8>) -> Result<(), AllocError> {
        push_number(out, *value, 4)
    }
}

/// Adds sites with commas between them.
fn push_calls(out: &mut Vec<u8>, sites: &[u16]) -> Result<(), AllocError>
    ensures { OnOk result (out.new.items ≡ out.old.items ++ fields.calls_field.text sites.now) }
{
    push_list_or_mark(&SiteField, b',', b"".as_slice(), sites, out)
}

/// Adds a node behind its letter and a space. A stack pointer has so many digits.
pub fn push_node(out: &mut Vec<u8>, node: &Node, digits: u8) -> Result<(), AllocError>
    ensures { OnOk result (out.new.items ≡ out.old.items
        ++ (fields.node_field digits).text node.now) }
{
    match node {
        Node::At(pc, calls, frame) => {
            out.extend_from_slice(b"N ")?;
            push_number(out, *pc, 4)?;
            out.push(b':')?;
            push_calls(out, calls.as_slice())?;
            out.push(b':')?;
            push_frame(out, frame, digits)
        }
        Node::Exit(pc, frame) => {
            out.extend_from_slice(b"X ")?;
            push_number(out, *pc, 4)?;
            out.push(b':')?;
            push_frame(out, frame, digits)
        }
    }
}
