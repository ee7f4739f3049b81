//! The lines that tell why a certificate is refused.

ghost use Rattle.std.specs.Prelude.{◌≡◌, ◌++◌, IfOk, OnOk};
ghost use Rattle.cert_verdict.specs.Lines as lines;

use call_context::Node;
use cert_check::Refusal;
use cert_text::LineFault;
use chip_analysis::Cause;
use no_memory::Memory;
use node_fields::push_node;
use report_bytes::open_line;
use state_text::Outside;
use std::alloc::{AllocError, Global};

/// The name of a fault.
fn fault_name(fault: LineFault) -> &'static [u8]
    ensures { result.now ≡ lines.fault_name fault }
{
    match fault {
        LineFault::Syntax => b"Syntax",
        LineFault::Order => b"Order",
    }
}

/// The line of a fault of reading.
#[tactic(auto, unfolding(crate::specs::Lines::fault_line))]
pub fn fault_line(alloc: Global, line: u32, fault: LineFault) -> Result<Vec<u8>, Memory>
    ensures { IfOk result (λ text. text.items ≡ lines.fault_line line fault) }
{
    let number = line.to_string(alloc)?;
    let mut text = Vec::new(alloc);
    text.extend_from_slice(b"NO ")?;
    text.extend_from_slice(number.as_str().as_bytes())?;
    text.push(b' ')?;
    text.extend_from_slice(fault_name(fault))?;
    text.push(b'\n')?;
    Ok(text)
}

/// A text without its letter and the space behind that.
fn without_letter(text: &[u8]) -> &[u8]
    ensures { result.now ≡ lines.without_letter text.now }
{
    match text {
        [_, _, rest @ ..] => rest,
        _ => b"",
    }
}

/// Adds a node without its letter.
#[tactic(auto, unfolding(crate::specs::Lines::node_name))]
fn push_node_name(out: &mut Vec<u8>, node: &Node, digits: u8) -> Result<(), AllocError>
    ensures { OnOk result (out.new.items ≡ out.old.items ++ lines.node_name digits node.now) }
{
    let mut text = Vec::new(*out.allocator());
    push_node(&mut text, node, digits)?;
    out.extend_from_slice(without_letter(&text))
}

/// Adds an open site without its letter.
#[tactic(auto, unfolding(crate::specs::Lines::site_name))]
fn push_site_name(out: &mut Vec<u8>, pc: u16, cause: &Cause) -> Result<(), Memory>
    ensures { OnOk result (out.new.items ≡ out.old.items ++ lines.site_name pc cause.now) }
{
    let line = open_line(*out.allocator(), pc, cause)?;
    out.extend_from_slice(without_letter(&line))?;
    Ok(())
}

/// Adds a field, and what was posted and what is held there.
#[tactic(auto, unfolding(crate::specs::Lines::outside_text))]
fn push_outside(out: &mut Vec<u8>, outside: &Outside) -> Result<(), AllocError>
    ensures { OnOk result (out.new.items ≡ out.old.items ++ lines.outside_text outside.now) }
{
    out.extend_from_slice(outside.field.as_slice())?;
    out.push(b' ')?;
    out.extend_from_slice(outside.posted.as_slice())?;
    out.push(b' ')?;
    out.extend_from_slice(outside.held.as_slice())
}

/// Adds a line's number and a name.
#[tactic(auto, unfolding(crate::specs::Lines::headed))]
fn push_head(out: &mut Vec<u8>, line: u32, name: &[u8]) -> Result<(), AllocError>
    ensures { OnOk result (out.new.items ≡ out.old.items ++ lines.headed line name.now) }
{
    let number = line.to_string(*out.allocator())?;
    out.extend_from_slice(number.as_str().as_bytes())?;
    out.push(b' ')?;
    out.extend_from_slice(name)?;
    out.push(b' ').map_err(AllocError::from)
}

/// Adds what is told of a refusal.
fn push_refusal(out: &mut Vec<u8>, refusal: &Refusal, digits: u8) -> Result<(), Memory>
    ensures { OnOk result (out.new.items ≡ out.old.items ++ lines.refusal_text digits refusal.now) }
{
    match refusal {
        Refusal::NoStart => out.extend_from_slice(b"0 NoStart")?,
        Refusal::Unknown { line, target } => {
            push_head(out, *line, b"Unknown")?;
            push_node_name(out, target, digits)?;
        }
        Refusal::NotIn {
            line,
            target,
            outside,
        } => {
            push_head(out, *line, b"NotIn")?;
            push_node_name(out, target, digits)?;
            out.push(b' ')?;
            push_outside(out, outside)?;
        }
        Refusal::HasOpen { line, pc, cause } => {
            push_head(out, *line, b"HasOpen")?;
            push_site_name(out, *pc, cause)?;
        }
    }
    Ok(())
}

/// The line of a refusal, where a stack pointer has so many digits.
pub fn refusal_line(alloc: Global, refusal: &Refusal, digits: u8) -> Result<Vec<u8>, Memory>
    ensures { IfOk result (λ text. text.items ≡ lines.refusal_line digits refusal.now) }
{
    let mut text = Vec::new(alloc);
    text.extend_from_slice(b"NO ")?;
    push_refusal(&mut text, refusal, digits)?;
    text.push(b'\n')?;
    Ok(text)
}
