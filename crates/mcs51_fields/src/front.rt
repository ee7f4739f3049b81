//! The fields of a state in front of those of RAM, in groups.

ghost use Rattle.std.specs.Prelude.{◌≡◌, ◌++◌, OnOk};
ghost use Rattle.std.specs.Option.{option_map};
ghost use Rattle.mcs51_fields.specs.Fronts as fields;

use crate::fact::{CarryField, LinearField};
use crate::parts::{ByteField, LevelsField, OwnField, SpField, StatusField};
use entry_value::Byte;
use mcs51_state::{CarryFact, Levels, LinearFact, Status};
use std::alloc::AllocError;
use text_fields::{push_front, read_front};
use value_set::Vs8;

/// SP, A, B and DPL.
pub(crate) type First = (Vs8, (Byte, (Byte, Byte)));

/// DPH, IE and IP.
pub(crate) type Second = (Byte, (Byte, Byte));

/// PSW, the levels and the facts.
pub(crate) type Third = (Status, (Levels, (Option<LinearFact>, Option<CarryFact>)));

/// IE, in an interrupt's frame or in none.
fn ie_field(framed: bool) -> OwnField
    ensures { result ≡ record { place = 0x1A8; unheld = 0x40; framed = framed } }
{
    OwnField {
        place: 0x1A8,
        unheld: 0x40,
        framed,
    }
}

/// IP, in an interrupt's frame or in none.
fn ip_field(framed: bool) -> OwnField
    ensures { result ≡ record { place = 0x1B8; unheld = 0xC0; framed = framed } }
{
    OwnField {
        place: 0x1B8,
        unheld: 0xC0,
        framed,
    }
}

/// The first group in front of a text, and the text behind it.
fn read_first(framed: bool, text: &[u8]) -> Option<(First, &[u8])>
    ensures { option_map (λ x. (x.0, x.1.now)) result ≡ fields.first_in_front framed text.now }
{
    let field = ByteField { framed };
    let Some(front) = read_front(&SpField, b"SP=", b' ', text) else {
        return None;
    };
    let (sp, text) = front;
    let Some((a, text)) = read_front(&field, b"A=", b' ', text) else {
        return None;
    };
    let Some((b, text)) = read_front(&field, b"B=", b' ', text) else {
        return None;
    };
    let Some((dpl, text)) = read_front(&field, b"DPL=", b' ', text) else {
        return None;
    };
    Some(((sp, (a, (b, dpl))), text))
}

/// The second group in front of a text, and the text behind it.
fn read_second(framed: bool, text: &[u8]) -> Option<(Second, &[u8])>
    ensures { option_map (λ x. (x.0, x.1.now)) result ≡ fields.second_in_front framed text.now }
{
    let Some((dph, text)) = read_front(&ByteField { framed }, b"DPH=", b' ', text) else {
        return None;
    };
    let Some((ie, text)) = read_front(&ie_field(framed), b"IE=", b' ', text) else {
        return None;
    };
    let Some((ip, text)) = read_front(&ip_field(framed), b"IP=", b' ', text) else {
        return None;
    };
    Some(((dph, (ie, ip)), text))
}

/// The third group in front of a text, and the text behind it.
fn read_third(framed: bool, text: &[u8]) -> Option<(Third, &[u8])>
    ensures { option_map (λ x. (x.0, x.1.now)) result ≡ fields.third_in_front framed text.now }
{
    let Some((psw, text)) = read_front(&StatusField { framed }, b"PSW=", b' ', text) else {
        return None;
    };
    let Some((levels, text)) = read_front(&LevelsField, b"LV=", b' ', text) else {
        return None;
    };
    let Some((linear, text)) = read_front(&LinearField, b"K=", b' ', text) else {
        return None;
    };
    let Some((carry, text)) = read_front(&CarryField, b"F=", b' ', text) else {
        return None;
    };
    Some(((psw, (levels, (linear, carry))), text))
}

/// All three in front of a text, and the text behind them.
pub(crate) fn read_fields(framed: bool, text: &[u8]) -> Option<((First, (Second, Third)), &[u8])>
    ensures { option_map (λ x. (x.0, x.1.now)) result ≡ fields.fields_in_front framed text.now }
{
    let Some((first, text)) = read_first(framed, text) else {
        return None;
    };
    let Some((second, text)) = read_second(framed, text) else {
        return None;
    };
    let Some((third, text)) = read_third(framed, text) else {
        return None;
    };
    Some(((first, (second, third)), text))
}

/// Adds the first group.
pub(crate) fn push_first(
    sp: &Vs8,
    a: &Byte,
    b: &Byte,
    dpl: &Byte,
    out: &mut Vec<u8>,
) -> Result<(), AllocError>
    ensures { OnOk result (out.new.items ≡ out.old.items ++ fields.first_text sp.now a.now b.now dpl.now) }
{
    let field = ByteField { framed: true };
    push_front(&SpField, b"SP=", b' ', sp, out)?;
    push_front(&field, b"A=", b' ', a, out)?;
    push_front(&field, b"B=", b' ', b, out)?;
    push_front(&field, b"DPL=", b' ', dpl, out)
}

/// Adds the second group.
pub(crate) fn push_second(
    dph: &Byte,
    ie: &Byte,
    ip: &Byte,
    out: &mut Vec<u8>,
) -> Result<(), AllocError>
    ensures { OnOk result (out.new.items ≡ out.old.items ++ fields.second_text dph.now ie.now ip.now) }
{
    push_front(&ByteField { framed: true }, b"DPH=", b' ', dph, out)?;
    push_front(&ie_field(true), b"IE=", b' ', ie, out)?;
    push_front(&ip_field(true), b"IP=", b' ', ip, out)
}

/// Adds the third group.
pub(crate) fn push_third(
    psw: &Status,
    levels: &Levels,
    linear: &Option<LinearFact>,
    carry: &Option<CarryFact>,
    out: &mut Vec<u8>,
) -> Result<(), AllocError>
    ensures { OnOk result (out.new.items ≡ out.old.items
        ++ fields.third_text psw.now levels.now linear.now carry.now) }
{
    push_front(&StatusField { framed: true }, b"PSW=", b' ', psw, out)?;
    push_front(&LevelsField, b"LV=", b' ', levels, out)?;
    push_front(&LinearField, b"K=", b' ', linear, out)?;
    push_front(&CarryField, b"F=", b' ', carry, out)
}
