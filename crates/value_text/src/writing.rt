//! The texts of sets.

ghost use Rattle.std.specs.Prelude.{◌≡◌, ◌<◌, ◌++◌, ◌^◌, OnOk};
ghost use Rattle.item_lines.specs.Line.{comma_list, form_text};
ghost use Rattle.value_set.specs.Form.{IsNormal};
ghost use Rattle.text_fields.specs.Numbers.{IsWidth};
ghost use Rattle.value_text.specs.Sets as fields;

use crate::sets::modulus;
use hex_digits::push_short_hex;
use std::alloc::AllocError;
use text_fields::push_number;
use value_set::{Form, Progression, Vs8, Vs16};

/// Adds numbers with commas between them.
fn push_values(out: &mut Vec<u8>, values: &[u16], digits: u8) -> Result<(), AllocError>
    ensures { OnOk result (out.new.items ≡ out.old.items ++ comma_list digits values.now) }
{
    let [first, rest @ ..] = values else {
        return Ok(());
    };
    push_number(out, *first, digits)?;
    for value in rest {
        out.push(b',')?;
        push_number(out, *value, digits)?;
    }
    Ok(())
}

/// Adds a run, by its numbers.
fn push_run(out: &mut Vec<u8>, run: &Progression, digits: u8) -> Result<(), AllocError>
    ensures { OnOk result (out.new.items ≡ out.old.items
        ++ (fields.run_field digits).text (run.now.base, (run.now.stride, run.now.count))) }
{
    push_number(out, run.base, digits)?;
    out.push(b'/')?;
    push_short_hex(out, run.stride as u32)?;
    out.push(b'/')?;
    push_short_hex(out, run.count)
}

/// Adds the set of numbers of so many digits.
fn push_form(out: &mut Vec<u8>, form: &Form, digits: u8) -> Result<(), AllocError>
    requires width { IsWidth digits }
    requires normal { IsNormal (16 ^ digits) form.now }
    ensures { OnOk result (out.new.items ≡ out.old.items
        ++ form_text digits (16 ^ digits) form.now) }
{
    match form {
        Form::Values(values) => push_values(out, values.as_slice(), digits),
        Form::Run(run) => {
            if run.count == modulus(digits) {
                out.extend_from_slice(b"*")
            } else {
                push_run(out, run, digits)
            }
        }
    }
}

/// Adds a set of words.
pub fn push_word_set(out: &mut Vec<u8>, set: &Vs16) -> Result<(), AllocError>
    ensures { OnOk result (out.new.items ≡ out.old.items ++ (fields.set_field 4).text set.now) }
{
    push_form(out, &set.form(), 4)
}

/// Adds a set of bytes.
pub fn push_byte_set(out: &mut Vec<u8>, set: &Vs8) -> Result<(), AllocError>
    ensures { OnOk result (out.new.items ≡ out.old.items ++ (fields.set_field 2).text set.now) }
{
    push_form(out, &set.form(), 2)
}
