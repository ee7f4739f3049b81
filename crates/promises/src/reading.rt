//! The promises of a text.

ghost use Rattle.std.specs.Prelude.{◌≡◌, ◌∷◌, ◌++◌, ◌≤◌, ◌<◌, ◌^◌, [], ℕ, Ok, Err, None, IfOk, IfErr, OnOk, length, map, drop};
ghost use Rattle.promises.specs.Text as texts;
ghost use Rattle.promises.specs.Told.{IsTold};

use crate::fault::{PromiseError, PromiseFault};
use crate::fitting::all_fit;
use crate::promise::Promise;
use crate::sentences::promises_in;
use crate::spoken::Spoken;
use crate::told::Told;
use std::alloc::{AllocError, Global};
use text_fields::cut;
use text_lines::without_return;

/// The longest text of promises and of what stands behind them, in bytes.
pub const MOST_BYTES: usize = 268_435_456;

/// How many promises a text has at most.
const MOST: usize = 256;

/// Adds promises with the number of their line.
fn push_all(
    list: &mut Vec<(u32, Promise)>,
    number: u32,
    promises: Vec<Promise>,
) -> Result<(), AllocError>
    ensures { OnOk result (list.new.items ≡ list.old.items ++ map (λ promise. (number, promise)) promises.items) }
{
    for promise in promises {
        list.push((number, promise))?;
    }
    Ok(())
}

/// The promises that were read, with their sites.
#[derive(Drop)]
struct Reading {
    list: Vec<(u32, Promise)>,
    told: Told,
}

impl Reading {
    /// The first fault of promises behind those that were read; where there is none their sites are added.
    fn fault_of<S: Spoken>(
        &mut self,
        alloc: Global,
        image: &S,
        promises: &[Promise],
    ) -> Result<Option<PromiseFault>, AllocError>
        requires { IsTold self.old.told (texts.promises_alone self.old.list.items) }
        ensures fault { IfOk result (λ fault. fault ≡ texts.fault_of (S.spoken image.now) self.old.list.items promises.now) }
        ensures list { self.new.list.items ≡ self.old.list.items }
        ensures told { result ≡ Ok None → IsTold self.new.told (texts.promises_alone self.old.list.items ++ promises.now) }
    {
        if self.list.len() + promises.len() > MOST {
            return Ok(Some(PromiseFault::Syntax));
        }
        if !all_fit(image, promises) {
            return Ok(Some(PromiseFault::Site));
        }
        if self.told.is_twice(alloc, promises)? {
            return Ok(Some(PromiseFault::Twice));
        }
        Ok(None)
    }

    /// Adds the promises of a line.
    fn read_line<S: Spoken>(
        &mut self,
        alloc: Global,
        image: &S,
        number: u32,
        line: &[u8],
    ) -> Result<(), PromiseError>
        requires { IsTold self.old.told (texts.promises_alone self.old.list.items) }
        ensures list { OnOk result (texts.with_line (S.spoken image.now) number self.old.list.items line.now ≡ Ok self.new.list.items) }
        ensures told { OnOk result (IsTold self.new.told (texts.promises_alone self.new.list.items)) }
        ensures bad { IfErr result (texts.TellsLine (S.spoken image.now) number self.old.list.items line.now) }
    {
        let Some(promises) = promises_in(alloc, image.growth(), line)? else {
            let fault = PromiseFault::Syntax;
            return Err(PromiseError::Bad {
                line: number,
                fault,
            });
        };
        if let Some(fault) = self.fault_of(alloc, image, promises.as_slice())? {
            return Err(PromiseError::Bad {
                line: number,
                fault,
            });
        }
        push_all(&mut self.list, number, promises)?;
        Ok(())
    }
}

/// Whether a line ends the promises.
fn is_end(line: &[u8]) -> bool
    ensures { result ≡ texts.is_end line.now }
{
    line == b"END".as_slice()
}

/// The promises of a text, each with the number of its line, and where the text behind the line `END` begins; or the first
/// faulty line. One carriage return at the end of a line is none of it. Blank lines and those that begin with `#` are passed over.
pub fn read_promises<S: Spoken>(
    alloc: Global,
    text: &[u8],
    image: &S,
) -> Result<(Vec<(u32, Promise)>, usize), PromiseError>
    requires { length text.now ≤ MOST_BYTES }
    ensures read { IfOk result (λ read. texts.promises_of (S.spoken image.now) text.now ≡ Ok (read.0.items, drop read.1 text.now)) }
    ensures within { IfOk result (λ read. read.1 ≤ length text.now) }
    ensures refused { IfErr result (texts.Tells (S.spoken image.now) text.now) }
{
    let mut reading = Reading {
        list: Vec::new(alloc),
        told: Told::new(alloc),
    };
    let mut rest = text;
    let mut count = 0;
    while let Some((line, behind)) = cut(rest, b'\n') {
        let whole = without_return(line);
        if is_end(whole) {
            return Ok((reading.list, text.len() - behind.len()));
        }
        reading.read_line(alloc, image, count + 1, whole)?;
        count += 1;
        rest = behind;
    }
    if rest.is_empty() {
        return Err(PromiseError::Bad {
            line: count + 1,
            fault: PromiseFault::Syntax,
        });
    }
    let last = without_return(rest);
    if is_end(last) {
        return Ok((reading.list, text.len()));
    }
    reading.read_line(alloc, image, count + 1, last)?;
    Err(PromiseError::Bad {
        line: count + 2,
        fault: PromiseFault::Syntax,
    })
}
