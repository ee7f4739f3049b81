//! The verdict on a certificate.

ghost use Rattle.std.specs.Prelude.{◌≡◌, ◌≤◌, ℕ, List, Ok, length, IfOk, IfErr};
ghost use Rattle.cert_text.specs.Certificate.{first_row, table_of};
ghost use Rattle.cert_text.specs.Reading.{TellsWhole};
ghost use Rattle.cert_verdict.specs.Verdict.{IsVerdict};

use crate::lines::{fault_line, refusal_line};
use cert_check::{CheckError, check};
use cert_text::{Cert, MOST_BYTES, ReadError, Reader};
use item_lines::InstrText;
use no_memory::Memory;
use report_bytes::closed_report_of;
use state_text::LawfulText;
use std::alloc::Global;

/// What is told of a certificate.
#[derive(Drop)]
pub struct Verdict {
    /// The certificate is that of a closed table.
    pub is_closed: bool,
    /// The report of the table, or the line that tells why it is refused.
    pub text: Vec<u8>,
}

/// The table of a certificate.
fn read<C: LawfulText>(alloc: Global, chip: &C, text: &[u8]) -> Result<Cert<C>, ReadError>
    requires { length text.now ≤ MOST_BYTES }
    ensures base { IfOk result (λ cert. cert.base ≡ C.base chip.now) }
    ensures first { (let b = C.base chip.now in
        IfOk result (λ cert. cert.first ≡ first_row (C.analysis b) (C.texts b) text.now)) }
    ensures table { (let b = C.base chip.now in
        IfOk result (λ cert. table_of (C.analysis b) (C.texts b) text.now ≡ Ok cert.rows)) }
    ensures faulty { (let b = C.base chip.now in
        IfErr result (TellsWhole (C.analysis b) (C.texts b) text.now)) }
{
    let mut reader = Reader::new(alloc, chip);
    reader.feed(alloc, chip, text)?;
    reader.end()
}

/// The verdict on a table that a text denotes.
fn judged<C: LawfulText + InstrText>(
    alloc: Global,
    chip: &C,
    cert: Cert<C>,
) -> Result<Verdict, Memory>
    requires { C.base chip.now ≡ cert.base }
    ensures { (let a = C.analysis cert.base in let texts = C.texts cert.base in
        IfOk result (λ verdict. (text : List ℕ) → table_of a texts text ≡ Ok cert.rows → cert.first ≡ first_row a texts text
        → IsVerdict (C.text_of chip.now) a texts text verdict.is_closed verdict.text.items)) }
{
    match check(alloc, chip, cert) {
        Ok(book) => {
            book.is_of_closed_table();
            Ok(Verdict {
                is_closed: true,
                text: closed_report_of(alloc, chip, &book)?,
            })
        }
        Err(CheckError::Refused(refusal)) => Ok(Verdict {
            is_closed: false,
            text: refusal_line(alloc, &refusal, chip.sp_digits())?,
        }),
        Err(CheckError::Memory) => Err(Memory),
    }
}

/// What is told of a text as a certificate of a chip's program.
pub fn verdict_on<C: LawfulText + InstrText>(
    alloc: Global,
    chip: &C,
    text: &[u8],
) -> Result<Verdict, Memory>
    requires { length text.now ≤ MOST_BYTES }
    ensures { (let b = C.base chip.now in IfOk result (λ verdict.
        IsVerdict (C.text_of chip.now) (C.analysis b) (C.texts b) text.now verdict.is_closed verdict.text.items)) }
{
    match read(alloc, chip, text) {
        Ok(cert) => judged(alloc, chip, cert),
        Err(ReadError::Bad { line, fault }) => Ok(Verdict {
            is_closed: false,
            text: fault_line(alloc, line, fault)?,
        }),
        Err(ReadError::Memory) => Err(Memory),
    }
}
