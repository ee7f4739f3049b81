//! Reports of books, printed into sinks that take three bytes a call.

use crate::images::image_of;
use chip_analysis::Chip;
use chip_law::LawfulChip;
use closing_law::{ClosedBook, read_closed};
use image::RamRange;
use item_lines::InstrText;
use mcs51_flow::Limits;
use msp430_flow::Msp430Chip;
use report_text::{print_book, print_closed};
use round_core::Book;
use std::alloc::Global;
use std::test::Fail;
use vsa_io::CleanSink;
use worker_rounds::fixpoint_alone;

/// MOV #0280h,SP and JMP $, from F000h on.
const LOOPS: &str = ":06F0000031408002FF3FD9\n:02FFFE0000F011\n:00000001FF\n";

const REPORT: &str = "\
CLOSED
E F000 F004
E F004 F004
I F000 31408002 MOV #0280h,SP
I F004 FF3F JMP F004h
S F000 0000/2/8000
S F004 0280
T 0280 1
";

fn chip_of(alloc: Global) -> Option<Msp430Chip> {
    let ram = RamRange {
        lo: 0x0200,
        hi: 0x09FF,
        mirror: None,
    };
    let limits = Limits {
        calls: 6,
        targets: 64,
    };
    let image = image_of(alloc, ram.rules(), LOOPS)?;
    Msp430Chip::new(alloc, image, ram, limits).ok()
}

/// Whether the text is printed of a book.
fn is_printed<C: Chip + InstrText>(
    alloc: Global,
    chip: &C,
    book: &Book<C>,
    text: &[u8],
) -> Option<bool> {
    let mut sink = CleanSink::with_room(alloc, 3, 256).ok()?;
    print_book(alloc, chip, book, &mut sink).ok()?;
    Some(sink.bytes() == text)
}

/// Whether the text is printed of a closed book.
fn is_printed_closed<C: LawfulChip + InstrText>(
    alloc: Global,
    chip: &C,
    book: &ClosedBook<C>,
    text: &[u8],
) -> Option<bool> {
    let mut sink = CleanSink::with_room(alloc, 3, 256).ok()?;
    print_closed(alloc, chip, book, &mut sink).ok()?;
    Some(sink.bytes() == text)
}

/// Whether the text is printed of the book that an analysis makes, and of the closed book that it is.
fn are_printed<C: LawfulChip + InstrText>(
    alloc: Global,
    chip: &C,
    text: &[u8],
) -> Option<(bool, bool)> {
    chip.is_program();
    match fixpoint_alone(alloc, chip) {
        Ok(book) => {
            let printed = is_printed(alloc, chip, &book, text)?;
            let closed = read_closed(book).ok()?;
            Some((printed, is_printed_closed(alloc, chip, &closed, text)?))
        }
        Err(_) => None,
    }
}

#[test]
fn a_loop_is_printed_as_a_book_and_as_a_closed_book(rt: HostRuntime) -> Result<(), Fail> {
    let chip = chip_of(rt.alloc()).ok_or("a chip")?;
    let printed = are_printed(rt.alloc(), &chip, REPORT.as_bytes());
    assert_eq!(rt; printed, Some((true, true)));
    Ok(())
}
