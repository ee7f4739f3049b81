//! What was given in place of a report.

use hex_digits::word;
use report_lines::{Refusal, Why};

/// What is said of the answers of ./vsa to wrong words and images.
const REFUSED: &str =
    "The input is what ./vsa says of words or an image that it refuses, and no report.";

/// What is said of traces.
const TRACE: &str = "The input is the trace of a run, and no report.";

/// How texts begin that are known and no reports, and what they are.
const BEGINNINGS: [(&[u8], &str); 11] = [
    (
        b":",
        "The input is an Intel HEX text. `./vsa analyse CHIP image.hex | ./view html` makes its report first.",
    ),
    (b"USAGE", REFUSED),
    (b"BAD ", REFUSED),
    (b"LONG", REFUSED),
    (
        b"GEN ",
        "The input is the summary of a made program, which has no lines of a report.",
    ),
    (b"S ", TRACE),
    (b"NEED ", TRACE),
    (b"WILD ", TRACE),
    (b"\x7FELF", "The input is an ELF file, and no report."),
    (b"<", "The input is a page already."),
    (b"digraph", "The input is a graph already."),
];

/// What a text is that begins so, if it is known and no report.
fn known_text(text: &[u8]) -> Option<&'static str> {
    if text.is_empty() {
        return Some("The input is empty: did the analysis fail? It says on standard error why.");
    }
    for (beginning, sentence) in BEGINNINGS.iter() {
        if text.starts_with(*beginning) {
            return Some(*sentence);
        }
    }
    if is_disassembly(text) {
        Some("The input is a disassembly, and no report: `./vsa analyse` makes one.")
    } else {
        None
    }
}

/// Whether a text begins with an address, as a disassembly does.
fn is_disassembly(text: &[u8]) -> bool {
    text.len() > 4 && text[4] == b' ' && word(&text[..4]).is_some()
}

/// What was given in place of a report, where its first line is refused and the text is known.
pub fn given_instead(refusal: Refusal, text: &[u8]) -> Option<&'static str> {
    match refusal.why {
        Why::NoVerdict | Why::Empty => known_text(text),
        _ => None,
    }
}
