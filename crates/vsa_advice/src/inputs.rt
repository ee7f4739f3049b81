//! What an input is that isn't an Intel HEX text, by its first bytes.

const EMPTY: &str =
    "the input is empty. Name a file, as in `./vsa analyse msp430 image.hex`; if a command made this one, did it fail?";

const UTF_16: &str =
    "the input is UTF-16, as some shells write it. `iconv -f UTF-16 -t ASCII image.hex > plain.hex` makes plain text of it.";

const PACKED: &str = "the input is packed. Unpack it first.";

const S_RECORDS: &str =
    "the input has Motorola S-records. `srec_cat image.s19 -motorola -o image.hex -intel` makes a .hex of them.";

const TI_TXT: &str =
    "the input is TI-TXT. `srec_cat image.txt -ti_txt -o image.hex -intel` makes a .hex of it.";

const REPORT: &str =
    "the input is a report, and no image. `./view html < report.txt > report.html` shows it.";

const BINARY: &str =
    "the input is no text. Is it a plain binary? `srec_cat image.bin -binary -offset 0xF000 -o image.hex -intel` makes a .hex of one that begins at F000h.";

/// How inputs begin that are no Intel HEX texts, each with what it is.
const BEGINNINGS: [(&[u8], &str); 8] = [
    (
        b"\xEF\xBB\xBF",
        "the input begins with a byte order mark. `sed '1s/^\\xEF\\xBB\\xBF//' image.hex > plain.hex` takes it away.",
    ),
    (b"\xFF\xFE", UTF_16),
    (b"\xFE\xFF", UTF_16),
    (
        b"\x7FELF",
        "the input is an ELF file. `msp430-elf-objcopy -O ihex program.elf image.hex`, or llvm-objcopy, makes a .hex of it.",
    ),
    (b"PK\x03\x04", PACKED),
    (b"\x1F\x8B", PACKED),
    (b"CLOSED", REPORT),
    (b"OPEN", REPORT),
];

/// Whether a byte may stand in a text.
fn is_text(byte: u8) -> bool {
    b' ' <= byte && byte <= b'~' || byte == b'\t' || byte == b'\r' || byte == b'\n'
}

/// What an input is by its beginning alone, or by a byte that no text has.
fn by_beginning(first: &[u8]) -> Option<&'static str> {
    for (beginning, sentence) in BEGINNINGS.iter() {
        if first.starts_with(*beginning) {
            return Some(*sentence);
        }
    }
    if first.iter().all(|byte| is_text(*byte)) {
        None
    } else {
        Some(BINARY)
    }
}

/// What an input is that begins so, and which command makes a `.hex` of it. None, if it may be an Intel HEX text.
pub fn other_input(first: &[u8]) -> Option<&'static str> {
    match first {
        [] => Some(EMPTY),
        [b'S', kind, digit, ..] if kind.is_ascii_digit() && digit.is_ascii_hexdigit() => {
            Some(S_RECORDS)
        }
        [b'@', digit, ..] if digit.is_ascii_hexdigit() => Some(TI_TXT),
        _ => by_beginning(first),
    }
}
