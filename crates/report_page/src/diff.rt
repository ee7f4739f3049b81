//! What two reports differ in.

use crate::diff_names::named_text;
use crate::viewing::Shown;
use crate::words::verdict_word;
use marked_text::{Markup, Piece};
use no_memory::Memory;
use report_lines::Report;
use report_program::Depths;
use std::alloc::Global;
use std::collections::BTreeSet;
use symbol_lists::Names;

/// Some lines of a text, each once.
#[derive(Drop)]
struct Parts<'a> {
    all: BTreeSet<&'a [u8]>,
    /// As they are told: accesses sorted, others as they come.
    in_order: Vec<&'a [u8]>,
}

/// The parts of the lines of a letter, from their byte `from` on, which is behind the letter and its space.
fn parts_of<'a>(
    alloc: Global,
    text: &'a [u8],
    letter: u8,
    from: usize,
) -> Result<Parts<'a>, Memory> {
    let mut parts = Parts {
        all: BTreeSet::new(alloc),
        in_order: Vec::new(alloc),
    };
    for line in text.split(|byte| *byte == b'\n') {
        // (the first line, CLOSED or OPEN, has no space there)
        if line.starts_with(&[letter, b' '])
            && let Some(part) = line.get(from..)
            && !part.is_empty()
            && parts.all.insert(part)?
        {
            parts.in_order.push(part)?;
        }
    }
    if letter == b'M' || letter == b'A' {
        parts.in_order.sort()?;
    }
    Ok(parts)
}

/// The parts that two reports don't share.
#[derive(Drop)]
struct Change<'a> {
    went: Vec<&'a [u8]>,
    came: Vec<&'a [u8]>,
}

impl<'a> Change<'a> {
    /// How the lines of a letter differ, from so many bytes behind it on.
    fn of(
        alloc: Global,
        old: &'a [u8],
        new: &'a [u8],
        letter: u8,
        from: usize,
    ) -> Result<Change<'a>, Memory> {
        let old = parts_of(alloc, old, letter, from)?;
        let new = parts_of(alloc, new, letter, from)?;
        Ok(Change {
            went: without(alloc, &old, &new)?,
            came: without(alloc, &new, &old)?,
        })
    }

    fn is_none(&self) -> bool {
        self.went.is_empty() && self.came.is_empty()
    }
}

/// The parts that the other text hasn't.
fn without<'a>(alloc: Global, own: &Parts<'a>, other: &Parts<'a>) -> Result<Vec<&'a [u8]>, Memory> {
    let mut parts = Vec::new(alloc);
    for part in own.in_order.iter() {
        if !other.all.contains(part) {
            parts.push(*part)?;
        }
    }
    Ok(parts)
}

/// Writes what went and what came, under a name. Tells whether anything did.
fn write_change(text: &mut Markup, name: &str, change: &Change<'_>) -> bool {
    if change.is_none() {
        return false;
    }
    text.put_all(&[Piece::Marks("\n"), Piece::Marks(name), Piece::Marks("\n")]);
    write_parts(text, "- ", &change.went);
    write_parts(text, "+ ", &change.came);
    true
}

/// Writes parts behind a sign, each in a line.
fn write_parts<'x>(text: &mut Markup, sign: &'x str, parts: &Vec<&'x [u8]>) {
    for part in parts.iter() {
        text.put_all(&[Piece::Marks(sign), Piece::Bytes(*part), Piece::Marks("\n")]);
    }
}

/// Writes only how many lines went and came.
fn write_count(text: &mut Markup, name: &str, change: &Change<'_>) -> bool {
    if change.is_none() {
        return false;
    }
    text.put_all(&[
        Piece::Marks("\n"),
        Piece::Marks(name),
        Piece::Marks(": "),
        Piece::Number(change.went.len()),
        Piece::Marks(" went, "),
        Piece::Number(change.came.len()),
        Piece::Marks(" came\n"),
    ]);
    true
}

/// What a report says in all.
fn summary(text: &mut Markup, name: &str, report: &Report<'_>) {
    text.put(name);
    text.put_all(&[verdict_word(report)]);
    if let Some(depths) = Depths::of(report) {
        text.put_all(&[
            Piece::Marks(", stack "),
            Piece::Number(usize::from(depths.most())),
            Piece::Marks(" bytes"),
        ]);
    }
    text.put(", T ");
    text.put_all(&[Piece::Bytes(report.summary_text), Piece::Marks("\n")])
}

/// How the lines of a letter are told that differ: by what stands from a byte on, or only by their numbers.
struct Told {
    letter: u8,
    from: usize,
    name: &'static str,
    by_line: bool,
}

/// All that is told, in order.
const TOLD: [Told; 6] = [
    Told {
        letter: b'O',
        from: 2,
        name: "open sites",
        by_line: true,
    },
    Told {
        letter: b'M',
        from: 7,
        name: "memory, by address",
        by_line: true,
    },
    Told {
        letter: b'I',
        from: 2,
        name: "code",
        by_line: true,
    },
    Told {
        letter: b'M',
        from: 2,
        name: "accesses by instruction",
        by_line: false,
    },
    Told {
        letter: b'E',
        from: 2,
        name: "ways",
        by_line: false,
    },
    Told {
        letter: b'S',
        from: 2,
        name: "stack pointers",
        by_line: false,
    },
];

/// All that is told of lines with names, in order.
const TOLD_BY_NAME: [Told; 7] = [
    Told {
        letter: b'O',
        from: 2,
        name: "open sites",
        by_line: true,
    },
    Told {
        letter: b'F',
        from: 2,
        name: "functions",
        by_line: true,
    },
    Told {
        letter: b'A',
        from: 2,
        name: "memory, by address",
        by_line: true,
    },
    Told {
        letter: b'I',
        from: 2,
        name: "code",
        by_line: true,
    },
    Told {
        letter: b'M',
        from: 2,
        name: "accesses by instruction",
        by_line: false,
    },
    Told {
        letter: b'E',
        from: 2,
        name: "ways",
        by_line: false,
    },
    Told {
        letter: b'S',
        from: 2,
        name: "stack pointers",
        by_line: false,
    },
];

/// Tells how the lines of a letter differ, and whether they do.
fn tell(
    alloc: Global,
    text: &mut Markup,
    told: &Told,
    old: &[u8],
    new: &[u8],
) -> Result<bool, Memory> {
    let change = Change::of(alloc, old, new, told.letter, told.from)?;
    Ok(if told.by_line {
        write_change(text, told.name, &change)
    } else {
        write_count(text, told.name, &change)
    })
}

/// What two reports differ in, whose lines these are, and how it is told.
fn differences(
    alloc: Global,
    (old, old_text): (&Report<'_>, &[u8]),
    (new, new_text): (&Report<'_>, &[u8]),
    all_told: &[Told],
    nothing: &str,
) -> Result<Shown, Memory> {
    let mut text = Markup::new(alloc);
    summary(&mut text, "old: ", old);
    summary(&mut text, "new: ", new);
    let mut differs = old.closed != new.closed || old.summary != new.summary;
    for told in all_told {
        differs = tell(alloc, &mut text, told, old_text, new_text)? || differs;
    }
    if !differs {
        text.put(nothing);
    }
    Ok(Shown {
        text: text.finish()?,
        differs,
    })
}

/// What two reports, whose texts these are, differ in.
pub fn diff_of(
    alloc: Global,
    old: (&Report<'_>, &[u8]),
    new: (&Report<'_>, &[u8]),
) -> Result<Shown, Memory> {
    differences(alloc, old, new, &TOLD, "\nno line differs\n")
}

/// What two reports differ in by the names of their addresses.
pub fn named_diff_of(
    alloc: Global,
    (old, old_names): (&Report<'_>, &Names<'_>),
    (new, new_names): (&Report<'_>, &Names<'_>),
) -> Result<Shown, Memory> {
    let old_text = named_text(alloc, old, old_names)?;
    let new_text = named_text(alloc, new, new_names)?;
    differences(
        alloc,
        (old, old_text.as_slice()),
        (new, new_text.as_slice()),
        &TOLD_BY_NAME,
        "\nno line differs but by addresses\n",
    )
}
