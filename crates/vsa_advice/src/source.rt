//! A source that remembers how its text begins, and how a line of it does.

use crate::words::{begins_word, has_word};
use arrayvec::ArrayVec;
use hex_digits::word_in_either_case;
use std::alloc::Global;
use streams::{Failed, Source};

/// How many bytes of a text are remembered.
const ROOM: usize = 64;

/// How many bytes of the last piece are remembered.
const PIECE: usize = 4096;

/// How many bytes of a whole text are kept at most, and one piece.
const KEPT: usize = 16_777_216;

/// How many bytes of a line tell its address and its type: a colon, and four bytes by two digits each.
const HEAD: usize = 9;

/// How far a text was read.
#[derive(Clone, Copy)]
struct Place {
    /// The number of its line, from 1 on.
    line: usize,
    /// How the line begins, and how many bytes of it are known.
    head: [u8; HEAD],
    len: usize,
    /// Whether an earlier line moves the addresses of those behind it.
    is_moved: bool,
    /// Whether the line is behind the end record, in a second text.
    is_second: bool,
    /// How many lines of the second text in front of it aren't blank.
    filled: usize,
}

impl Place {
    /// Where a text begins.
    fn start() -> Place {
        Place {
            line: 1,
            head: [0; HEAD],
            len: 0,
            is_moved: false,
            is_second: false,
            filled: 0,
        }
    }

    /// How the line begins.
    fn head(&self) -> &[u8] {
        &self.head[..self.len.min(HEAD)]
    }

    /// Whether the line is one of a second text, and not blank as far as it is known.
    fn is_filled(&self) -> bool {
        self.is_second && self.head().iter().any(|byte| !byte.is_ascii_whitespace())
    }

    /// Goes behind a byte.
    fn pass(&mut self, byte: u8) {
        if byte == b'\n' {
            if self.is_filled() {
                self.filled = self.filled.saturating_add(1);
            }
            self.is_moved = self.is_moved || moves(self.head());
            self.is_second = self.is_second || ends(self.head());
            self.line = self.line.saturating_add(1);
            self.len = 0;
        } else if self.len < HEAD {
            self.head[self.len] = byte;
            self.len += 1;
        }
    }
}

/// Whether a line of this beginning moves the addresses of those behind it, by its record type.
fn moves(head: &[u8]) -> bool {
    head.ends_with(b"02") || head.ends_with(b"04")
}

/// Whether a line of this beginning ends an image text, by its record type.
fn ends(head: &[u8]) -> bool {
    matches!(head, [b':', .., b'0', b'1']) && head.len() == HEAD
}

/// A source that passes its bytes on, and remembers the first of them and the last piece.
#[derive(Drop)]
pub struct NotedSource<S: Source + Drop> {
    source: S,
    first: ArrayVec<u8, ROOM>,
    /// Where the last piece begins.
    place: Place,
    piece: ArrayVec<u8, PIECE>,
    /// The whole text, where it is kept.
    text: Option<Vec<u8>>,
}

impl<S: Source + Drop> NotedSource<S> {
    /// A source over another one. Its text is kept where there is a list for it.
    pub fn new(source: S, text: Option<Vec<u8>>) -> NotedSource<S> {
        NotedSource {
            source,
            first: ArrayVec::new(),
            place: Place::start(),
            piece: ArrayVec::new(),
            text,
        }
    }

    /// The whole text that was read, where it was kept and isn't too long.
    pub fn text(&self) -> Option<&[u8]> {
        match &self.text {
            Some(text) => Some(text.as_slice()),
            None => None,
        }
    }

    /// The whole text, where it was kept, and where memory comes from.
    pub(crate) fn kept(&self) -> Option<(Global, &[u8])> {
        match &self.text {
            Some(text) => Some((*text.allocator(), text.as_slice())),
            None => None,
        }
    }

    /// The first bytes of the text.
    pub fn first(&self) -> &[u8] {
        self.first.as_slice()
    }

    /// How many lines of the second text were read that aren't blank: the numbers of a script, or assertions.
    pub fn second_lines(&self) -> usize {
        let end = behind(self.place, self.piece.as_slice());
        end.filled.saturating_add(usize::from(end.is_filled()))
    }

    /// The address of the record in a line, where the last piece has the line's end, and no line in front of it moves the
    /// addresses.
    pub fn address_of(&self, line: usize) -> Option<u16> {
        let place = place_in(self.place, self.piece.as_slice(), line);
        if place.line != line || place.is_moved {
            return None;
        }
        match place.head() {
            [b':', _, _, digits @ .., _, _] => word_in_either_case(digits),
            _ => None,
        }
    }
}

/// How far a piece goes in front of the end of a line.
fn place_in(start: Place, piece: &[u8], line: usize) -> Place {
    let mut place = start;
    for byte in piece {
        if *byte == b'\n' && place.line == line {
            return place;
        }
        place.pass(*byte);
    }
    place
}

/// The place behind a piece.
fn behind(start: Place, piece: &[u8]) -> Place {
    let mut place = start;
    for byte in piece {
        place.pass(*byte);
    }
    place
}

/// Fills an empty list with as many bytes as it takes.
fn fill<const N: usize>(list: &mut ArrayVec<u8, N>, bytes: &[u8]) {
    for byte in bytes {
        if list.try_push(*byte).is_err() {
            return;
        }
    }
}

/// Remembers a piece in place of the one in front of it.
fn note(place: &mut Place, kept: &mut ArrayVec<u8, PIECE>, piece: &[u8]) {
    *place = behind(*place, kept.as_slice());
    kept.clear();
    fill(kept, piece);
}

/// Keeps a piece of a text, or none of the text any more.
fn keep(kept: &mut Option<Vec<u8>>, piece: &[u8]) {
    let is_lost = match kept {
        Some(text) => text.len() > KEPT || text.extend_from_slice(piece).is_err(),
        None => false,
    };
    if is_lost {
        *kept = None;
    }
}

impl<S: Source + Drop> Source for NotedSource<S> {
    ghost left = { λ s. S.left s.source };

    ghost faults = { λ s. S.faults s.source };

    fn read(&mut self, buffer: &mut [u8]) -> Result<usize, Failed> {
        let count = self.source.read(buffer)?;
        fill(&mut self.first, &buffer[..count]);
        note(&mut self.place, &mut self.piece, &buffer[..count]);
        keep(&mut self.text, &buffer[..count]);
        Ok(count)
    }
}

/// A list for the text of a run, whose question is looked up where its script ends too early, and of assertions where RAM has a
/// mirror, of which some may speak.
pub fn kept_text(alloc: Global, words: &[String]) -> Option<Vec<u8>> {
    if has_word(words, "run") || has_word(words, "assert") && begins_word(words, "--mirror") {
        Some(Vec::new(alloc))
    } else {
        None
    }
}
