//! What the words ask.

use hex_digits::word;

/// What a page says of where its report is from.
#[derive(Clone, Copy)]
pub struct Labels<'a> {
    /// The name of the image's file. Where it is there, the image's text stands behind the report.
    pub image: Option<&'a str>,
    /// The image's SHA-256.
    pub sum: Option<&'a str>,
    /// The words of the analysis.
    pub words: Option<&'a str>,
    /// The version of the analyser.
    pub version: Option<&'a str>,
}

impl Labels<'_> {
    /// Nothing is known.
    pub const NONE: Labels<'static> = Labels {
        image: None,
        sum: None,
        words: None,
        version: None,
    };
}

/// What is asked of a report.
#[derive(Clone, Copy)]
pub enum Ask<'a> {
    /// A page.
    Html(Labels<'a>),
    /// The graph of all instructions.
    Dot,
    /// The graph of calls.
    Calls,
    /// The graph of the function that begins there.
    Function(u16),
    /// What another report, which stands behind it, has and it hasn't, and the other way round.
    Diff,
}

/// How many bytes the lists of symbols have that stand behind all else.
#[derive(Clone, Copy)]
pub enum Lists {
    None,
    One(usize),
    /// That of the old report, and that of the new one.
    Two(usize, usize),
}

/// What the words ask.
#[derive(Clone, Copy)]
pub struct Asked<'a> {
    pub what: Ask<'a>,
    pub lists: Lists,
}

/// The number of a word such as `names=120`.
fn length_of(word: &String) -> Option<usize> {
    match word.as_str().split_once('=') {
        Some(("names", digits)) => digits.parse::<usize>().ok(),
        _ => None,
    }
}

/// The words in front of those of lists of symbols.
fn lists_behind(words: &[String]) -> (&[String], Lists) {
    let Some((last, front)) = words.split_last() else {
        return (words, Lists::None);
    };
    let Some(new) = length_of(last) else {
        return (words, Lists::None);
    };
    let Some((last, rest)) = front.split_last() else {
        return (front, Lists::One(new));
    };
    match length_of(last) {
        Some(old) => (rest, Lists::Two(old, new)),
        None => (front, Lists::One(new)),
    }
}

/// The labels of words such as `image=lamp.hex`.
fn labels_of(words: &[String]) -> Option<Labels<'_>> {
    let mut labels = Labels::NONE;
    for word in words {
        let (name, text) = word.as_str().split_once('=')?;
        match name {
            "image" => labels.image = Some(text),
            "sha256" => labels.sum = Some(text),
            "words" => labels.words = Some(text),
            "version" => labels.version = Some(text),
            _ => return None,
        }
    }
    Some(labels)
}

/// What the words behind the program's name ask.
pub fn ask_of(words: &[String]) -> Option<Asked<'_>> {
    let (words, lists) = lists_behind(words);
    let what = what_of(words)?;
    Some(Asked { what, lists })
}

/// What is asked by the words in front of those of lists.
fn what_of(words: &[String]) -> Option<Ask<'_>> {
    let (first, rest) = words.split_first()?;
    match (first.as_str(), rest) {
        ("html", labels) => Some(Ask::Html(labels_of(labels)?)),
        ("dot", []) => Some(Ask::Dot),
        ("dot", [which]) if which.as_str() == "calls" => Some(Ask::Calls),
        ("dot", [which]) => Some(Ask::Function(word(which.as_str().as_bytes())?)),
        ("diff", []) => Some(Ask::Diff),
        _ => None,
    }
}

/// A text up to the end of its first T line, and what stands behind that.
pub fn front_of(text: &[u8]) -> (&[u8], &[u8]) {
    let mut begins = true;
    let mut is_last = false;
    for k in 0..text.len() {
        is_last = is_last || (begins && text[k] == b'T');
        begins = text[k] == b'\n';
        if begins && is_last {
            return (&text[..k + 1], &text[k + 1..]);
        }
    }
    (text, b"")
}
