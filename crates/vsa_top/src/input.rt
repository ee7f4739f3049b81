//! Reading the image text of a source.

ghost use Rattle.std.specs.Prelude.{◌≡◌, ◌≢◌, ◌+◌, ◌++◌, ◌<◌, ◌≤◌, ◌↔◌, ℕ, List, [], None, Some, IsTrue, length, take, IfOk, IfErr, OnOk, IfSome};
ghost use Rattle.image.specs.Kept.{IsRamRange, IsReadUnder};
ghost use Rattle.image.specs.declared.tail.Tail.TheVariants.{Second};
ghost use Rattle.ihex_read.specs.Reading.{HasEnded};
ghost use Rattle.vsa_top.specs.Faults.{TellsFaults};
ghost use Rattle.vsa_top.specs.Input.{InputGives, LacksImage, begun_with};

use ihex_read::{
    HexError, HexFault, MOST_BYTES, Reader, Tail, ended_texts_stay, whole_faults_stay,
};
use image::{Image, Rules};
use no_memory::Memory;
use std::alloc::{AllocError, Global};
use streams::{Failed, Source};

/// Why an input gives no image.
#[derive(Clone, Copy, Debug, PartialEq, Eq)]
pub enum InputError {
    /// The source failed.
    Failed,
    /// Memory was refused.
    Memory,
    /// The first faulty line, counted from 1, and its fault.
    Bad { line: u32, fault: HexFault },
    /// The source has more bytes than an image text may have, and no line among the first ones is faulty.
    TooLong,
}

impl From<Failed> for InputError {
    ghost use Rattle.vsa_top.specs.declared.input.InputError.TheVariants as input_error;

    ghost from_gives = { λ _ e. e ≡ input_error.Failed };

    fn from(_error: Failed) -> InputError {
        InputError::Failed
    }
}

impl From<Memory> for InputError {
    ghost use Rattle.vsa_top.specs.declared.input.InputError.TheVariants as input_error;

    ghost from_gives = { λ _ e. e ≡ input_error.Memory };

    fn from(_error: Memory) -> InputError {
        InputError::Memory
    }
}

impl From<AllocError> for InputError {
    ghost use Rattle.vsa_top.specs.declared.input.InputError.TheVariants as input_error;

    ghost from_gives = { λ _ e. e ≡ input_error.Memory };

    fn from(_error: AllocError) -> InputError {
        InputError::Memory
    }
}

impl From<HexError> for InputError {
    ghost use Rattle.vsa_top.specs.Input.{input_error_of};

    ghost from_gives = { λ error e. e ≡ input_error_of error };

    fn from(error: HexError) -> InputError {
        match error {
            HexError::Bad { line, fault } => InputError::Bad { line, fault },
            HexError::Memory => InputError::Memory,
        }
    }
}

/// Whether a second text begins behind the text that was used.
fn is_at_second(reader: &Reader, tail: Tail) -> bool
    ensures { IsTrue result ↔ (tail ≡ Second) × HasEnded reader.now.rules reader.now.text }
{
    match tail {
        Tail::Second => reader.ended(),
        Tail::Blank => false,
    }
}

/// Feeds a piece, of which there is room for so many bytes, and answers how many of them were used: all, save that none
/// behind the end record's line is where a second text is expected.
fn feed_piece(
    reader: &mut Reader,
    tail: Tail,
    room: usize,
    piece: &[u8],
) -> Result<usize, InputError>
    requires tail { reader.old.tail ≡ tail }
    requires faultless { reader.old.error ≡ None }
    requires room { length reader.old.text + room ≡ MOST_BYTES }
    ensures within { IfOk result (λ used. (used ≤ room) × (used ≤ length piece.now)) }
    ensures text { IfOk result (λ used. reader.new ≡ record reader.old { text = reader.old.text ++ take used piece.now }) }
    ensures first { IfOk result (λ used. reader.old.tail ≡ Second
        → (k : ℕ) → k < length (reader.old.text ++ take used piece.now) → HasEnded reader.old.rules (take k (reader.old.text ++ take used piece.now)) → ⊥) }
    ensures stops { IfOk result (λ used. used < length piece.now
        → (reader.old.tail ≡ Second) × HasEnded reader.old.rules (reader.old.text ++ take used piece.now)) }
    ensures refused { IfErr result (λ error. (behind : List ℕ) → LacksImage reader.old.rules reader.old.tail ((reader.old.text ++ piece.now) ++ behind) error) }
    ensures read { IfErr result (λ error. error ≢ InputError.Failed) }
{
    whole_faults_stay();
    let count = piece.len().min(room);
    let used = reader.feed(&piece[..count])?;
    if used < piece.len() && !is_at_second(reader, tail) {
        return Err(InputError::TooLong);
    }
    Ok(used)
}

/// The image that a source's text gives, and what was read of a second text behind it. The text is read in pieces, and none
/// of them is kept.
pub fn image_in<S: Source>(
    alloc: Global,
    source: &mut S,
    rules: Rules,
    tail: Tail,
) -> Result<(Image, Vec<u8>), InputError>
    requires { IsRamRange rules }
    ensures image { IfOk result (λ given. InputGives rules tail (S.left source.old) (begun_with given.1.items (S.left source.new)) given.0) }
    ensures kept { IfOk result (λ given. IsReadUnder rules given.0) }
    ensures refused { IfErr result (λ error. IfSome (S.left source.old) (λ text. LacksImage rules tail text error)) }
    ensures faults { TellsFaults InputError.Failed (S.faults source.old) (S.faults source.new) result }
{
    ended_texts_stay();
    let mut reader = Reader::new(alloc, rules, tail)?;
    let mut buffer = [0u8; 4096];
    let mut room = MOST_BYTES;
    loop {
        let count = source.read(&mut buffer)?;
        if count == 0 {
            return Ok((reader.end()?, Vec::new(alloc)));
        }
        let used = feed_piece(&mut reader, tail, room, &buffer[..count])?;
        if used < count {
            let begun = Vec::from_slice(alloc, &buffer[used..count])?;
            return Ok((reader.end()?, begun));
        }
        room -= used;
    }
}
