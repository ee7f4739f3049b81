//! How far the lines of a text have come.

ghost use Rattle.std.specs.Prelude.{◌≡◌, ◌<◌, ◌^◌, ◌++◌, ◌∷◌, [], List, ℕ, length, IfOk, IfErr, OnOk, OnErr};
ghost use Rattle.image.specs.declared.tail.Tail.{Tail};
ghost use Rattle.std.specs.Result.{result_err};
ghost use Rattle.ihex_read.specs.ImageText.{Denotes};
ghost use Rattle.ihex_read.specs.Reading.{TellsWhole};
ghost use Rattle.ihex_read.specs.Stages.{IsBehind, GoesOn, next_fault};

use crate::fault::{HexError, HexFault};
use crate::loading::Loader;
use image::{Image, Rules};
use no_memory::Memory;
use std::alloc::Global;

/// What the lines so far have made, and whether one of them is an end record.
#[derive(Drop)]
pub struct Progress {
    loader: Loader,
    ended: bool,
}

impl Progress {
    /// No line yet.
    pub fn new(alloc: Global, rules: Rules) -> Result<Progress, Memory>
        ensures rules { IfOk result (λ progress. progress.loader.rules ≡ rules) }
        ensures none { IfOk result (λ progress. (tail : Tail) → IsBehind tail [] progress) }
    {
        Ok(Progress {
            loader: Loader::new(alloc, rules)?,
            ended: false,
        })
    }

    pub fn has_ended(&self) -> bool
        ensures { result ≡ self.now.ended }
    {
        self.ended
    }

    /// Takes the next line, or answers the fault that it has. Behind the end record's line it must be blank.
    pub fn accept(&mut self, line: &[u8]) -> Result<(), HexFault>
        ensures fault { (tail : Tail) (lines : List (List ℕ)) → IsBehind tail lines self.old
            → result_err result ≡ next_fault self.old.loader.rules lines self.old.ended line.now }
        ensures ok { (tail : Tail) (lines : List (List ℕ)) → IsBehind tail lines self.old → GoesOn tail self.old.ended
            → OnOk result (IsBehind tail (lines ++ line.now ∷ []) self.new) }
        ensures err { (tail : Tail) (lines : List (List ℕ)) → IsBehind tail lines self.old
            → OnErr result (IsBehind tail lines self.new) }
        ensures rules { self.new.loader.rules ≡ self.old.loader.rules }
    {
        if self.ended {
            return if line.is_empty() {
                Ok(())
            } else {
                Err(HexFault::Trailing)
            };
        }
        self.ended = self.loader.accept(line)?;
        Ok(())
    }

    /// The image that the lines made, where one of them is an end record. There are `count` lines.
    pub fn finish(self, count: u32) -> Result<Image, HexError>
        requires { count < 2 ^ 31 }
        ensures image { (tail : Tail) (lines : List (List ℕ)) → IsBehind tail lines self
            → IfOk result (Denotes self.loader.rules tail lines) }
        ensures no_end { (tail : Tail) (lines : List (List ℕ)) → IsBehind tail lines self → count ≡ length lines
            → IfErr result (TellsWhole self.loader.rules tail lines) }
    {
        if !self.ended {
            return Err(HexError::Bad {
                line: count + 1,
                fault: HexFault::NoEnd,
            });
        }
        Ok(self.loader.into_image())
    }
}
