//! Laws of the definitions, as functions that do nothing.

ghost use Rattle.std.specs.Prelude.{◌≡◌, ◌∷◌, [], ℕ, List, Some, Contains};
ghost use Rattle.promises.specs.declared.promise.Promise.{Promise as APromise};
ghost use Rattle.promises.specs.declared.spoken.Growth.{Growth as AGrowth};
ghost use Rattle.promises.specs.Sentences.{promises_in, sentence};

/// A promise of a line is what its printed sentence says, alone on a line.
pub fn printed_promises_are_read()
    ensures { (growth : AGrowth) (line : List ℕ) (promises : List APromise) (promise : APromise)
        → promises_in growth line ≡ Some promises → Contains promises promise
        → promises_in growth (sentence promise) ≡ Some (promise ∷ []) }
{}
