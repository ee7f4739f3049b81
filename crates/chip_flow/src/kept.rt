//! What is known of a state, as it is handed on and kept.

ghost use Rattle.std.specs.Prelude.{◌≡◌, IfOk};

use no_memory::Memory;
use std::alloc::Global;
use std::marker::Model;
use std::sync::Arc;

/// What is known of a state, behind a shared pointer: posts and tables move no more than that, and a copy costs a count.
#[derive(Drop)]
pub struct Kept<S> {
    state: Arc<S>,
}

impl<S> Model for Kept<S> {
    ghost use Rattle.std.specs.Arc.{arc_value};

    ghost Value = { S };

    ghost view = { λ kept. arc_value kept.state };
}

impl<S: Drop> Kept<S> {
    /// Keeps what is known, or answers that memory lacks.
    pub fn new(alloc: Global, state: S) -> Result<Kept<S>, Memory>
        ensures { IfOk result (λ kept. kept ≡ state) }
    {
        let state = Arc::new(alloc, state)?;
        Ok(Kept { state })
    }

    /// Keeps what is known, where that can be.
    pub fn if_known(alloc: Global, known: Option<S>) -> Result<Option<Kept<S>>, Memory>
        ensures { IfOk result (λ kept. kept ≡ known) }
    {
        match known {
            Some(state) => Ok(Some(Kept::new(alloc, state)?)),
            None => Ok(None),
        }
    }

    /// The same, shared. It fails only where no number counts the owners.
    pub fn copy(&self) -> Result<Kept<S>, Memory>
        ensures { IfOk result (λ copy. copy ≡ self.now) }
    {
        let state = Arc::try_clone(&self.state)?;
        Ok(Kept { state })
    }

    /// What is kept.
    pub fn state(&self) -> &S
        ensures { result.now ≡ self.now }
    {
        &self.state
    }
}
