//! What a seat knows. It exists in proofs alone.
use std::marker::{Model, PhantomData};

/// A seat's view: plain data of the proofs, `Standing` of `specs/Views.antt`. No value of it is made.
pub struct View<E, C> {
    of: PhantomData<(E, C)>,
}

impl<E, C> Model for View<E, C> {
    ghost use Rattle.turn_table.specs.Views.{Standing, spent};

    ghost Value = { Standing E C };

    ghost view = { λ _. spent };
}
