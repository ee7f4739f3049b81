//! Units that are out.

ghost use Rattle.std.specs.Prelude.{◌≡◌};
ghost use Rattle.std.specs.Option.{option_copied};

use crate::met::Met;
use crate::place::Place;
use crate::spent::Rest;
use book_rules::Versions;
use call_context::Unit;
use chip_analysis::{Chip, Work};
use std::marker::Model;

/// A unit that is out, with copies of its input states.
#[derive(Drop)]
pub struct Ticket<C: Chip> {
    seat: u32,
    unit: Unit,
    /// Where the unit's nodes stand in the book that gave it. Another book looks whether they stand there in it.
    place: Place,
    at: C::Abs,
    exit: Option<C::Abs>,
    versions: Versions,
    /// What those nodes held that the unit's last work posted to.
    met: Met<C::Abs>,
}

impl<C: Chip> Model for Ticket<C> {
    ghost use Rattle.book_rules.specs.Machine.{Out};

    ghost Value = { Out C.Abs };

    ghost view = { λ t. record { seat = t.seat; unit = t.unit; at = t.at; exit = t.exit; versions = t.versions; nodes = t.met } };
}

impl<C: Chip> Ticket<C> {
    /// A ticket of these parts.
    pub(crate) fn new(
        seat: u32,
        unit: Unit,
        place: Place,
        at: C::Abs,
        exit: Option<C::Abs>,
        versions: Versions,
        met: Met<C::Abs>,
    ) -> Self
        ensures { result ≡ record { seat = seat; unit = unit; at = at; exit = exit; versions = versions; nodes = met } }
    {
        Ticket {
            seat,
            unit,
            place,
            at,
            exit,
            versions,
            met,
        }
    }

    /// The seat, the unit, the versions of its inputs, and the copies of states.
    pub(crate) fn into_parts(self) -> (u32, Unit, Versions, Rest<C::Abs>)
        ensures { (result.0 ≡ self.seat) × (result.1 ≡ self.unit) × (result.2 ≡ self.versions) }
    {
        let Ticket {
            seat,
            unit,
            place: _,
            at,
            exit,
            versions,
            met,
        } = self;
        let met = met.into_rows();
        (seat, unit, versions, Rest { at, exit, met })
    }

    /// What nodes held when the unit was claimed.
    pub(crate) fn met(&self) -> &Met<C::Abs>
        ensures { result.now ≡ self.now.nodes }
    {
        &self.met
    }

    /// Whether the ticket took along what nodes hold, so that its worker can look ahead.
    pub fn can_look_ahead(&self) -> bool {
        !self.met.is_empty()
    }

    /// Where the unit's nodes stood when it was claimed.
    pub(crate) fn place(&self) -> Place {
        self.place
    }

    /// The versions of the unit's inputs when it was claimed.
    pub(crate) fn versions(&self) -> Versions
        ensures { result ≡ self.now.versions }
    {
        self.versions
    }

    /// The unit that is out.
    pub fn unit(&self) -> &Unit
        ensures { result.now ≡ self.now.unit }
    {
        &self.unit
    }

    /// The state of the unit's node when it was claimed.
    pub fn at(&self) -> &C::Abs
        ensures { result.now ≡ self.now.at }
    {
        &self.at
    }

    /// The state of the unit's exit when it was claimed, for a return.
    pub fn exit(&self) -> Option<&C::Abs>
        ensures { option_copied result ≡ self.now.exit }
    {
        self.exit.as_ref()
    }
}

/// The answer to a claim.
#[derive(Drop)]
pub enum Claimed<C: Chip> {
    /// The first unit that could be claimed is out now.
    Ticket(Ticket<C>),
    /// No unit can be claimed, and some unit is out.
    Idle,
    /// No unit can be claimed, and none is out.
    Finished,
}

/// A unit that is out, with its work.
#[derive(Drop)]
pub struct Done<C: Chip> {
    pub ticket: Ticket<C>,
    pub work: Work<C::Abs>,
}
