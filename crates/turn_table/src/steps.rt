//! The atomic steps of each call. `specs/Plays.antt` says what they tell the seat, `specs/Views.antt` what they make of
//! what it knows:
//!
//! | step | call | what it does |
//! |---|---|---|
//! | `fetch_add` on the tickets | `turn` | the seat draws a ticket |
//! | load of the turns | `turn` | at its ticket the seat takes the value, and has seen its history; else nothing changes |
//! | `fetch_add` on the turns | `pass` | the value is at home again, with the history that the turn leaves |
//! | load of the tickets | `split` | the seat gives its greatest number to a new seat |
//! | load of the tickets | `join` | the seat is told what the other had seen, and the other is spent |
//! | load of the turns | `join` | the seat has seen the longer of both histories |
//!
//! Between the load that finds its turn and the `fetch_add` that passes it the slot is plain memory of the seat. While a
//! call is between two steps, what a contract sees of a seat need not hold, so these functions work on its place alone.
ghost use Rattle.std.specs.Prelude.{◌≡◌, ℕ, ◌<◌, [], ◌∷◌};
ghost use Rattle.turn_table.specs.Plays.{Begins, Catches, IsIdle, MayPass};
ghost use Rattle.turn_table.specs.Shown.{IsSized};
ghost use Rattle.turn_table.specs.Views.{idle, SeatedAnd, on, serves, passes, gives, given_seat, catches_up, both_seats};

use crate::bells::Bells;
use crate::board::{Board, CatchUp, Draw, Give, Look, Pass, Place, TakeIn};
use crate::journaled::Journaled;
use std::hint;
use std::sync::Wait;

/// The word that counts the tickets drawn.
const TICKETS: usize = 0;

/// The word that counts the turns passed.
const TURNS: usize = 1;

/// How often a waiting seat looks at the turns before it sleeps: for some tenths of a millisecond, many times as long as the
/// turns in front of it take. Who sleeps makes all behind it wait for the system.
const LOOKS: u32 = 8_000;

/// What a waiting seat does between two looks, where it doesn't sleep yet. It answers how often it has looked.
fn look_again(looks: u32) -> u32 {
    hint::spin_loop();
    looks.saturating_add(1)
}

/// Draws a ticket, waits until it is served, and takes the value.
pub(crate) fn wait_turn<B: Journaled, R: Wait>(
    rt: &R,
    board: &Board<B>,
    bells: &Bells,
    place: &mut Place<B>,
) -> B
    requires table { (place.old.table_id ≡ board.now.table_id) × IsSized board.now.table_id }
    requires idle { IsIdle place.old.me }
    ensures table { place.new.table_id ≡ place.old.table_id }
    ensures turn { (t : ℕ) × (place.new.me ≡ (on (serves t (B.history result)) place.old.me.0, (0, None) ∷ [])) }
    ensures begins { SeatedAnd place.old.me.0 (Begins B.seat_of (B.base result) (B.history result)) }
{
    let ticket = board.fetch_add::<Draw<B>>(place, TICKETS, 1);
    let mut looks = 0;
    for _ in rt.forever() {
        // Announced before the look, so that the turn comes at this look, or its bell ends the sleep.
        let announced = (LOOKS <= looks).then(|| bells.of(ticket).prepare_wait());
        let turns = board.load::<Look<B>>(place, TURNS);
        if turns == ticket {
            return board.exchange(place, 0, None).unwrap();
        }
        match announced {
            Some(key) => key.wait(rt),
            None => looks = look_again(looks),
        }
    }
    unreachable!()
}

/// Puts the value back, passes the turn, and wakes the seat whose turn comes, if it sleeps.
pub(crate) fn pass_turn<B: Journaled>(
    board: &Board<B>,
    bells: &Bells,
    place: &mut Place<B>,
    value: B,
)
    requires table { (place.old.table_id ≡ board.now.table_id) × IsSized board.now.table_id }
    requires held { place.old.me.1 ≡ (0, None) ∷ [] }
    requires may { SeatedAnd place.old.me.0 (MayPass B.history B.seat_of B.base value) }
    ensures table { place.new.table_id ≡ place.old.table_id }
    ensures passed { place.new.me ≡ (on (passes (B.history value)) place.old.me.0, []) }
{
    let before = board.exchange(place, 0, Some(value));
    let None = before else { unreachable!() };
    let turns = board.fetch_add::<Pass<B>>(place, TURNS, 1);
    bells.of(turns.wrapping_add(1)).notify_all();
}

/// Gives a number to a new seat.
pub(crate) fn part<B: Journaled>(board: &Board<B>, place: &mut Place<B>) -> Place<B>
    requires table { (place.old.table_id ≡ board.now.table_id) × IsSized board.now.table_id }
    requires room { SeatedAnd place.old.me.0 (λ v. 0 < v.room) }
    ensures table { (place.new.table_id ≡ place.old.table_id) × (result.table_id ≡ place.old.table_id) }
    ensures given { (place.new.me ≡ (on gives place.old.me.0, place.old.me.1)) × (result.me ≡ (on given_seat place.old.me.0, [])) }
{
    board.split_seat::<Give>(place)
}

/// Takes in another seat, and looks once at what both have seen.
pub(crate) fn take_in<B: Journaled>(board: &Board<B>, place: &mut Place<B>, other: Place<B>)
    requires table { (place.old.table_id ≡ board.now.table_id) × (other.table_id ≡ board.now.table_id) × IsSized board.now.table_id }
    requires told { SeatedAnd place.old.me.0 (λ v. v.told ≡ []) }
    requires other { SeatedAnd other.me.0 (λ w. (w.told ≡ []) × (w.stage ≡ idle)) × (other.me.1 ≡ []) }
    ensures table { place.new.table_id ≡ place.old.table_id }
    ensures joined { place.new.me ≡ (on catches_up (both_seats place.old.me.0 other.me.0), place.old.me.1) }
    ensures begins { SeatedAnd (both_seats place.old.me.0 other.me.0) (Catches B.seat_of) }
{
    board.join_seat::<TakeIn>(place, other);
    board.load::<CatchUp<B>>(place, TURNS);
}
