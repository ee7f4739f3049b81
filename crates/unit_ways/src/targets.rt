//! The addresses of a set, from the least one to the greatest.

ghost use Rattle.std.specs.Prelude.{◌≡◌, ◌+◌, ◌<◌, length, slice_index};
ghost use Rattle.value_set.specs.Form.{members};
ghost use Rattle.unit_ways.specs.Targets as the_targets;
ghost use Rattle.unit_ways.specs.Targets.{targets_of, turn_of};

use value_set::{Form, Vs16, sets_have_members};

/// Whether there are more addresses than are followed.
pub fn are_too_many(limit: u32, targets: &Vs16) -> bool
    ensures { result ≡ the_targets.are_too_many limit targets.now }
{
    targets.count() > limit
}

/// The place of a set's last member.
pub(crate) fn last_place(set: &Vs16) -> u32
    ensures members { result + 1 ≡ length (members 65536 set.now) }
    ensures targets { result + 1 ≡ length (targets_of set.now) }
{
    sets_have_members();
    let _form = set.form();
    set.count() - 1
}

/// How many members of a set stand in front of its turn.
pub(crate) fn turn(set: &Vs16) -> u32
    ensures { result ≡ turn_of set.now }
{
    match set.form() {
        Form::Values(_) => 0,
        Form::Run(run) => ((65535 - run.base) / run.stride) as u32 + 1,
    }
}

/// The address at a place, of those in ascending order.
pub(crate) fn target(set: &Vs16, turn: u32, place: u32) -> u16
    requires turn { turn ≡ turn_of set.now }
    requires place { place < length (members 65536 set.now) }
    ensures { result ≡ slice_index (targets_of set.now) place }
{
    let behind = set.count().saturating_sub(turn);
    if place < behind {
        set.nth(turn + place)
    } else {
        set.nth(place - behind)
    }
}
