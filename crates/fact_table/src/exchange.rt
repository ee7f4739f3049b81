//! What an exchange does to the book: it posts works, and then claims units.

ghost use Rattle.std.specs.Prelude.{IfErr, OnErr, OnOk, OnSome, MatchOption, ◌≡◌, ◌≤◌, ◌<◌, ◌⊎◌, ◌∷◌, [], false, true, not, IsTrue, vec_len, vec_capacity};
ghost use Rattle.std.specs.List.{AllByRecursion};
ghost use Rattle.fact_table.specs.Exchange.{AnswersFurther, AreAhead, AreOutOf, ClaimsSome, ExchangesOn, IsWorked, Posts, tickets_of};
ghost use Rattle.book_rules.specs.Claimable.{HasAtLeast};
ghost use Rattle.book_rules.specs.Kept.{with_event, IsOutOf};
ghost use Rattle.book_rules.specs.Machine.{replay};
ghost use Rattle.book_rules.specs.declared.event.Event.TheVariants.{Post};

use book_rules::{outs_stay_beside, tests_tell_which_are_one};
use chip_analysis::Chip;
use no_memory::Memory;
use round_core::{Ahead, Book, Claimed, Done, Spent, Ticket};
use std::alloc::Global;
use std::collections::VecDeque;

/// Why an exchange gave no further ticket.
#[derive(Clone, Copy, Debug, PartialEq, Eq)]
pub enum Last {
    /// It gave as many as were wanted.
    Full,
    /// Some units can be claimed, but fewer than are to be left to share.
    Shared,
    /// No unit can be claimed, and some unit is out.
    Idle,
    /// No unit can be claimed, and none is out.
    Finished,
    /// Memory ran out.
    Memory,
}

/// What an exchange answers: the works that weren't posted for want of memory, and the tickets of the units that were claimed.
#[derive(Drop)]
pub struct Exchanged<C: Chip> {
    pub unposted: Vec<Done<C>>,
    pub tickets: Vec<Ticket<C>>,
    pub last: Last,
    /// Whether further units may be left to claim. False says that there are none.
    pub left: bool,
}

/// Puts an item before all others, for which there is room.
fn put_first<T: Drop>(items: &mut Vec<T>, item: T)
    requires { vec_len items.old < vec_capacity items.old }
    ensures { items.new.items ≡ item ∷ items.old.items }
{
    match items.insert(0, item) {
        Ok(()) => {}
        Err(_) => unreachable!(),
    }
}

/// Takes the first item, which leaves room for one.
fn take_front<T>(items: &mut Vec<T>) -> Option<T>
    ensures first { MatchOption result ((items.old.items ≡ []) × (items.new.items ≡ []))
        (λ first. items.old.items ≡ first ∷ items.new.items) }
    ensures room { OnSome result (vec_len items.new < vec_capacity items.new) }
{
    if items.is_empty() {
        None
    } else {
        Some(items.remove(0))
    }
}

/// Posts the work of a ticket, and hands out what the post replaces. A refused post leaves the book as it was and hands the work
/// back.
pub(crate) fn post_one<C: Chip>(
    book: &mut Book<C>,
    chip: &C,
    done: Done<C>,
) -> (Result<(), (Memory, Done<C>)>, Spent<C::Abs>)
    requires chip { C.base chip.now ≡ book.old.base }
    requires out { IsOutOf (replay (C.analysis book.old.base) book.old.journal) done.ticket }
    requires work { IsWorked (C.analysis book.old.base) done }
    ensures posted { OnOk result.0
        (book.new ≡ with_event book.old (Post done.ticket.seat done.ticket.unit)) }
    ensures refused { OnErr result.0 (book.new ≡ book.old) }
    ensures handed_back { IfErr result.0 (λ refused. refused.1 ≡ done) }
{
    let posted = book.post(chip, done);
    (posted, book.take_spent())
}

/// Whether some ticket took along what nodes hold.
fn can_look_ahead<C: Chip>(done: &[Done<C>]) -> bool {
    for one in done {
        if one.ticket.can_look_ahead() {
            return true;
        }
    }
    false
}

/// Works out ahead of the turn what the posts of works make of nodes that don't rise before, as far as tickets took along what
/// nodes hold, and memory lasts.
pub(crate) fn look_ahead<C: Chip>(
    alloc: Global,
    chip: &C,
    done: &[Done<C>],
) -> VecDeque<Ahead<C::Abs>>
    ensures { AreAhead (C.analysis (C.base chip.now)) done.now result.items }
{
    let mut ahead = VecDeque::new(alloc);
    if !can_look_ahead(done) {
        return ahead;
    }
    for one in done {
        match ahead.push_back(one.look_ahead(alloc, chip)) {
            Ok(()) => {}
            Err(_) => return ahead,
        }
    }
    ahead
}

/// What was looked ahead of the next work.
fn take_first<A: Drop>(alloc: Global, ahead: &mut VecDeque<Ahead<A>>) -> Ahead<A>
    ensures { (ahead.old.items ≡ result ∷ ahead.new.items)
        ⊎ ((ahead.old.items ≡ []) × (ahead.new.items ≡ []) × (result ≡ [])) }
{
    match ahead.pop_front() {
        Some(first) => first,
        None => Ahead::none(alloc),
    }
}

/// Posts works in their order, until memory runs out. Those that are left are handed back.
fn post_all<C: Chip>(
    book: &mut Book<C>,
    chip: &C,
    done: Vec<Done<C>>,
    ahead: VecDeque<Ahead<C::Abs>>,
) -> Vec<Done<C>>
    requires chip { C.base chip.now ≡ book.old.base }
    requires out { AreOutOf (replay (C.analysis book.old.base) book.old.journal)
        (tickets_of done.items) }
    requires works { AllByRecursion (IsWorked (C.analysis book.old.base)) done.items }
    requires ahead { AreAhead (C.analysis book.old.base) done.items ahead.items }
    ensures { Posts (C.analysis book.old.base) book.old done.items result.items book.new }
{
    outs_stay_beside::<C>();
    let mut left = done;
    let mut ahead = ahead;
    while let Some(first) = take_front(&mut left) {
        let looked = take_first(*left.allocator(), &mut ahead);
        if let Err((_, refused)) = book.post_ahead(chip, first, looked) {
            put_first(&mut left, refused);
            return left;
        }
    }
    left
}

/// Whether a further claim of the turn may come: behind other tickets only where so many units can be claimed.
fn may_claim<C: Chip>(book: &Book<C>, share: u32, behind: bool) -> bool
    ensures may { IsTrue result → behind ≡ true
        → HasAtLeast (replay (C.analysis book.now.base) book.now.journal) share }
    ensures behind { IsTrue (not result) → behind ≡ true }
    ensures few { IsTrue (not result)
        → HasAtLeast (replay (C.analysis book.now.base) book.now.journal) share → ⊥ }
{
    !behind || book.can_claim(share)
}

/// Claims the first unit, or says why there is none.
fn claim_first<C: Chip>(book: &mut Book<C>, chip: &C, seat: u32) -> Result<Ticket<C>, Last>
    requires { C.base chip.now ≡ book.old.base }
    ensures { AnswersFurther (C.analysis book.old.base) seat book.old book.new 0 false result }
{
    match book.claim_to_look_ahead(chip, seat) {
        Ok(Claimed::Ticket(ticket)) => Ok(ticket),
        Ok(Claimed::Idle) => Err(Last::Idle),
        Ok(Claimed::Finished) => Err(Last::Finished),
        Err(Memory) => Err(Last::Memory),
    }
}

/// The same where the turn has given tickets before, and leaves so many units to share.
fn claim_further<C: Chip>(
    book: &mut Book<C>,
    chip: &C,
    seat: u32,
    share: u32,
    behind: bool,
) -> Result<Ticket<C>, Last>
    requires { C.base chip.now ≡ book.old.base }
    ensures { AnswersFurther (C.analysis book.old.base) seat book.old book.new share behind result }
{
    if may_claim(book, share, behind) {
        return claim_first(book, chip, seat);
    }
    if book.has_claimable() {
        Err(Last::Shared)
    } else {
        Err(Last::Idle)
    }
}

/// Claims units, as many as are wanted, and puts their tickets where there is room for them.
fn claim_some<C: Chip>(
    book: &mut Book<C>,
    chip: &C,
    seat: u32,
    tickets: Vec<Ticket<C>>,
    want: u32,
    share: u32,
) -> (Vec<Ticket<C>>, Last)
    requires chip { C.base chip.now ≡ book.old.base }
    requires empty { tickets.items ≡ [] }
    requires room { want ≤ vec_capacity tickets }
    ensures { ClaimsSome (C.analysis book.old.base) seat book.old want share
        result.0.items result.1 book.new }
{
    outs_stay_beside::<C>();
    tests_tell_which_are_one();
    let mut tickets = tickets;
    for count in 0..want {
        match claim_further(book, chip, seat, share, 0 < count) {
            Ok(ticket) => tickets.push_reserved(ticket),
            Err(last) => return (tickets, last),
        }
    }
    (tickets, Last::Full)
}

/// Whether units may be left to claim, without a look at any of them.
fn may_be_left<C: Chip>(book: &Book<C>) -> bool
    ensures { IsTrue (not result)
        → HasAtLeast (replay (C.analysis book.now.base) book.now.journal) 1 → ⊥ }
{
    0 < book.candidates()
}

/// Posts works, and claims units where all of them are posted.
pub(crate) fn exchange_on<C: Chip>(
    book: &mut Book<C>,
    chip: &C,
    seat: u32,
    done: Vec<Done<C>>,
    ahead: VecDeque<Ahead<C::Abs>>,
    tickets: Vec<Ticket<C>>,
    want: u32,
    share: u32,
) -> Exchanged<C>
    requires chip { C.base chip.now ≡ book.old.base }
    requires out { AreOutOf (replay (C.analysis book.old.base) book.old.journal)
        (tickets_of done.items) }
    requires works { AllByRecursion (IsWorked (C.analysis book.old.base)) done.items }
    requires ahead { AreAhead (C.analysis book.old.base) done.items ahead.items }
    requires empty { tickets.items ≡ [] }
    requires room { want ≤ vec_capacity tickets }
    ensures exchanges { ExchangesOn (C.analysis book.old.base) seat book.old done.items want share
        result.unposted.items result.tickets.items result.last book.new }
    ensures left { IsTrue (not result.left)
        → HasAtLeast (replay (C.analysis book.new.base) book.new.journal) 1 → ⊥ }
{
    let unposted = post_all(book, chip, done, ahead);
    if !unposted.is_empty() {
        return Exchanged {
            unposted,
            tickets,
            last: Last::Memory,
            left: true,
        };
    }
    let (tickets, last) = claim_some(book, chip, seat, tickets, want, share);
    Exchanged {
        unposted,
        tickets,
        last,
        left: may_be_left(book),
    }
}
