//! Laws of the book, as functions that do nothing: they hold of every legal journal, whatever the analysis makes. A law
//! that asks something of the analysis says so: that it keeps its form, that top is greatest, or that within orders the
//! states of the form.

ghost use Rattle.std.specs.Prelude.{false, ◌≡◌, ◌+◌, ◌≤◌, ◌≢◌, ◌==◌, ℕ, Option, List, ◌∷◌, [], ◌++◌, Some, Contains};
ghost use Rattle.std.specs.List.{AllByRecursion, IsDistinct};
ghost use Rattle.std.specs.Map.{keys_of};
ghost use Rattle.call_context.specs.declared.node.Node.{Node as ANode};
ghost use Rattle.call_context.specs.declared.node.Unit.{Unit as WorkUnit};
ghost use Rattle.chip_analysis.specs.Analysis.{KeepsForm, TopIsGreatest, IsOrdered};
ghost use Rattle.chip_analysis.specs.Table.{IsUnitOver, IsClosedTable, IsFormedTable};
ghost use Rattle.chip_analysis.specs.declared.chip.Work.{Work};
ghost use Rattle.book_rules.specs.declared.event.Event.{Event as AnEvent};
ghost use Rattle.book_rules.specs.declared.event.Event.TheVariants.{Claim, Post, GiveBack};
ghost use Rattle.book_rules.specs.Kept.{live_pairs, live_works};
ghost use Rattle.book_rules.specs.Machine.{BookState, Held, Done, Out, versions_of, HasRisen, IsClaimable, held_at, done_at, out_at, place_of, version_of, IsFirst, IsOfLocation, IsUnit, IsFinished, IsClosed, IsLegal, IsLegalJournal, after, opening, replay};
ghost use Rattle.book_rules.specs.Same.{same_unit};
ghost use Rattle.book_rules.specs.Sound.{IsSound};
ghost use Rattle.book_rules.specs.Stays.{AllStay};
ghost use Rattle.book_rules.specs.Table.{table_of, IsUnder, IsWorkOf, IsOfUnit};
ghost use Rattle.book_rules.specs.Counts.{anyone, outs, claims_of, posts_of, give_backs_of, claims_by, posts_by, give_backs_by, AreApart, AreOutOnce, NoneOfSeat, unit_of};

use chip_analysis::Chip;

/// No node has two entries. Once posted a node stays in its place, its rises never fall, and its state is the same until
/// it rises.
pub fn nodes_stay<C: Chip>()
    ensures apart { (base : C.Base) → (let a = C.analysis base in
        (journal : List AnEvent) → IsLegalJournal a journal → AreApart (replay a journal).nodes) }
    ensures places { (base : C.Base) → (let a = C.analysis base in
        (journal more : List AnEvent) (node : ANode) (place : ℕ)
        → place_of (replay a journal).nodes node ≡ Some place
        → place_of (replay a (journal ++ more)).nodes node ≡ Some place) }
    ensures rises { (base : C.Base) → (let a = C.analysis base in
        (journal more : List AnEvent) (node : ANode)
        → version_of (replay a journal).nodes node ≤ version_of (replay a (journal ++ more)).nodes node) }
    ensures states { (base : C.Base) → (let a = C.analysis base in
        (journal more : List AnEvent) (node : ANode) (h later : Held C.Abs)
        → held_at (replay a journal).nodes node ≡ Some h
        → held_at (replay a (journal ++ more)).nodes node ≡ Some later → later.rises ≡ h.rises → later.state ≡ h.state) }
{}

/// Each node rises at least once, and at most 64 times where top is greatest.
pub fn rises_are_bounded<C: Chip>()
    ensures least { (base : C.Base) → (let a = C.analysis base in
        (journal : List AnEvent) → IsLegalJournal a journal
        → AllByRecursion (λ (h : Held C.Abs). 1 ≤ h.rises) (replay a journal).nodes) }
    ensures most { (base : C.Base) → (let a = C.analysis base in
        (journal : List AnEvent) → KeepsForm a → TopIsGreatest a → IsLegalJournal a journal
        → AllByRecursion (λ (h : Held C.Abs). h.rises ≤ 64) (replay a journal).nodes) }
{}

/// A unit is claimed at most 128 times more often than it is given back, where top is greatest.
pub fn claims_are_bounded<C: Chip>()
    ensures { (base : C.Base) → (let a = C.analysis base in
        (journal : List AnEvent) (unit : WorkUnit) → KeepsForm a → TopIsGreatest a
        → IsLegalJournal a journal → claims_of unit journal ≤ 128 + give_backs_of unit journal) }
{}

/// Each claim of a unit is answered by one post or give-back, but for the one by which it is out: so it is with each seat.
pub fn claims_are_answered<C: Chip>()
    ensures once { (base : C.Base) → (let a = C.analysis base in
        (journal : List AnEvent) → IsLegalJournal a journal → AreOutOnce (replay a journal).out) }
    ensures each { (base : C.Base) → (let a = C.analysis base in
        (journal : List AnEvent) (unit : WorkUnit) → IsLegalJournal a journal
        → claims_of unit journal ≡ posts_of unit journal + give_backs_of unit journal
        + outs anyone (out_at (replay a journal).out unit)) }
    ensures seat { (base : C.Base) → (let a = C.analysis base in
        (journal : List AnEvent) (unit : WorkUnit) (seat : ℕ) → IsLegalJournal a journal
        → claims_by seat unit journal ≡ posts_by seat unit journal + give_backs_by seat unit journal
        + outs (λ s. s == seat) (out_at (replay a journal).out unit)) }
{}

/// What is out to a seat stays out, with the same copies of its inputs, through any legal events of other seats.
pub fn outs_stay<C: Chip>()
    ensures { (base : C.Base) → (let a = C.analysis base in
        (journal more : List AnEvent) (unit : WorkUnit) (o : Out C.Abs)
        → IsLegalJournal a (journal ++ more)
        → out_at (replay a journal).out unit ≡ Some o → NoneOfSeat o.seat more
        → out_at (replay a (journal ++ more)).out unit ≡ Some o) }
{}

/// What is out stays out, with the same copies of its inputs, behind an event of another unit, whatever its seat.
pub fn outs_stay_beside<C: Chip>()
    ensures { (base : C.Base) → (let a = C.analysis base in
        (journal : List AnEvent) (event : AnEvent) (unit : WorkUnit) (o : Out C.Abs)
        → out_at (replay a journal).out unit ≡ Some o → same_unit unit (unit_of event) ≡ false
        → out_at (replay a (journal ++ event ∷ [])).out unit ≡ Some o) }
{}

/// What is out has the nodes as they were when it was claimed: each has stayed in its place since.
pub fn outs_have_their_nodes<C: Chip>()
    ensures { (base : C.Base) → (let a = C.analysis base in
        (journal : List AnEvent) (unit : WorkUnit) (o : Out C.Abs) → IsLegalJournal a journal
        → out_at (replay a journal).out unit ≡ Some o → AllStay o.nodes (replay a journal).nodes) }
{}

/// A legal journal is legal so far at each of its places, and takes one more legal event.
pub fn journals_grow<C: Chip>()
    ensures none { (base : C.Base) → (let a = C.analysis base in IsLegalJournal a []) }
    ensures more { (base : C.Base) → (let a = C.analysis base in
        (journal : List AnEvent) (event : AnEvent) → IsLegalJournal a journal
        → IsLegal (replay a journal) event → IsLegalJournal a (journal ++ event ∷ [])) }
    ensures front { (base : C.Base) → (let a = C.analysis base in
        (journal more : List AnEvent) → IsLegalJournal a (journal ++ more)
        → IsLegalJournal a journal) }
{}

/// Where nothing is out, a claim of the first unit may be followed by its post, and then nothing is out again.
pub fn turns_bring_home<C: Chip>()
    ensures opening { (base : C.Base) → (let a = C.analysis base in (replay a []).out ≡ []) }
    ensures post { (base : C.Base) → (let a = C.analysis base in
        (journal : List AnEvent) (seat : ℕ) (unit : WorkUnit) → IsFirst (replay a journal) unit
        → (replay a journal).out ≡ [] → IsLegal (replay a (journal ++ Claim seat unit ∷ [])) (Post seat unit)) }
    ensures home { (base : C.Base) → (let a = C.analysis base in
        (journal : List AnEvent) (seat : ℕ) (unit : WorkUnit) → IsFirst (replay a journal) unit
        → (replay a journal).out ≡ []
        → (replay a ((journal ++ Claim seat unit ∷ []) ++ Post seat unit ∷ [])).out ≡ []) }
{}

/// The same of any book, however it came about.
pub fn turns_come_home<C: Chip>()
    ensures post { (base : C.Base) → (let a = C.analysis base in
        (b : BookState C.Abs) (seat : ℕ) (unit : WorkUnit) → IsFirst b unit → b.out ≡ []
        → IsLegal (after a b (Claim seat unit)) (Post seat unit)) }
    ensures home { (base : C.Base) → (let a = C.analysis base in
        (b : BookState C.Abs) (seat : ℕ) (unit : WorkUnit) → IsFirst b unit → b.out ≡ []
        → (after a (after a b (Claim seat unit)) (Post seat unit)).out ≡ []) }
{}

/// The first unit that can be claimed is one alone.
pub fn first_is_one<C: Chip>()
    ensures { (b : BookState C.Abs) (unit other : WorkUnit) → IsFirst b unit → IsFirst b other → unit ≡ other }
{}

/// Once a book is finished no further event is legal.
pub fn finished_is_the_end<C: Chip>()
    ensures event { (base : C.Base) → (let a = C.analysis base in
        (journal : List AnEvent) (event : AnEvent) → IsFinished (replay a journal)
        → IsLegal (replay a journal) event → ⊥) }
    ensures journal { (base : C.Base) → (let a = C.analysis base in
        (journal : List AnEvent) (event : AnEvent) → IsFinished (replay a journal)
        → IsLegalJournal a (journal ++ event ∷ []) → ⊥) }
{}

/// In a finished book each unit was done, and its last work is that of the present states of its inputs. At all times
/// the start state is within what its node holds, and so is what a last work posts, where within orders the states.
pub fn finished_is_a_fixpoint<C: Chip>()
    ensures works { (base : C.Base) → (let a = C.analysis base in
        (journal : List AnEvent) (unit : WorkUnit) → IsLegalJournal a journal
        → IsFinished (replay a journal) → IsUnit (replay a journal) unit
        → (d : Done C.Abs) × (done_at (replay a journal).done unit ≡ Some d) × IsWorkOf a (replay a journal).nodes unit d.work) }
    ensures posts { (base : C.Base) → (let a = C.analysis base in
        (journal : List AnEvent) (unit : WorkUnit) (d : Done C.Abs) → KeepsForm a → IsOrdered a
        → IsLegalJournal a journal → done_at (replay a journal).done unit ≡ Some d
        → AllByRecursion (IsUnder a (replay a journal).nodes) d.work.posts) }
    ensures start { (base : C.Base) → (let a = C.analysis base in
        (journal : List AnEvent) → KeepsForm a → IsOrdered a → IsLegalJournal a journal
        → IsUnder a (replay a journal).nodes (a.first_node, a.first_state)) }
{}

/// The units of a finished book are those of its table, and their last works are the works over the table's states.
pub fn finished_book_is_its_table<C: Chip>()
    ensures units { (base : C.Base) → (let a = C.analysis base in
        (journal : List AnEvent) (unit : WorkUnit) → IsLegalJournal a journal
        → IsFinished (replay a journal) → IsUnit (replay a journal) unit
        → (at : C.Abs) × (exit : Option C.Abs) × IsUnitOver a (table_of (replay a journal).nodes) unit at exit) }
    ensures known { (base : C.Base) → (let a = C.analysis base in
        (journal : List AnEvent) (unit : WorkUnit) (at : C.Abs) (exit : Option C.Abs)
        → IsLegalJournal a journal → IsFinished (replay a journal)
        → IsUnitOver a (table_of (replay a journal).nodes) unit at exit → IsUnit (replay a journal) unit) }
    ensures works { (base : C.Base) → (let a = C.analysis base in
        (journal : List AnEvent) (unit : WorkUnit) (at : C.Abs) (exit : Option C.Abs)
        → IsLegalJournal a journal → IsFinished (replay a journal)
        → IsUnitOver a (table_of (replay a journal).nodes) unit at exit
        → (d : Done C.Abs) × (done_at (replay a journal).done unit ≡ Some d) × (d.work ≡ a.work unit at exit)) }
{}

/// The table of a book is formed, and that of a closed book is closed, where within orders the states.
pub fn closed_book_has_closed_table<C: Chip>()
    ensures formed { (base : C.Base) → (let a = C.analysis base in
        (journal : List AnEvent) → KeepsForm a → TopIsGreatest a → IsLegalJournal a journal
        → IsFormedTable a (table_of (replay a journal).nodes)) }
    ensures closed { (base : C.Base) → (let a = C.analysis base in
        (journal : List AnEvent) → KeepsForm a → IsOrdered a → IsLegalJournal a journal
        → IsClosed (replay a journal) → IsClosedTable a (table_of (replay a journal).nodes)) }
{}

/// What was done is the own work of a location, or a return to one.
pub fn works_are_of_locations<C: Chip>()
    ensures { (base : C.Base) → (let a = C.analysis base in
        (journal : List AnEvent) → IsLegalJournal a journal
        → AllByRecursion (λ (d : Done C.Abs). IsOfLocation d.unit) (replay a journal).done) }
{}

/// The last works of a book's units, as a report lists them: each is there, and each is the work of a unit of the book
/// over states of the form.
pub fn live_works_are_of_units<C: Chip>()
    ensures listed { (base : C.Base) → (let a = C.analysis base in
        (b : BookState C.Abs) (unit : WorkUnit) (d : Done C.Abs) → IsUnit b unit
        → done_at b.done unit ≡ Some d → Contains (live_works b) d.work) }
    ensures worked { (base : C.Base) → (let a = C.analysis base in
        (journal : List AnEvent) (work : Work C.Abs) → KeepsForm a → TopIsGreatest a
        → IsLegalJournal a journal → Contains (live_works (replay a journal)) work
        → IsOfUnit a (replay a journal).nodes work) }
{}

/// The pairs of a book's units with their last works: each unit of the book that was done is there, each that is there
/// is a unit of the book with its last work, and none is there twice.
pub fn live_pairs_are_units<C: Chip>()
    ensures listed { (base : C.Base) → (let a = C.analysis base in
        (b : BookState C.Abs) (unit : WorkUnit) (d : Done C.Abs) → IsUnit b unit
        → done_at b.done unit ≡ Some d → Contains (live_pairs b) (unit, d.work)) }
    ensures units { (base : C.Base) → (let a = C.analysis base in
        (journal : List AnEvent) (unit : WorkUnit) (work : Work C.Abs) → IsLegalJournal a journal
        → Contains (live_pairs (replay a journal)) (unit, work)
        → IsUnit (replay a journal) unit × (d : Done C.Abs) × (done_at (replay a journal).done unit ≡ Some d) × (d.work ≡ work)) }
    ensures once { (base : C.Base) → (let a = C.analysis base in
        (journal : List AnEvent) → IsLegalJournal a journal
        → IsDistinct same_unit (keys_of (live_pairs (replay a journal)))) }
{}

/// A unit that was out can be claimed anew, where it still is a unit of the book: behind a post if an input rose since
/// the claim, and behind a give-back in any case.
pub fn units_come_again<C: Chip>()
    ensures posted { (base : C.Base) → (let a = C.analysis base in
        (journal : List AnEvent) (seat : ℕ) (unit : WorkUnit) (o : Out C.Abs)
        → IsLegalJournal a journal → out_at (replay a journal).out unit ≡ Some o
        → (let later = replay a (journal ++ Post seat unit ∷ []) in
        IsUnit later unit → HasRisen o.versions (versions_of later.nodes unit) → IsClaimable later unit)) }
    ensures given_back { (base : C.Base) → (let a = C.analysis base in
        (journal : List AnEvent) (seat : ℕ) (unit : WorkUnit) (o : Out C.Abs)
        → IsLegalJournal a journal → out_at (replay a journal).out unit ≡ Some o
        → (let later = replay a (journal ++ GiveBack seat unit ∷ []) in IsUnit later unit → IsClaimable later unit)) }
{}

/// A book that is sound (`specs/Sound.antt`) stays so behind each legal event, wherever it began. The opening is sound, and so is
/// what a legal journal replays to.
pub fn sound_books_stay<C: Chip>()
    ensures opening { (base : C.Base) → (let a = C.analysis base in
        KeepsForm a → IsOrdered a → IsSound a (opening a)) }
    ensures event { (base : C.Base) → (let a = C.analysis base in
        (b : BookState C.Abs) (event : AnEvent) → KeepsForm a → IsOrdered a → IsLegal b event
        → IsSound a b → IsSound a (after a b event)) }
    ensures replay { (base : C.Base) → (let a = C.analysis base in
        (journal : List AnEvent) → KeepsForm a → IsOrdered a → IsLegalJournal a journal
        → IsSound a (replay a journal)) }
{}

/// The table of a sound book is formed, and closed where the book is. Where the book is finished, its units are those of its
/// table, with their works over the table's states. Each of its live pairs is a unit of it with its last work, and none stands twice.
pub fn sound_books_are_their_tables<C: Chip>()
    ensures formed { (base : C.Base) → (let a = C.analysis base in
        (b : BookState C.Abs) → IsSound a b → IsFormedTable a (table_of b.nodes)) }
    ensures closed { (base : C.Base) → (let a = C.analysis base in
        (b : BookState C.Abs) → IsSound a b → IsClosed b → IsClosedTable a (table_of b.nodes)) }
    ensures units { (base : C.Base) → (let a = C.analysis base in
        (b : BookState C.Abs) (unit : WorkUnit) → IsSound a b → IsFinished b → IsUnit b unit
        → (at : C.Abs) × (exit : Option C.Abs) × IsUnitOver a (table_of b.nodes) unit at exit) }
    ensures known { (base : C.Base) → (let a = C.analysis base in
        (b : BookState C.Abs) (unit : WorkUnit) (at : C.Abs) (exit : Option C.Abs) → IsSound a b → IsFinished b
        → IsUnitOver a (table_of b.nodes) unit at exit → IsUnit b unit) }
    ensures works { (base : C.Base) → (let a = C.analysis base in
        (b : BookState C.Abs) (unit : WorkUnit) (at : C.Abs) (exit : Option C.Abs) → IsSound a b → IsFinished b
        → IsUnitOver a (table_of b.nodes) unit at exit
        → (d : Done C.Abs) × (done_at b.done unit ≡ Some d) × (d.work ≡ a.work unit at exit)) }
    ensures live { (base : C.Base) → (let a = C.analysis base in
        (b : BookState C.Abs) (unit : WorkUnit) (work : Work C.Abs) → IsSound a b
        → Contains (live_pairs b) (unit, work)
        → IsUnit b unit × (d : Done C.Abs) × (done_at b.done unit ≡ Some d) × (d.work ≡ work)) }
    ensures once { (base : C.Base) → (let a = C.analysis base in
        (b : BookState C.Abs) → IsSound a b → IsDistinct same_unit (keys_of (live_pairs b))) }
{}
