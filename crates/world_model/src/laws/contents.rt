// What calls of small modules answer of their rows, and what ends, deletes and names leave.
ghost use Rattle.world_model.specs.LeftExamples.{NamedHasNoReference, DeletedIsNotFound, DeletedHasNoOwner, DeletedHasNoRows, OwnHeirIsNone, DeadHeirIsNone, NameGoesWithItsHolder};
ghost use Rattle.world_model.specs.RowExamples.{BagHoldsEachOnce, BagGivesEachElement, BagHasNoCounter, DuplicateBagHoldsAll, SetKeepsTheLast, OrderedSetKeepsTheLast, LastKindCounts, MemberIsThere, OtherIsNotThere, TakenIsTold, TakenIsGone, DeletedIsGone, OthersStay, SameObjectsAreGone, ElementIsChanged, NoElementIsChanged, AllOrNothing, ShortHasNoPlace, ShortHasNoKey, SumHasItsRange, CounterCounts, AdditionsGoOn, LimitIsReached, LimitIsPassed, LimitIsPassedDown, LimitKeepsTheRange, AllOrNoneIsAdded, DefaultIsCounted, DefaultIsPutIn, DefaultIsLeft, DefaultIsNoObject, DefaultHasNoKey, ElementsAreChanged, AllOrNoneIsChanged, ChangeOfTheKeyIsRefused};

/// A table that is found by its name is not found by its reference.
#[tactic(auto, unfolding(crate::specs::World::contents))]
pub fn named_tables_have_no_reference()
    ensures { NamedHasNoReference }
{}

/// A deleted table is not found, and has no owner and no rows.
#[tactic(auto, unfolding(crate::specs::World::contents))]
pub fn deleted_tables_are_gone()
    ensures found { DeletedIsNotFound }
    ensures owner { DeletedHasNoOwner }
    ensures rows { DeletedHasNoRows }
{}

/// A process that ends is no heir of its own table.
#[tactic(auto, unfolding(crate::specs::World::contents))]
pub fn nobody_inherits_from_itself()
    ensures { OwnHeirIsNone }
{}

/// Nor is who has ended before.
#[tactic(auto, unfolding(crate::specs::World::contents))]
pub fn the_dead_inherit_nothing()
    ensures { DeadHeirIsNone }
{}

/// The name of a process goes with it.
#[tactic(auto, unfolding(crate::specs::World::contents))]
pub fn names_go_with_their_holders()
    ensures { NameGoesWithItsHolder }
{}

/// A bag holds an object once, a duplicate_bag as often as it came, a set and an ordered_set the last under
/// each key; of two kinds that are asked for the last counts.
#[tactic(auto, unfolding(crate::specs::World::contents))]
pub fn kinds_hold_their_objects()
    ensures bag { BagHoldsEachOnce }
    ensures elements { BagGivesEachElement }
    ensures counter { BagHasNoCounter }
    ensures duplicates { DuplicateBagHoldsAll }
    ensures set { SetKeepsTheLast }
    ensures ordered { OrderedSetKeepsTheLast }
    ensures kind { LastKindCounts }
{}

/// Where one key is there, an insert_new of a list puts nothing in.
#[tactic(auto, unfolding(crate::specs::World::contents))]
pub fn insert_new_is_all_or_nothing()
    ensures { AllOrNothing }
{}

/// Keys may be at another place; sums have 64 bits.
#[tactic(auto, unfolding(crate::specs::World::contents))]
pub fn places_and_sums_have_their_range()
    ensures place { ShortHasNoPlace }
    ensures key { ShortHasNoKey }
    ensures range { SumHasItsRange }
    ensures sum { CounterCounts }
{}

/// What is taken or deleted is gone, and nothing else.
#[tactic(auto, unfolding(crate::specs::World::contents))]
pub fn objects_go()
    ensures member { MemberIsThere }
    ensures other { OtherIsNotThere }
    ensures told { TakenIsTold }
    ensures taken { TakenIsGone }
    ensures deleted { DeletedIsGone }
    ensures others { OthersStay }
    ensures same { SameObjectsAreGone }
{}

/// An element is changed where its key is there; that of the key itself never is.
#[tactic(auto, unfolding(crate::specs::World::contents))]
pub fn elements_change()
    ensures there { ElementIsChanged }
    ensures none { NoElementIsChanged }
    ensures missing { ChangeOfTheKeyIsRefused }
{}

/// Several elements change one after the other, or none.
#[tactic(auto, unfolding(crate::specs::World::contents))]
pub fn elements_change_together()
    ensures all { ElementsAreChanged }
    ensures none { AllOrNoneIsChanged }
{}

/// Several additions go on from one another, or nothing is added.
#[tactic(auto, unfolding(crate::specs::World::contents))]
pub fn additions_go_on()
    ensures all { AdditionsGoOn }
    ensures none { AllOrNoneIsAdded }
{}

/// A sum past its limit is set, so that it has its range.
#[tactic(auto, unfolding(crate::specs::World::contents))]
pub fn limits_are_kept()
    ensures reached { LimitIsReached }
    ensures passed { LimitIsPassed }
    ensures down { LimitIsPassedDown }
    ensures range { LimitKeepsTheRange }
{}

/// A default is put in under the key where that is missing, and counted.
#[tactic(auto, unfolding(crate::specs::World::contents))]
pub fn defaults_are_counted()
    ensures counted { DefaultIsCounted }
    ensures alone { DefaultIsPutIn }
    ensures left { DefaultIsLeft }
    ensures object { DefaultIsNoObject }
    ensures key { DefaultHasNoKey }
{}
