//! What always holds of riding. Each function here is empty: it states one law, which is proved.

ghost use Rattle.hv_fast.specs.Laws.{RideLaw, PinRidesLaw, QuietRidesLaw, HeldRidesLaw, StillSaysLaw, PinMoreLaw, HeldMoreLaw, BlocksMoreLaw, PinEndsLaw};

/// One step of a hart is one instruction of the machine at the end of its path, where no interrupt can be taken on the way or
/// there, the instruction changes no word of a page on which the path rests, and the block there lies in no page of a table on
/// which it rests.
pub fn step_is_a_ride()
    ensures { RideLaw }
{}

/// A pin stays while a hart rides that runs no other machine then, and its machines stay quiet.
pub fn pin_stays_in_a_ride()
    ensures pin { PinRidesLaw }
    ensures quiet { QuietRidesLaw }
{}

/// A held translation stays while a hart rides.
pub fn held_translation_stays_in_a_ride()
    ensures { HeldRidesLaw }
{}

/// A block says the same of its machine, if it is well formed, where its words 65 to 67 are the same.
pub fn block_still_says()
    ensures { StillSaysLaw }
{}

/// What rests on some pages rests on more.
pub fn more_can_be_marked()
    ensures pin { PinMoreLaw }
    ensures held { HeldMoreLaw }
    ensures blocks { BlocksMoreLaw }
{}

/// The last machine of a pin has a well-formed block, and runs no machine.
pub fn pin_ends_where_nothing_runs()
    ensures { PinEndsLaw }
{}
