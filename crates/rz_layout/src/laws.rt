//! Laws of plans, for any table, and of the order of items.

ghost use Rattle.rz_layout.specs.Laws.{LeastIsShortest, LeastPlansAreOne, OrderNumbers, SizedStandNear};

/// There is one least plan: any two are the same.
pub fn least_plans_are_one()
    ensures { LeastPlansAreOne }
{}

/// In no plan is an item at a lower place than in a least one, or shorter.
pub fn least_is_shortest()
    ensures { LeastIsShortest }
{}

/// The numbers of labels in the order of all items are those in the fragments.
pub fn order_numbers()
    ensures { OrderNumbers }
{}

/// Fragments of sized items, which end below 2^31, can be laid out with each item in the form
/// Near, and then take at most as many bytes as their sizes say.
pub fn sized_stand_near()
    ensures { SizedStandNear }
{}
