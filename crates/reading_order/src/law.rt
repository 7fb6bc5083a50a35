//! The laws of orders and areas: that each definition has one answer.
ghost use Rattle.reading_order.specs.Answers.{OrderIsUnique};
ghost use Rattle.reading_order.specs.Areas.{AreasAreUnique};

/// States two laws, and does nothing: lines have one reading order, and a listing of them falls into one list of areas,
/// so that `order_of` and `areas_of` have one answer each.
pub fn order_and_areas_are_unique()
    ensures one_order { OrderIsUnique }
    ensures one_list_of_areas { AreasAreUnique }
{}
