//! What follows from the definitions alone, each law on a function of its own.
ghost use Rattle.order_model.specs.Laws.{OneOrder, OrderMakesTrue, InOrderMakesTrue, FewerStayTrue};
ghost use Rattle.order_model.specs.Laws.{CutStaysTrue, ClearStaysTrue, AssignedStaysTrue};
ghost use Rattle.order_model.specs.Laws.{RenamedStaysTrue, SetKeyIsTrue};

/// A list of rows is a true index exactly where it is the order. So there is one for all columns
/// and rows, and one alone.
pub fn one_order()
    ensures { OneOrder }
{}

/// A table whose rows are put in the order of some columns has these as a true key.
pub fn order_makes_true()
    ensures { OrderMakesTrue }
{}

/// So has one whose rows are put in any order in which none stands above the next one.
pub fn in_order_makes_true()
    ensures { InOrderMakesTrue }
{}

/// Where rows are left out and the others keep their order, a true key stays true.
pub fn fewer_stay_true()
    ensures { FewerStayTrue }
{}

/// Whatever is assigned to some columns, the key that is cut before them is true.
pub fn cut_stays_true()
    ensures { CutStaysTrue }
{}

/// And an index that names none of them keeps its order.
pub fn clear_stays_true()
    ensures { ClearStaysTrue }
{}

/// So a table whose key is true has a true key after an assignment or a deletion.
pub fn assigned_stays_true()
    ensures { AssignedStaysTrue }
{}

/// A true key is true under the new names of its columns.
pub fn renamed_stays_true()
    ensures { RenamedStaysTrue }
{}

/// Whatever the key and the rows were, a key that is set is true.
pub fn set_key_is_true()
    ensures { SetKeyIsTrue }
{}
