//! Laws of the tables that are shown. Each function's contract is the law that it is named for; the functions
//! themselves do nothing.
ghost use Rattle.lq_render.specs.TableLaws.{BeginsWithNames, CountsAllItems, HasEachCell};

/// No cell is lost and none is moved: each member of an item has its name among the columns, and a row has a
/// cell a column. The columns begin with the names of the type, in its order. The items that are shown and the
/// number of those that are left out are all items.
pub fn no_cell_is_lost()
    ensures cells { HasEachCell }
    ensures order { BeginsWithNames }
    ensures counted { CountsAllItems }
{}
