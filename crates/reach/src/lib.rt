// Which codes are reached from which sources: one row of bits a source.
#![tactic(auto)]

ghost use Rattle.reach.specs.Laws.{RowBegins, RowGrows, TableBegins, TableGrows, StepsBegin, StepsGrow, BestBySteps};

pub mod row;
mod row_list;
pub mod rows;
pub mod step_table;
pub mod table;

pub use row::Row;
pub use rows::Rows;
pub use step_table::StepTable;
pub use table::ReachTable;

// With no link, rows and tables that have the juniors of their starts are exact.
pub fn exactness_begins()
    ensures row { RowBegins }
    ensures table { TableBegins }
    ensures steps { StepsBegin }
{}

// With one link more, rows, tables and steps are exact again.
pub fn exactness_grows()
    ensures row { RowGrows }
    ensures table { TableGrows }
    ensures steps { StepsGrow }
{}

// A search by exact steps finds the best chain of the law.
pub fn search_is_exact()
    ensures { BestBySteps }
{}
