// What an office is, and what every kind of office shares.
#![tactic(auto)]

pub mod base;
pub mod bases;
pub mod exclusive;
pub mod members;
pub mod office;
pub mod role_set;
pub mod table;
pub mod tables;

pub use base::OfficeBase;
pub use office::Office;
pub use role_set::RoleSet;
pub use table::SetTable;
