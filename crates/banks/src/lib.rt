// Banks: sealed offices joined one after another.
#![tactic(auto)]

pub mod bank;
pub mod codes;
pub mod join;
pub mod office_at;
pub mod one;

pub use bank::Bank;
pub use codes::{RoleAt, code_of, role_at};
pub use join::Join;
pub use office_at::OfficeAt;
pub use one::One;
