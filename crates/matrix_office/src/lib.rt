// The matrix office: for each role, all roles that it is over.
#![tactic(auto)]

pub mod matrix;
pub mod rows;

use drafting::{Draft, Sealed};
pub use matrix::Matrix;

pub type MatrixDraft = Draft<Matrix>;

pub type MatrixOffice = Sealed<Matrix>;
