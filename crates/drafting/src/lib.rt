// Drafting an office of any kind, and the sealed office that comes of it.
#![tactic(auto)]

pub mod draft;
pub mod drafts;
pub mod sealed;
pub mod sealed_office;
pub mod seniority;

pub use draft::Draft;
pub use sealed::Sealed;
pub use seniority::{Seniority, storable};
