// Layers over any sealed office: a layer is drafted over it, sealed, and is an office again.
#![tactic(auto)]

pub mod draft;
pub mod house;
pub mod withheld;

pub use draft::LayerDraft;
pub use house::{HouseDraft, HouseRules};
pub use withheld::{Withheld, WithheldDraft};
