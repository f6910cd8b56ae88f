// The list office: seniority by a list of at most 128 pairs.
#![tactic(auto)]

pub mod list;
pub mod lists;
pub mod pair;

use drafting::{Draft, Sealed};
pub use list::PairList;

pub type ListDraft = Draft<PairList>;

pub type ListOffice = Sealed<PairList>;
