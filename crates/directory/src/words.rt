ghost use Rattle.std.specs.Prelude.{◌≡◌, ℕ};
ghost use Rattle.directory.specs.SetWords.{among, members_at, WordsHold};
ghost use Rattle.offices.specs.Bases.{base_sets};
ghost use Rattle.offices.specs.Members.{holds};

use offices::{OfficeBase, RoleSet};
use std::array;

// The members of one set as a set of roles.
fn word_of(base: &OfficeBase, set: u8) -> RoleSet
    ensures { (i : ℕ) → holds result i ≡ among i (members_at (base_sets base.now) set) }
{
    (0..8u8)
        .map_while(|place| base.set_member(set, place))
        .fold(RoleSet::empty(), RoleSet::with)
}

// The members of each set. They are read from the base: an office may have to look far for each answer.
pub(crate) fn words_of(base: &OfficeBase) -> [RoleSet; 8]
    ensures { WordsHold result (base_sets base.now) }
{
    array::from_fn(|set| word_of(base, set as u8))
}
