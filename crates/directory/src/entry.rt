ghost use Rattle.offices.specs.Bases.{base_roles, base_sets};
ghost use Rattle.offices.specs.Members.{row_holds};
ghost use Rattle.offices.specs.Order.{Order};
ghost use Rattle.directory.specs.SetWords.{WordsHold};

use offices::{OfficeBase, RoleSet};

// The answers of one office: the row of a role in `juniors` holds the roles that it is over, and the row of a set
// in `members` its members.
#[derive(Drop)]
pub struct OfficeEntry {
    pub(crate) base: OfficeBase,
    pub(crate) juniors: [RoleSet; 64],
    pub(crate) members: [RoleSet; 8],
    ghost order: { ∥ Order (base_roles base) (row_holds juniors) ∥₁ },
    ghost words: { ∥ WordsHold members (base_sets base) ∥₁ },
}
