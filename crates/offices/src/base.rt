ghost use Rattle.std.specs.Prelude.{◌≡◌, ℕ, ◌<◌, true};
ghost use Rattle.offices.specs.Members.{holds};

use crate::role_set::RoleSet;
use crate::table::SetTable;

// What every kind of office keeps beside its seniority: the role count, the shared marks and the sets.
#[derive(Drop)]
pub struct OfficeBase {
    pub(crate) table: SetTable,
    pub(crate) shared: RoleSet,
    ghost marked: { (a : ℕ) → holds shared a ≡ true → a < table.roles },
}
