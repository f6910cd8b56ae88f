ghost use Rattle.std.specs.Prelude.{◌≡◌, ℕ};
ghost use Rattle.offices.specs.Members.{holds, row_holds};

use offices::{Office, RoleSet};
use std::array;

// The roles that `senior` is over, of the office's `roles` roles.
fn juniors_of<O: Office>(office: &O, roles: u8, senior: u8) -> RoleSet
    requires { roles ≡ (O.model office.now).roles }
    ensures { (i : ℕ) → holds result i ≡ (O.model office.now).over senior i }
{
    // a senior that is not there is over nobody: the office is not asked
    let asked = if senior < roles { roles } else { 0 };
    (0..asked)
        .filter(|junior| office.is_over(senior, *junior))
        .fold(RoleSet::empty(), RoleSet::with)
}

// For each of the office's `roles` roles the roles that it is over.
pub(crate) fn seniority_of<O: Office>(office: &O, roles: u8) -> [RoleSet; 64]
    requires { roles ≡ (O.model office.now).roles }
    ensures { (a b : ℕ) → row_holds result a b ≡ (O.model office.now).over a b }
{
    array::from_fn(|senior| juniors_of(office, roles, senior as u8))
}
