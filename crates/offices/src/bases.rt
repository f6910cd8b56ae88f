ghost use Rattle.std.specs.Prelude.{◌≡◌, ℕ, min, Bool, length};
ghost use Rattle.offices.specs.Bases.{base_roles, base_sets, base_shared, office_with};
ghost use Rattle.offices.specs.Drafting.{Keeps, share, exclude, mark_answer, after_mark, set_answer, after_set, fresh};
ghost use Rattle.offices.specs.Model.{bound_at, member_at};
ghost use Rattle.offices.specs.Order.{itself_alone};

use crate::base::OfficeBase;
use crate::role_set::RoleSet;
use crate::table::SetTable;
use answers::Refusal;

impl OfficeBase {
    // Nothing shared and no set; more than 64 roles are 64.
    pub fn new(roles: u8) -> OfficeBase
        ensures { (office_with result (itself_alone (min roles 64)) ≡ fresh (min roles 64)) × (base_roles result ≡ min roles 64) }
    {
        OfficeBase {
            table: SetTable::new(roles),
            shared: RoleSet::empty(),
        }
    }

    // Marks a role as shared.
    pub fn share(&mut self, role: u8) -> Result<(), Refusal>
        ensures answer { result ≡ mark_answer (base_roles self.old) role }
        ensures after { (over : ℕ → ℕ → Bool) → office_with self.new over ≡ after_mark result (office_with self.old over) role }
        ensures history { (over : ℕ → ℕ → Bool) → Keeps (office_with self.old over) (share role) result (office_with self.new over) }
        ensures kept { base_roles self.new ≡ base_roles self.old }
    {
        if role >= self.table.roles {
            return Err(Refusal::NoSuchRole);
        }
        self.shared = self.shared.with(role);
        Ok(())
    }

    // Adds an exclusive set. (Members and bound stay two parameters, as callers have them: a struct would be taken apart at once.)
    pub fn exclude(&mut self, members: &[u8], bound: u8) -> Result<(), Refusal>
        ensures answer { result ≡ set_answer (base_roles self.old) (base_sets self.old) members.now bound }
        ensures after { (over : ℕ → ℕ → Bool) → office_with self.new over ≡ after_set result (office_with self.old over) members.now bound }
        ensures history { (over : ℕ → ℕ → Bool) → Keeps (office_with self.old over) (exclude members.now bound) result (office_with self.new over) }
        ensures kept { base_roles self.new ≡ base_roles self.old }
    {
        self.table.add(members, bound)
    }

    pub fn role_count(&self) -> u8
        ensures { result ≡ base_roles self.now }
    {
        self.table.roles
    }

    pub fn is_shared(&self, role: u8) -> bool
        ensures { result ≡ base_shared self.now role }
    {
        self.shared.contains(role)
    }

    pub fn set_count(&self) -> u8
        ensures { result ≡ length (base_sets self.now) }
    {
        self.table.len()
    }

    pub fn set_bound(&self, set: u8) -> u8
        ensures { result ≡ bound_at (base_sets self.now) set }
    {
        self.table.bound(set)
    }

    pub fn set_member(&self, set: u8, place: u8) -> Option<u8>
        ensures { result ≡ member_at (base_sets self.now) set place }
    {
        self.table.member(set, place)
    }
}
