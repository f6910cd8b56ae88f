ghost use Rattle.std.specs.Prelude.{◌≡◌, ◌≤◌, min, [], length, take};
ghost use Rattle.offices.specs.Bases.{table_roles, table_sets};
ghost use Rattle.offices.specs.Drafting.{set_answer, with_set};
ghost use Rattle.offices.specs.Model.{bound_at, member_at};
ghost use Rattle.offices.specs.Sets.{set_model, fitted};

use crate::exclusive::ExclusiveSet;
use crate::members::{exist, well_formed};
use crate::table::SetTable;
use answers::Refusal;

fn exclusive_set(members: &[u8], bound: u8) -> ExclusiveSet
    requires { length members.now ≤ 8 }
    ensures { set_model result ≡ record { members = members.entry.now; bound = bound } }
{
    let mut places = [0; 8];
    places[..members.len()].copy_from_slice(members);
    ExclusiveSet {
        members: places,
        size: members.len() as u8,
        bound,
    }
}

impl SetTable {
    // No set yet, over `roles` roles, or 64 where that is less.
    pub fn new(roles: u8) -> SetTable
        ensures { (result.roles ≡ min roles 64) × (table_sets result ≡ []) }
    {
        SetTable {
            roles: roles.min(64),
            count: 0,
            sets: [ExclusiveSet::default(); 8],
        }
    }

    // Adds a set after the others.
    pub fn add(&mut self, members: &[u8], bound: u8) -> Result<(), Refusal>
        ensures answer { result ≡ set_answer self.old.roles (table_sets self.old) members.now bound }
        ensures after { table_sets self.new ≡ with_set result (table_sets self.old) members.now bound }
        ensures kept { self.new.roles ≡ self.old.roles }
    {
        let at = self.count;
        if at >= 8 {
            return Err(Refusal::SetsFull);
        }
        if !well_formed(members, bound) {
            return Err(Refusal::BadSet);
        }
        if !exist(members, self.roles) {
            return Err(Refusal::NoSuchRole);
        }
        let set = exclusive_set(members, bound);
        self.sets[at as usize] = set;
        self.count = at + 1;
        Ok(())
    }

    // Makes it a table over `roles` roles (more than 64 are 64), with the sets that fit them, at most `room`.
    pub fn fit(&mut self, roles: u8, room: u8)
        ensures roles { table_roles self.new ≡ min roles 64 }
        ensures sets { table_sets self.new ≡ fitted (table_roles self.old) (min roles 64) room (table_sets self.old) }
    {
        let roles = roles.min(64);
        let room = if self.roles > roles { 0 } else { room };
        self.count = self.count.min(room);
        self.roles = roles;
    }

    fn sets(&self) -> &[ExclusiveSet]
        ensures { result.now ≡ take self.now.count self.now.sets }
    {
        &self.sets[..usize::from(self.count)]
    }

    pub fn roles(&self) -> u8
        ensures { result ≡ table_roles self.now }
    {
        let roles = self.roles;
        roles
    }

    pub fn len(&self) -> u8
        ensures { result ≡ length (table_sets self.now) }
    {
        let count = self.count;
        count
    }

    pub fn bound(&self, set: u8) -> u8
        ensures { result ≡ bound_at (table_sets self.now) set }
    {
        self.sets().get(usize::from(set)).map_or(0, |set| set.bound)
    }

    pub fn member(&self, set: u8, place: u8) -> Option<u8>
        ensures { result ≡ member_at (table_sets self.now) set place }
    {
        let set = self.sets().get(usize::from(set))?;
        set.members().get(usize::from(place)).copied()
    }
}
