ghost use Rattle.std.specs.Prelude.{◌≡◌, ℕ, length, IfOk, MatchOption, nat_lt};
ghost use Rattle.banks.specs.Banks.{no_office, office_at};
ghost use Rattle.banks.specs.Codes.{office_of, role_of};
ghost use Rattle.directory.specs.Heard.{entry_model, heard};
ghost use Rattle.directory.specs.SetWords.{among};
ghost use Rattle.law.specs.Roles.{LawfulBank, set_at};
ghost use Rattle.offices.specs.Members.{holds};
ghost use Rattle.offices.specs.Model.{bound_at, member_at};

use crate::directory::Directory;
use crate::entry::OfficeEntry;
use banks::{Bank, OfficeAt};
use offices::RoleSet;
use std::alloc::{AllocError, Global};

impl Directory {
    // Asks a bank for all that its offices answer.
    pub fn read<B: Bank>(bank: &B, heap: Global) -> Result<Directory, AllocError>
        ensures heard { IfOk result (λ d. heard d ≡ B.offices bank.now) }
        ensures lawful { IfOk result (λ d. LawfulBank (heard d)) }
    {
        let entries = (0..bank.office_count())
            .map(|office| OfficeEntry::read(&OfficeAt::new(bank, office)))
            .collect(heap)?;
        Ok(Directory { entries })
    }

    // The entry of an office, where there is such an office.
    fn entry(&self, office: u8) -> Option<&OfficeEntry>
        ensures { MatchOption result (office_at (heard self.now) office ≡ no_office) (λ e. office_at (heard self.now) office ≡ entry_model e.now) }
    {
        self.entries.get(usize::from(office))
    }

    // The entry of the office that a role of this code has, where there is one, and the role's number there. (The bank's own
    // `role_at` also asks whether there is such a role.)
    fn entry_of(&self, code: u32) -> Option<(&OfficeEntry, u8)>
        ensures { MatchOption result (office_at (heard self.now) (office_of code) ≡ no_office) (λ e. (office_at (heard self.now) (office_of code) ≡ entry_model e.0.now) × (e.1 ≡ role_of code)) }
    {
        let entry = self.entry(u8::try_from(code / 64).ok()?)?;
        Some((entry, (code % 64) as u8))
    }

    // Each answer hands its question to an entry: two that look alike differ in the question. Office, set and place stay
    // numbers of their own, as a bank is asked by them.
    pub fn office_count(&self) -> u8
        ensures count { result ≡ length (heard self.now) }
        ensures lawful { LawfulBank (heard self.now) }
    {
        self.entries.len() as u8
    }

    pub fn role_count(&self, office: u8) -> u8
        ensures { result ≡ (office_at (heard self.now) office).roles }
    {
        self.entry(office)
            .map_or(0, |entry| entry.base.role_count())
    }

    // Whether a role has this code.
    pub fn has_role(&self, code: u32) -> bool
        ensures { result ≡ nat_lt (role_of code) (office_at (heard self.now) (office_of code)).roles }
    {
        self.entry_of(code)
            .is_some_and(|(entry, role)| role < entry.base.role_count())
    }

    // Whether a role has this code and is shared.
    pub fn is_shared(&self, code: u32) -> bool
        ensures { result ≡ (office_at (heard self.now) (office_of code)).shared (role_of code) }
    {
        self.entry_of(code)
            .is_some_and(|(entry, role)| entry.base.is_shared(role))
    }

    // The roles of its own office that the role with this code is over.
    pub fn juniors(&self, code: u16) -> RoleSet
        ensures { (i : ℕ) → holds result i ≡ (office_at (heard self.now) (office_of code)).over (role_of code) i }
    {
        self.entry_of(u32::from(code))
            .map_or(RoleSet::empty(), |(entry, role)| entry.juniors_of(role))
    }

    pub fn set_count(&self, office: u8) -> u8
        ensures { result ≡ length (office_at (heard self.now) office).sets }
    {
        self.entry(office).map_or(0, |entry| entry.base.set_count())
    }

    pub fn set_bound(&self, office: u8, set: u8) -> u8
        ensures { result ≡ bound_at (office_at (heard self.now) office).sets set }
    {
        self.entry(office)
            .map_or(0, |entry| entry.base.set_bound(set))
    }

    pub fn set_member(&self, office: u8, set: u8, place: u8) -> Option<u8>
        ensures { result ≡ member_at (office_at (heard self.now) office).sets set place }
    {
        self.entry(office)?.base.set_member(set, place)
    }

    // The members of a set.
    pub fn set_roles(&self, office: u8, set: u8) -> RoleSet
        ensures { (i : ℕ) → holds result i ≡ among i (set_at (heard self.now) office set).members }
    {
        self.entry(office)
            .map_or(RoleSet::empty(), |entry| entry.members_of(set))
    }
}
