ghost use Rattle.std.specs.Prelude.{◌≡◌, ℕ};
ghost use Rattle.directory.specs.Heard.{entry_model};
ghost use Rattle.directory.specs.SetWords.{among, members_at};
ghost use Rattle.offices.specs.Members.{holds, row_holds};

use crate::entry::OfficeEntry;
use crate::seniority::seniority_of;
use crate::sets::base_of;
use crate::words::words_of;
use offices::{Office, RoleSet};

// The row with this number, empty where there is none.
fn row(rows: &[RoleSet], number: u8) -> RoleSet
    ensures { (i : ℕ) → holds result i ≡ row_holds rows.now number i }
{
    rows.get(usize::from(number))
        .copied()
        .unwrap_or(RoleSet::empty())
}

impl OfficeEntry {
    // Asks for all that an office answers.
    pub(crate) fn read<O: Office>(office: &O) -> OfficeEntry
        ensures { entry_model result ≡ O.model office.now }
    {
        let base = base_of(office);
        OfficeEntry {
            members: words_of(&base),
            juniors: seniority_of(office, base.role_count()),
            base,
        }
    }

    // The roles that a role is over.
    pub(crate) fn juniors_of(&self, role: u8) -> RoleSet
        ensures { (i : ℕ) → holds result i ≡ (entry_model self.now).over role i }
    {
        row(&self.juniors, role)
    }

    // The members of a set.
    pub(crate) fn members_of(&self, set: u8) -> RoleSet
        ensures { (i : ℕ) → holds result i ≡ among i (members_at (entry_model self.now).sets set) }
    {
        row(&self.members, set)
    }
}
