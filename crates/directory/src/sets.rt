ghost use Rattle.std.specs.Prelude.{◌≡◌};
ghost use Rattle.directory.specs.SetWords.{members_at};
ghost use Rattle.offices.specs.Bases.{office_with};

use crate::marks::marked_base;
use arrayvec::ArrayVec;
use offices::{Office, OfficeBase};

// The members of a set, in their order.
fn listed_members<O: Office>(office: &O, set: u8) -> ArrayVec<u8, 8>
    ensures { result.items ≡ members_at (O.model office.now).sets set }
{
    // A loop: `map_while` and `collect` into an `ArrayVec` would give a `Result`, and there is always room.
    let mut members = ArrayVec::new();
    for place in 0..8 {
        let Some(role) = office.set_member(set, place) else {
            return members;
        };
        members.push(role);
    }
    members
}

// The office's roles, shared marks and sets.
pub(crate) fn base_of<O: Office>(office: &O) -> OfficeBase
    ensures { office_with result (O.model office.now).over ≡ O.model office.now }
{
    let mut base = marked_base(office);
    for set in 0..office.set_count() {
        let members = listed_members(office, set);
        base.exclude(&members, office.set_bound(set)).unwrap();
    }
    base
}
