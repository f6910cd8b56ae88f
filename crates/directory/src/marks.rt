ghost use Rattle.std.specs.Prelude.{◌≡◌};
ghost use Rattle.directory.specs.Heard.{first_sets};
ghost use Rattle.offices.specs.Bases.{office_with};

use offices::{Office, OfficeBase};

// The office's roles and shared marks, and no set yet.
pub(crate) fn marked_base<O: Office>(office: &O) -> OfficeBase
    ensures { office_with result (O.model office.now).over ≡ first_sets 0 (O.model office.now) }
{
    let roles = office.role_count();
    let mut base = OfficeBase::new(roles);
    for role in 0..roles {
        if office.is_shared(role) {
            base.share(role).unwrap();
        }
    }
    base
}
