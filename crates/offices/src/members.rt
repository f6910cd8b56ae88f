ghost use Rattle.std.specs.Prelude.{◌≡◌};
ghost use Rattle.offices.specs.Drafting.{all_differ, all_below, good_set};

fn distinct(members: &[u8]) -> bool
    ensures { result ≡ all_differ members.now }
{
    for (at, role) in members.iter().enumerate() {
        if members[at + 1..].contains(role) {
            return false;
        }
    }
    true
}

// Whether each role is below `roles`.
pub(crate) fn exist(members: &[u8], roles: u8) -> bool
    ensures { result ≡ all_below roles members.now }
{
    members.iter().all(|role| *role < roles)
}

// Whether size, roles and bound are those of an exclusive set.
pub(crate) fn well_formed(members: &[u8], bound: u8) -> bool
    ensures { result ≡ good_set members.now bound }
{
    let size = members.len();
    size >= 2 && size <= 8 && bound >= 2 && bound as usize <= size && distinct(members)
}
