// Rows of codes. A code is office × 64 + role.
use offices::RoleSet;
use reach::{Row, Rows};
use std::alloc::AllocError;

#[test]
fn sixteen_rows(rt: HostRuntime) -> Result<(), AllocError> {
    let mut rows = Rows::<16>::new(rt.alloc())?;
    assert!(rt; !rows.contains(3, 66));
    rows.set(3, Row::of(1, RoleSet::empty().with(2)));
    assert!(rt; rows.contains(3, 66) && !rows.contains(3, 65) && !rows.contains(2, 66));
    // from 16 on there is no row
    rows.set(16, Row::empty().with(5));
    assert!(rt; !rows.contains(16, 5) && !rows.row(16).contains(5));
    Ok(())
}
