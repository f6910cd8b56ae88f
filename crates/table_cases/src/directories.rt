// The answers of two offices, read once: a list office with 4 roles, and a matrix office with 2.
use banks::{Join, One};
use directory::Directory;
use list_office::ListDraft;
use matrix_office::MatrixDraft;
use std::alloc::AllocError;

fn read(rt: &HostRuntime) -> Result<Directory, AllocError> {
    let mut list = ListDraft::new(4);
    let _ = list.pair(1, 3);
    let _ = list.share(3);
    let _ = list.exclude(&[2, 1], 2);
    let mut matrix = MatrixDraft::new(2);
    let _ = matrix.pair(0, 1);
    let bank = Join::new(One::new(list.seal()), matrix.seal());
    Directory::read(&bank, rt.alloc())
}

#[test]
fn two_offices(rt: HostRuntime) -> Result<(), AllocError> {
    let directory = read(&rt)?;
    assert_eq!(rt; directory.office_count(), 2);
    assert_eq!(rt; (directory.role_count(0), directory.role_count(1)), (4, 2));
    assert_eq!(rt; directory.role_count(2), 0);
    assert!(rt; directory.has_role(65) && !directory.has_role(66) && !directory.has_role(4));
    assert!(rt; directory.is_shared(3) && !directory.is_shared(1));
    assert!(rt; directory.juniors(1).contains(3) && !directory.juniors(1).contains(2));
    assert!(rt; directory.juniors(64).contains(1) && !directory.juniors(65).contains(0));
    Ok(())
}

#[test]
fn its_sets(rt: HostRuntime) -> Result<(), AllocError> {
    let directory = read(&rt)?;
    assert_eq!(rt; (directory.set_count(0), directory.set_count(1)), (1, 0));
    assert_eq!(rt;
        (directory.set_bound(0, 0), directory.set_bound(0, 1)),
        (2, 0)
    );
    assert_eq!(rt; directory.set_member(0, 0, 0), Some(2));
    assert_eq!(rt; directory.set_member(0, 0, 2), None);
    assert!(rt; directory.set_roles(0, 0).contains(1) && !directory.set_roles(0, 0).contains(3));
    Ok(())
}
