use crate::seniority::Seniority;
use offices::OfficeBase;

// A sealed office: no call changes it.
#[derive(Drop)]
pub struct Sealed<S: Seniority> {
    pub(crate) base: OfficeBase,
    pub(crate) seniority: S,
}
