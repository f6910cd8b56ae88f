use crate::sealed::Sealed;
use crate::seniority::Seniority;

// An office under drafting.
#[derive(Drop)]
pub struct Draft<S: Seniority> {
    pub(crate) office: Sealed<S>,
}
