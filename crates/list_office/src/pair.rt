// A role and one that it is over.
#[derive(Clone, Copy, Default)]
pub struct Pair {
    pub senior: u8,
    pub junior: u8,
}
