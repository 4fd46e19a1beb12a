/// How often a reader asked, and the place of its next row in the plan.
#[derive(Clone, Copy, Debug, PartialEq, Eq)]
pub struct Asked {
    pub count: u64,
    pub place: usize,
}
