// Labels: what the rules compare.

// A mark with a grade.
#[derive(Clone, Copy, Default)]
pub struct Label {
    pub mark: u64,
    pub grade: u64,
}
