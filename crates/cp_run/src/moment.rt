use cp_heap::Mark;

/// How far the heap and the lists of goals had grown.
#[derive(Debug, Clone, Copy, Drop)]
pub struct Moment {
    pub mark: Mark,
    pub lists: u32,
}
