/// The most cells of a clause, and the most bytes of a name in it.
#[derive(Debug, Clone, Copy, Drop)]
pub struct Bounds {
    pub cells: u32,
    pub name: u32,
}
