/// A status with the last line.
#[derive(Drop)]
pub struct RunEnd {
    pub status: u8,
    pub line: Vec<u8>,
}
