/// Where driving a worker ended: it is parked on an object, or memory has stopped its shell.
#[derive(Clone, Copy)]
pub enum Driven {
    Parked { object: u32 },
    Stopped,
}
