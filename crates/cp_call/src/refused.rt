use crate::call::FullBy;

/// Why a call was not prepared.
#[derive(Drop)]
pub enum Refused {
    StillParked,
    Full { by: FullBy, count: u32 },
    NoMemory,
}
