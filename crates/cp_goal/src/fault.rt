/// Why an operation has no value.
#[derive(Debug, Clone, Copy, PartialEq, Eq, Drop)]
pub enum Fault {
    /// The divisor is 0.
    ZeroDivisor,
    /// The value lies outside -9223372036854775808 to 9223372036854775807.
    IntOverflow,
    /// The number of places to shift by is not from 0 to 63.
    Shift(i64),
}
