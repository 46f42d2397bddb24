/// What is known of an assertion (Ciao manual, assertions). Only `Check` ones are tested.
#[derive(Debug, Clone, Copy, PartialEq, Eq, Drop)]
pub enum Status {
    Check,
    Trust,
    /// Written `true`.
    Believed,
    Checked,
    /// Written `false`.
    Refuted,
}
