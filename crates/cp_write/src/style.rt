/// Whether names are quoted where they have to be, or never.
#[derive(Clone, Copy, Drop)]
pub(crate) enum Style {
    Quoting,
    Bare,
}
