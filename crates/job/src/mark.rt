// How far a reader has come.
ghost use Rattle.std.specs.Prelude.{◌≤◌};

// The place of the next record, and the index of that record, which is no more than its place.
#[derive(Clone, Copy)]
pub(crate) struct Mark {
    pub(crate) place: u16,
    pub(crate) index: u16,
    ghost counted: { index ≤ place },
}
