// The code of a run: how it was sealed, the table that its records stand in, and the bytes that its strings refer to.
use code::table::{Record, Sealed};
use effects::literals::Literals;

#[derive(Clone, Copy)]
pub struct Code<'p, 'f, 't> {
    pub sealed: &'p Sealed,
    pub records: &'p [Record],
    pub literals: Literals<'f, 't>,
}
