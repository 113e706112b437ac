use crate::value_names::LongValues;
use tmw_kept::Name;

/// What a drawing calls transactions and long values.
#[derive(Clone, Copy)]
pub struct Legend<'a> {
    pub names: &'a [Name],
    pub values: &'a LongValues,
}
