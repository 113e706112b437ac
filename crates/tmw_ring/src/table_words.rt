//! Where the words of a ring's table stand: tail, front, and then two for each cell. Between tail and front, and
//! between front and the cells, stand words that nothing uses, so that each has a line of memory of its own.

/// The number of the word that counts the places claimed.
// First, since a seat that is split or joined loads the table's first word, and that load should be of tail.
pub(crate) const TAIL_WORD: usize = 0;

/// The number of the word that counts the places freed.
pub(crate) const FRONT_WORD: usize = 16;

/// The number of the first word of the first cell.
pub(crate) const FIRST_CELL: usize = 32;
