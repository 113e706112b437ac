//! Where the words of a place's cell stand in a ring's table.
ghost use Rattle.std.specs.Prelude.{◌%◌, ◌<◌, ◌≡◌, ◌≤◌};
ghost use Rattle.tmw_ring.specs.TableWords.{stamp_word, value_word};
ghost use Rattle.tmw_ring.specs.TableWords as words;

use crate::table_words::FIRST_CELL;

/// A place, and where the words of its cell stand: the first, which has the stamp, and the second, which has the value.
#[derive(Clone, Copy)]
pub(crate) struct CellWords {
    pub(crate) place: u64,
    pub(crate) stamp: usize,
    pub(crate) value: usize,
}

/// Returns the number of the place's cell. For a power of two cells it is masked, which costs less than to divide.
fn cell_of(cells: u64, place: u64) -> u64
    requires { 0 < cells }
    ensures { result ≡ place % cells }
{
    let power = 1u64.wrapping_shl(cells.trailing_zeros());
    if power == cells {
        return place & (power - 1);
    }
    place % cells
}

/// Returns where the cell of this number stands among the cells. Of sixteen, cells that follow one another stand on
/// different lines of memory, where a line has 64 bytes.
fn crossed(cell: u64) -> u64
    requires { cell < 4096 }
    ensures { result ≡ words.crossed cell }
{
    cell / 16 * 16 + cell % 4 * 4 + cell / 4 % 4
}

/// Returns for how many cells a table with so many has room.
pub(crate) fn whole(cells: u64) -> u64
    requires { cells ≤ 4096 }
    ensures { result ≡ words.whole cells }
{
    (cells + 15) / 16 * 16
}

/// Returns where the words of the place's cell stand, in a ring with so many cells. Each call that touches a cell
/// does this once.
pub(crate) fn words_at(cells: u64, place: u64) -> CellWords
    requires some { 0 < cells }
    requires small { cells ≤ 4096 }
    ensures place { result.place ≡ place }
    ensures stamp { result.stamp ≡ stamp_word cells place }
    ensures value { result.value ≡ value_word cells place }
{
    let stamp = FIRST_CELL + 2 * crossed(cell_of(cells, place)) as usize;
    CellWords {
        place,
        stamp,
        value: stamp + 1,
    }
}
