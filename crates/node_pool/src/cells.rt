//! Plain work on slices of cells.

ghost use Rattle.std.specs.Prelude.{◌≡◌, ◌+◌, ◌≤◌, ◌⊎◌, length, is_some, false};
ghost use Rattle.node_pool.specs.Cell.{value_of, next_free, cell_at, IsFilled, IsShifted};

/// A cell in use, or a free one. The first cell of a free block names the next block of its list.
#[derive(Clone, Copy)]
pub enum Cell<T> {
    Free(u32),
    Used(T),
}

/// The free blocks of one size: the place of the first, where there is one, and how many there are.
#[derive(Clone, Copy)]
pub struct FreeList {
    pub first: u32,
    pub count: usize,
}

/// The next free block that a free cell names.
pub fn next_of<T: Copy>(cell: Cell<T>) -> u32
    requires { is_some (value_of cell) ≡ false }
    ensures { result ≡ next_free cell }
{
    match cell {
        Cell::Free(next) => next,
        Cell::Used(_) => unreachable!(),
    }
}

/// Writes one cell over a block of `size` cells.
pub fn fill<T: Copy>(cells: &mut [Cell<T>], base: usize, size: usize, cell: Cell<T>)
    requires { base + size ≤ length cells.old }
    ensures { IsFilled (cell_at cells.old) (cell_at cells.new) base size cell }
{
    for i in 0..size {
        cells[base + i] = cell;
    }
}

/// Copies a block of `size` cells to a place that is free of it, with a gap for a value.
pub fn shift<T: Copy>(
    cells: &mut [Cell<T>],
    from: usize,
    size: usize,
    gap: usize,
    to: usize,
    value: T,
)
    requires from_in { from + size ≤ length cells.old }
    requires to_in { to + (size + 1) ≤ length cells.old }
    requires gap_in { gap ≤ size }
    requires apart { (from + size ≤ to) ⊎ (to + (size + 1) ≤ from) }
    ensures { IsShifted (cell_at cells.old) (cell_at cells.new) from size gap (Cell.Used value) to }
{
    for i in 0..gap {
        cells[to + i] = cells[from + i];
    }
    cells[to + gap] = Cell::Used(value);
    for j in gap..size {
        cells[to + j + 1] = cells[from + j];
    }
}
