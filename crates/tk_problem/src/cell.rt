//! Cells of a matrix.
ghost use Rattle.std.specs.Prelude.{◌≡◌, ◌≢◌, ◌↔◌, IsTrue};

/// A cell of a matrix, whose rows and columns are counted from 0.
#[derive(Clone, Copy)]
pub struct Cell {
    pub row: u32,
    pub column: u32,
}

impl Cell {
    ghost use Rattle.tk_problem.specs.WeightOrder as Order;

    /// Whether the cell is on the diagonal.
    #[inline(always)]
    pub fn is_diagonal(self) -> bool
        ensures { IsTrue result ↔ (self.row ≡ self.column) }
    {
        self.row == self.column
    }

    /// The index of the pair of this row and column, in either order, among all pairs, row by row below the diagonal.
    #[inline(always)]
    pub fn lower_index(self) -> usize
        requires { self.row ≢ self.column }
        ensures { result ≡ Order.lower_index self }
    {
        let greater = self.row.max(self.column) as usize;
        let lesser = self.row.min(self.column) as usize;
        greater * (greater - 1) / 2 + lesser
    }
}
