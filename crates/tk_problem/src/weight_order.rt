//! The order in which explicit weights are written.
ghost use Rattle.std.specs.Prelude.{◌≡◌, ◌≤◌, ◌<◌, ◌+◌, ◌-◌, ◌^◌, ◌==◌, ℕ, List, [], count_by, drop, length, IfSome};
ghost use Rattle.std.specs.Prelude.{IfNone, slice_get, Some};
ghost use Rattle.tk_problem.specs.declared.cell.Cell.{Cell};
ghost use Rattle.tk_problem.specs.WeightLines as Lines;
ghost use Rattle.tk_problem.specs.WeightOrder as Order;

use crate::cell::Cell;
use crate::weights::Format;
use std::marker::Model;

/// The first item of a row or column, counted from 0, in which a format has an entry.
fn first_item(format: Format, line: u32) -> u32
    requires { line < 2 ^ 32 - 1 }
    ensures { result ≡ Lines.first_item format line }
{
    match format {
        Format::UpperRow | Format::LowerCol => line + 1,
        Format::UpperDiagRow | Format::LowerDiagCol => line,
        _ => 0,
    }
}

/// The item after the last one of a row or column in which a format has an entry.
fn end_item(format: Format, n: u32, line: u32) -> u32
    requires { line < n }
    ensures value { result ≡ Lines.end_item format n line }
    ensures bound { result ≤ n }
{
    match format {
        Format::LowerRow | Format::UpperCol => line,
        Format::LowerDiagRow | Format::UpperDiagCol => line + 1,
        _ => n,
    }
}

/// The first row or column from `from` on in which a format has an entry; `None` if there is none.
fn next_line(format: Format, n: u32, from: u32) -> Option<u32>
    requires { n < 2 ^ 32 - 1 }
    ensures some { IfSome result (λ line. (line < n) × (Lines.first_item format line < Lines.end_item format n line)
        × (Lines.weight_lines format n from (n - from) ≡ Lines.places_from format n line (Lines.first_item format line)
        (Lines.end_item format n line))) }
    ensures none { IfNone result (Lines.weight_lines format n from (n - from) ≡ []) }
{
    for line in from..n {
        if first_item(format, line) < end_item(format, n, line) {
            return Some(line);
        }
    }
    None
}

/// The cells of the weights that are still to be read, in their order.
#[derive(Drop)]
pub struct WeightCursor {
    format: Format,
    n: u32,
    line: u32,
    item: u32,
    end: u32,
}

impl Model for WeightCursor {
    ghost Value = { List Cell };

    ghost view = { λ s. Lines.places_from s.format s.n s.line s.item s.end };

    ghost invariant = { λ s. (s.n < 2 ^ 32 - 1) × (s.line ≤ s.n) × (s.end ≤ s.n)
        × (s.end ≤ s.item → Lines.weight_lines s.format s.n (s.line + 1) (s.n - (s.line + 1)) ≡ []) };
}

impl WeightCursor {
    /// The cells of all weights of `n` cities.
    pub fn new(format: Format, n: u32) -> Self
        requires { n < 2 ^ 32 - 1 }
        ensures places { result ≡ Order.order format n }
        ensures count { length result ≡ Order.entry_count format n }
        ensures pairs { (i : ℕ) (j : ℕ) → j < i → i < n
            → count_by (Order.is_of i j) result ≡ Order.times_written format }
    {
        WeightCursor::from_line(format, n, 0)
    }

    /// The cells of the weights from a row or column on.
    #[cold]
    fn from_line(format: Format, n: u32, from: u32) -> Self
        requires { n < 2 ^ 32 - 1 }
        ensures { result ≡ Lines.weight_lines format n from (n - from) }
    {
        match next_line(format, n, from) {
            Some(line) => WeightCursor {
                format,
                n,
                line,
                item: first_item(format, line),
                end: end_item(format, n, line),
            },
            None => WeightCursor {
                format,
                n,
                line: n,
                item: 0,
                end: 0,
            },
        }
    }

    /// Whether all weights have been read.
    #[inline(always)]
    pub fn is_done(&self) -> bool
        ensures { result ≡ (length self.now == 0) }
    {
        self.item >= self.end
    }

    /// The cell of the next weight.
    #[inline(always)]
    pub fn place(&self) -> Cell
        requires { 0 < length self.now }
        ensures { slice_get self.now 0 ≡ Some result }
    {
        match self.format {
            Format::UpperCol | Format::LowerCol | Format::UpperDiagCol | Format::LowerDiagCol => {
                Cell {
                    row: self.item,
                    column: self.line,
                }
            }
            _ => Cell {
                row: self.line,
                column: self.item,
            },
        }
    }

    /// Moves on to the next cell.
    #[inline(always)]
    pub fn advance(&mut self)
        requires { 0 < length self.old }
        ensures { self.new ≡ drop 1 self.old }
    {
        self.item += 1;
        if self.item >= self.end {
            *self = WeightCursor::from_line(self.format, self.n, self.line + 1);
        }
    }
}
