//! Objects that consist of rows of numbers: near lists and matrices. Their texts can be larger than everything else in
//! memory, so they are written number by number.
ghost use Rattle.tk_distance.specs.Cities.{IsCity};
ghost use Rattle.tk_distance.specs.Tables.{table_size};

use tk_distance::{Metric, Table};
use tk_near::Near;
use tk_problem::Problem;
use tk_writers::{Pen, Sink, WriteFault};

/// Writes near lists as an object, on a line of its own.
///
/// # Errors
/// A write failed.
pub fn write_near_object<W: Sink>(out: &mut W, near: &Near) -> Result<(), WriteFault> {
    let mut pen = Pen::new(out);
    pen.put(b"{\"candidates\":");
    pen.put_number(near.width() as u64);
    pen.put(b",\"near\":[");
    for city in 1..near.size() + 1 {
        begin_item(&mut pen, city);
        put_row(&mut pen, near.of(city));
    }
    pen.put(b"]}\n");
    pen.end()
}

/// Writes the distances of a problem as an object, on a line of its own: a row for each city.
///
/// # Errors
/// A write failed.
pub fn write_matrix_object<W: Sink>(out: &mut W, problem: &Problem) -> Result<(), WriteFault> {
    let table = Table::of(problem);
    let mut pen = Pen::new(out);
    pen.put(b"{\"nodes\":");
    pen.put_number(table.size() as u64);
    pen.put(b",\"weights\":[");
    for city in 1..table.size() + 1 {
        begin_item(&mut pen, city);
        put_distances(&mut pen, &table, city);
    }
    pen.put(b"]}\n");
    pen.end()
}

/// Writes a comma before the item with this number, unless it is the first.
fn begin_item<W: Sink>(pen: &mut Pen<'_, W>, number: u32) {
    if number > 1 {
        pen.put(b",");
    }
}

/// Writes the numbers of a row.
fn put_row<W: Sink>(pen: &mut Pen<'_, W>, numbers: &[u32]) {
    let mut before = b"[";
    for number in numbers {
        pen.put(before);
        pen.put_number(*number as u64);
        before = b",";
    }
    pen.put(b"]");
}

/// Writes the distances from a city to all cities.
fn put_distances<W: Sink>(pen: &mut Pen<'_, W>, table: &Table<'_>, city: u32)
    requires { IsCity (table_size table.now) city }
{
    pen.put(b"[");
    for other in 1..table.size() + 1 {
        begin_item(pen, other);
        pen.put_number(table.dist(city, other) as u64);
    }
    pen.put(b"]");
}
