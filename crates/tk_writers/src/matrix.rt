//! Writes a table of distances as explicit weights.
ghost use Rattle.std.specs.Prelude.{◌≡◌, ◌≢◌, IfSome, ℕ, ◌+◌, ◌-◌, ◌≤◌, ◌<◌, length};
ghost use Rattle.std.specs.Prelude.{OnErr};
ghost use Rattle.std.specs.List.{range_with_len};
ghost use Rattle.tk_problem.specs.declared.limits.TheConstants.{TABLE_LIMIT};
ghost use Rattle.tk_problem.specs.declared.weights.Format.{Format};
ghost use Rattle.tk_writers.specs.FormatLines.{has_column_lines, on_line, entry_place};
ghost use Rattle.tk_writers.specs.MatrixText.{GivesTable, IfGives, matrix_head, matrix_line, matrix_text};
ghost use Rattle.tk_problem.specs.WeightWords.{format_word};
ghost use Rattle.tk_writers.specs.Pens.{Puts};
ghost use Rattle.tk_writers.specs.Puts.{Writes};
ghost use Rattle.tk_problem_text.specs.Names.{IsName};
ghost use Rattle.tk_writers.specs.ReadBack.{IsTable, ReadsBack};
ghost use Rattle.tk_writers.specs.Sinks.{IsBroken};

use crate::output::pen::{Pen, WriteFault};
use crate::output::sink::Sink;
use tk_problem::{FORMATS, Format};

/// The format with this name; `None` if there is none.
pub fn format_of(word: &str) -> Option<Format>
    ensures some { IfSome result (λ f. word.now ≡ format_word f) }
    ensures none { result ≡ None → (f : Format) → word.now ≢ format_word f }
{
    FORMATS.iter().copied().find(|format| format.word() == word)
}

/// Whether the lines of a format are columns.
fn is_by_columns(f: Format) -> bool
    ensures { result ≡ has_column_lines f }
{
    matches!(
        f,
        Format::UpperCol | Format::LowerCol | Format::UpperDiagCol | Format::LowerDiagCol
    )
}

/// The range of positions in row or column k that a format contains: the first one, and the one after the last.
fn places_on_line(n: u32, f: Format, k: u32) -> (u32, u32)
    requires city { (1 ≤ k) × (k ≤ n) }
    requires few { n ≤ TABLE_LIMIT }
    ensures places { on_line n f k ≡ range_with_len result.0 (result.1 - result.0) }
    ensures order { result.0 ≤ result.1 }
    ensures cities { (1 ≤ result.0) × (result.1 ≤ n + 1) }
{
    match f {
        Format::FullMatrix => (1, n + 1),
        Format::UpperRow | Format::LowerCol => (k + 1, n + 1),
        Format::LowerRow | Format::UpperCol => (1, k),
        Format::UpperDiagRow | Format::LowerDiagCol => (k, n + 1),
        Format::LowerDiagRow | Format::UpperDiagCol => (1, k + 1),
    }
}

/// The entry at position m of row or column k.
fn entry<D: Fn(u32, u32) -> i64>(n: u32, d: &D, f: Format, k: u32, m: u32) -> u64
    requires k { (1 ≤ k) × (k ≤ n) }
    requires m { (1 ≤ m) × (m ≤ n) }
    requires table { (table : ℕ → ℕ → ℕ) × GivesTable (D.pre d.now) (D.post d.now) n table }
    ensures { IfGives (D.pre d.now) (D.post d.now) n
        (λ table. result ≡ table (entry_place f k m).0 (entry_place f k m).1) }
{
    let distance = if is_by_columns(f) { d(m, k) } else { d(k, m) };
    distance as u64
}

/// Writes the lines before the entries.
fn put_head<W: Sink>(pen: &mut Pen<'_, W>, name: &[u8], n: u32, f: Format)
    ensures { Puts W.Sink pen.old pen.new (matrix_head name.now n f) }
{
    pen.put(b"NAME : ");
    pen.put(name);
    pen.put(b"\nTYPE : TSP\nDIMENSION : ");
    pen.put_number(n as u64);
    pen.put(b"\nEDGE_WEIGHT_TYPE : EXPLICIT\nEDGE_WEIGHT_FORMAT : ");
    pen.put(f.word().as_bytes());
    pen.put(b"\nEDGE_WEIGHT_SECTION\n");
}

/// Writes row or column k.
fn put_line<W: Sink, D: Fn(u32, u32) -> i64>(pen: &mut Pen<'_, W>, n: u32, d: &D, f: Format, k: u32)
    requires few { n ≤ TABLE_LIMIT }
    requires k { (1 ≤ k) × (k ≤ n) }
    requires table { (table : ℕ → ℕ → ℕ) × GivesTable (D.pre d.now) (D.post d.now) n table }
    ensures same { pen.new.sink.ghost_name ≡ pen.old.sink.ghost_name }
    ensures puts { IfGives (D.pre d.now) (D.post d.now) n
        (λ table. Puts W.Sink pen.old pen.new (matrix_line n table f k)) }
{
    let (first, end) = places_on_line(n, f, k);
    if first == end {
        return;
    }
    pen.put_number(entry(n, d, f, k, first));
    for m in first + 1..end {
        pen.put(b" ");
        pen.put_number(entry(n, d, f, k, m));
    }
    pen.put(b"\n");
}

/// Writes the whole text.
fn put_matrix<W: Sink, D: Fn(u32, u32) -> i64>(
    pen: &mut Pen<'_, W>,
    name: &[u8],
    n: u32,
    d: &D,
    f: Format,
)
    requires few { n ≤ TABLE_LIMIT }
    requires table { (table : ℕ → ℕ → ℕ) × GivesTable (D.pre d.now) (D.post d.now) n table }
    ensures same { pen.new.sink.ghost_name ≡ pen.old.sink.ghost_name }
    ensures puts { IfGives (D.pre d.now) (D.post d.now) n
        (λ table. Puts W.Sink pen.old pen.new (matrix_text name.now n table f)) }
{
    put_head(pen, name, n, f);
    for k in 1..n + 1 {
        put_line(pen, n, d, f, k);
    }
    pen.put(b"EOF\n");
}

/// Writes a TSP with explicit weights: the distances of the cities 1 to `n`, as `d` returns them.
/// If a problem can have this name and these distances, a reader returns them (`read_back`).
///
/// # Errors
/// A write failed; the fault contains the number of bytes that were written.
pub fn write_matrix<W: Sink, D: Fn(u32, u32) -> i64>(
    w: &mut W,
    name: &[u8],
    n: u32,
    d: &D,
    f: Format,
) -> Result<(), WriteFault>
    requires few { n ≤ TABLE_LIMIT }
    requires table { (table : ℕ → ℕ → ℕ) × GivesTable (D.pre d.now) (D.post d.now) n table }
    ensures text { IfGives (D.pre d.now) (D.post d.now) n
        (λ table. Writes W.Sink w.old w.new result (matrix_text name.now n table f)) }
    ensures read_back { IfGives (D.pre d.now) (D.post d.now) n
        (λ table. IsName name.now → IsTable n table → 2 ≤ n → ReadsBack name.now n table f) }
    ensures failed { length name.now ≤ 1024 → OnErr result (IsBroken W.Sink w.new) }
{
    let mut pen = Pen::new(w);
    put_matrix(&mut pen, name, n, d, f);
    pen.end()
}
