//! `plot --html` with two tours or solutions: a page with a frame for the page of each.
use crate::commands::plot::status_of;
use crate::embedded::compare::{HEAD, SCRIPT, STYLE};
use std::io::Write;
use std::process::ExitCode;
use tk_console::input::open;
use tk_console::printed::Unprinted;
use tk_console::refusal::{Reason, Refusal};
use tk_console::shown::shown_name;
use tk_engines::Fault;
use tk_plot::{OutputFormat, plot_problem};
use tk_problem_text::{PlacedProblem, read_placed_problem};
use tk_words::FromRead;
use tk_writers::{Pen, Sink, ToWrite};

/// The page of a tour or of routes; empty if they have a fault.
#[derive(Drop)]
struct Drawn<'a> {
    file: &'a str,
    page: Vec<u8>,
    /// The exit status.
    status: u8,
}

/// Draws two tours or solutions of a problem, each on a page of its own, and prints a page with both. The problem is
/// read before the other files are opened. If one has a fault, nothing is printed.
///
/// # Errors
/// Why it stopped.
pub fn plot_both<'a>(
    rt: &HostRuntime,
    problem_file: &'a str,
    first_file: &'a str,
    second_file: &'a str,
    form: &OutputFormat<'_>,
) -> Result<ExitCode, Refusal<'a>> {
    let placed = placed_in(rt, problem_file)?;
    draw_both(rt, &placed, problem_file, first_file, second_file, form)
}

/// Reads a problem and its places. If standard input is closed, the file gets its number, so it must not stay open
/// while others are read.
fn placed_in<'a>(rt: &HostRuntime, file: &'a str) -> Result<PlacedProblem, Refusal<'a>> {
    let input = open(rt, file)?;
    match read_placed_problem(rt.alloc(), &mut FromRead::new(input)) {
        Ok(placed) => Ok(placed),
        Err(fault) => Err(Reason::Text(fault).about(file)),
    }
}

/// Draws two tours or solutions of a problem that has been read.
fn draw_both<'a>(
    rt: &HostRuntime,
    placed: &PlacedProblem,
    problem_file: &'a str,
    first_file: &'a str,
    second_file: &'a str,
    form: &OutputFormat<'_>,
) -> Result<ExitCode, Refusal<'a>> {
    let first = draw_one(rt, placed, problem_file, first_file, form)?;
    let second = draw_one(rt, placed, problem_file, second_file, form)?;
    let status = first.status.max(second.status);
    if status == 0 {
        print_both(rt, &first, &second)?;
    }
    Ok(ExitCode::from(status))
}

/// Draws a tour or routes in memory. Reports their fault if they have one.
fn draw_one<'a>(
    rt: &HostRuntime,
    placed: &PlacedProblem,
    problem_file: &'a str,
    file: &'a str,
    form: &OutputFormat<'_>,
) -> Result<Drawn<'a>, Refusal<'a>> {
    let claim = open(rt, file)?;
    let mut page = ToWrite::new(Vec::new(rt.alloc()));
    let mut line = ToWrite::new(Vec::new(rt.alloc()));
    let mut claim = FromRead::new(claim);
    match plot_problem(
        rt.alloc(),
        placed,
        &mut claim,
        true,
        form,
        &mut page,
        &mut line,
    ) {
        Ok(plotted) => {
            report(rt, file, &line.inner)?;
            Ok(Drawn {
                file,
                page: page.inner,
                status: status_of(plotted),
            })
        }
        Err(Fault::Write(_)) => Err(Reason::NoMemory.alone()),
        Err(fault) => Err(Refusal::stopped_by_claim(problem_file, file, &fault)),
    }
}

/// Writes the line with the fault of a tour or of routes, if there is one, to standard error.
fn report<'a>(rt: &HostRuntime, file: &'a str, line: &[u8]) -> Result<(), Refusal<'a>> {
    if line.is_empty() {
        return Ok(());
    }
    let Ok(()) = eprint!(rt; "{}: ", shown_name(rt, file)) else {
        return Err(Reason::Unwritten.alone());
    };
    match rt.stderr().write_all(line) {
        Ok(()) => Ok(()),
        Err(_) => Err(Reason::Unwritten.alone()),
    }
}

/// Prints a page with two others in frames.
fn print_both(rt: &HostRuntime, first: &Drawn<'_>, second: &Drawn<'_>) -> Result<(), Unprinted> {
    let mut out = ToWrite::new(rt.stdout());
    let mut pen = Pen::new(&mut out);
    pen.put(HEAD);
    pen.put(STYLE);
    pen.put(b"</style>\n<title>");
    put_names(&mut pen, first.file, second.file);
    pen.put(b"</title>\n<body>\n<h1>");
    put_names(&mut pen, first.file, second.file);
    pen.put(b"</h1>\n<p id=\"difference\"></p>\n<main>\n");
    put_frame(&mut pen, first);
    put_frame(&mut pen, second);
    pen.put(b"</main>\n<script>\n");
    pen.put(SCRIPT);
    pen.put(b"</script>\n");
    pen.end()?;
    Ok(())
}

/// Writes the names of two files.
fn put_names<W: Sink>(pen: &mut Pen<'_, W>, first: &str, second: &str) {
    put_escaped(pen, first.as_bytes());
    pen.put(b" and ");
    put_escaped(pen, second.as_bytes());
}

/// Writes a page as a frame.
fn put_frame<W: Sink>(pen: &mut Pen<'_, W>, drawn: &Drawn<'_>) {
    pen.put(b"<figure>\n<figcaption><bdi>");
    put_escaped(pen, drawn.file.as_bytes());
    pen.put(b"</bdi></figcaption>\n<iframe title=\"");
    put_escaped(pen, drawn.file.as_bytes());
    pen.put(b"\" srcdoc=\"");
    put_escaped(pen, &drawn.page);
    pen.put(b"\"></iframe>\n</figure>\n");
}

/// Writes a text as HTML, also within an attribute in double quotes.
fn put_escaped<W: Sink>(pen: &mut Pen<'_, W>, text: &[u8]) {
    for byte in text {
        match *byte {
            b'&' => pen.put(b"&amp;"),
            b'<' => pen.put(b"&lt;"),
            b'"' => pen.put(b"&quot;"),
            byte => pen.put(&[byte]),
        }
    }
}
