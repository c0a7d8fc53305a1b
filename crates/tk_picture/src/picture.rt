//! Writes a picture of a problem.
ghost use Rattle.std.specs.Prelude.{◌≤◌, ◌++◌, IfSome, OnErr, codes, decimal, length};
ghost use Rattle.tk_writers.specs.Pens.{Puts};
ghost use Rattle.tk_writers.specs.Puts.{Writes};
ghost use Rattle.tk_writers.specs.Sinks.{IsBroken};
ghost use Rattle.tk_distance.specs.Cities.{IsCity};
ghost use Rattle.tk_picture.specs.Extents.{drawn_from_left, drawn_from_top};
ghost use Rattle.tk_picture.specs.PictureText.{group_line, head, heading_line, lines};
ghost use Rattle.tk_picture.specs.PictureText.{route_numbers, title, title_line, view_line};
ghost use Rattle.tk_picture.specs.Pictures.{Fits, drawing_of, text_in, text_of};
ghost use Rattle.tk_picture.specs.Views.{city_count, spot_in};

use crate::caption::put_title;
use crate::closed_lines::put_tour;
use crate::dots::{by_size, put_city_dots, put_depot};
use crate::extent::Extent;
use crate::node_names::NodeNames;
use crate::numbers::{put_halo_start, put_numbers, put_numbers_start};
use crate::page::parts::Parts;
use crate::page::put_page;
use crate::route_lines::put_route_lines;
use crate::subject::Subject;
use crate::view::View;
use tk_problem_text::PlacesOrigin;
use tk_writers::{Pen, Sink, WriteFault};

/// A picture of a problem with this name: its cities, closed lines through them, and its depot.
#[derive(Clone, Copy)]
pub struct Picture<'a> {
    pub name: &'a [u8],
    /// The section that has the places of the cities, if the distances do not depend on them.
    pub origin: Option<PlacesOrigin>,
    pub view: View<'a>,
    pub subject: Subject<'a>,
    pub depot: Option<u32>,
    /// The demands of the nodes; empty if there is no routing.
    pub demands: &'a [u32],
}

/// The format of a picture.
#[derive(Clone, Copy)]
pub enum OutputFormat<'a> {
    /// SVG.
    Svg,
    /// An HTML page that has these parts, and in which the nodes have these names, if any.
    Page(Parts<'a>, NodeNames<'a>),
}

impl OutputFormat<'_> {
    ghost use Rattle.std.specs.Prelude.{◌≡◌};
    ghost use Rattle.tk_picture.specs.Pictures.{names_fit};

    /// Whether it has a name for each of n nodes, or no names.
    pub fn names_fit(&self, n: u32) -> bool
        ensures { result ≡ names_fit self.now n }
    {
        match self {
            OutputFormat::Svg => true,
            OutputFormat::Page(_, names) => {
                names.list.is_empty() || names.list.len() == n as usize
            }
        }
    }
}

/// Writes the line with the size of the view.
fn put_view_line<W: Sink>(pen: &mut Pen<'_, W>, height: u128)
    ensures { Puts W.Sink pen.old pen.new (view_line height) }
{
    pen.put(b"<svg xmlns=\"http://www.w3.org/2000/svg\" viewBox=\"0 0 1040 ");
    pen.put_wide(height);
    pen.put(b"\">\n");
}

/// Writes the line with the title.
pub(crate) fn put_title_line<W: Sink>(pen: &mut Pen<'_, W>, picture: &Picture<'_>)
    ensures { Puts W.Sink pen.old pen.new (title_line (title picture.now.name.now picture.now.origin
        (city_count picture.now.view) (drawing_of picture.now.subject))) }
{
    pen.put(b"<title>");
    put_title(pen, picture);
    pen.put(b"</title>\n");
}

/// Writes the line with the title that is drawn.
fn put_heading_line<W: Sink>(pen: &mut Pen<'_, W>, picture: &Picture<'_>)
    ensures { Puts W.Sink pen.old pen.new (heading_line (title picture.now.name.now picture.now.origin
        (city_count picture.now.view) (drawing_of picture.now.subject))) }
{
    pen.put(b"<text x=\"20\" y=\"40\" font-family=\"sans-serif\" font-size=\"24\">");
    put_title(pen, picture);
    pen.put(b"</text>\n");
}

/// Writes the position of the drawing in the view.
fn put_group_start<W: Sink>(pen: &mut Pen<'_, W>, extent: &Extent)
    ensures { Puts W.Sink pen.old pen.new (codes "<g transform=\"translate("
        ++ decimal (drawn_from_left extent.now) ++ codes " " ++ decimal (drawn_from_top extent.now)) }
{
    pen.put(b"<g transform=\"translate(");
    pen.put_wide(extent.drawn_from_left());
    pen.put(b" ");
    pen.put_wide(extent.drawn_from_top());
}

/// Writes the line that begins the group of lines and points.
fn put_group_line<W: Sink>(pen: &mut Pen<'_, W>, extent: &Extent, cities: u32)
    ensures { Puts W.Sink pen.old pen.new (group_line extent.now cities) }
{
    put_group_start(pen, extent);
    pen.put(
        b") scale(0.1)\" fill=\"none\" stroke-linecap=\"round\" stroke-linejoin=\"round\" stroke-width=\"",
    );
    pen.put(by_size(cities, b"20", b"6"));
    pen.put(b"\">\n");
}

/// Writes the text before the lines and the points.
fn put_head<W: Sink>(pen: &mut Pen<'_, W>, picture: &Picture<'_>)
    ensures { Puts W.Sink pen.old pen.new (head picture.now.view.extent
        (title picture.now.name.now picture.now.origin (city_count picture.now.view) (drawing_of picture.now.subject))
        (city_count picture.now.view)) }
{
    put_view_line(pen, picture.view.extent.view_height());
    put_title_line(pen, picture);
    pen.put(b"<rect width=\"100%\" height=\"100%\" fill=\"white\"/>\n");
    put_heading_line(pen, picture);
    put_group_line(pen, &picture.view.extent, picture.view.size());
}

/// Writes the lines through cities.
fn put_lines<W: Sink>(pen: &mut Pen<'_, W>, view: &View<'_>, subject: Subject<'_>)
    requires { Fits (city_count view.now) subject }
    ensures { Puts W.Sink pen.old pen.new
        (lines (spot_in view.now) (city_count view.now) (drawing_of subject.entry)) }
{
    match subject {
        Subject::Cities => {}
        Subject::Tour { cities, .. } => put_tour(pen, view, cities),
        Subject::Routes {
            cvrp,
            routes,
            count,
            ..
        } => put_route_lines(pen, view, &cvrp, routes, count),
    }
}

/// Writes the numbers of the routes, if there are routes.
fn put_route_numbers<W: Sink>(pen: &mut Pen<'_, W>, view: &View<'_>, subject: Subject<'_>)
    requires { Fits (city_count view.now) subject }
    ensures { Puts W.Sink pen.old pen.new
        (route_numbers (spot_in view.now) (city_count view.now) (drawing_of subject.entry)) }
{
    if let Subject::Routes { cvrp, routes, .. } = subject {
        put_numbers_start(pen, view.size());
        put_halo_start(pen, view.size());
        put_numbers(pen, view, &cvrp, routes);
        pen.put(b"</g>\n");
        put_numbers(pen, view, &cvrp, routes);
        pen.put(b"</g>\n");
    }
}

/// Writes a picture as an SVG.
pub(crate) fn put_picture<W: Sink>(pen: &mut Pen<'_, W>, picture: &Picture<'_>)
    requires fits { Fits (city_count picture.now.view) picture.now.subject }
    requires depot { IfSome picture.now.depot (IsCity (city_count picture.now.view)) }
    ensures { Puts W.Sink pen.old pen.new (text_of picture.now) }
{
    put_head(pen, picture);
    put_lines(pen, &picture.view, picture.subject);
    put_city_dots(pen, &picture.view, picture.subject);
    put_route_numbers(pen, &picture.view, picture.subject);
    put_depot(pen, &picture.view, picture.depot);
    pen.put(b"</g>\n</svg>\n");
}

/// Writes a picture in a format.
fn put_form<W: Sink>(pen: &mut Pen<'_, W>, picture: &Picture<'_>, form: OutputFormat<'_>)
    requires fits { Fits (city_count picture.now.view) picture.now.subject }
    requires depot { IfSome picture.now.depot (IsCity (city_count picture.now.view)) }
    ensures { Puts W.Sink pen.old pen.new (text_in form.entry picture.now) }
{
    match form {
        OutputFormat::Svg => put_picture(pen, picture),
        OutputFormat::Page(parts, names) => put_page(pen, picture, &parts, &names),
    }
}

/// Writes a picture in a form.
pub fn write_picture<W: Sink>(
    out: &mut W,
    picture: &Picture<'_>,
    form: OutputFormat<'_>,
) -> Result<(), WriteFault>
    requires fits { Fits (city_count picture.now.view) picture.now.subject }
    requires depot { IfSome picture.now.depot (IsCity (city_count picture.now.view)) }
    requires name { length picture.now.name.now ≤ 1024 }
    ensures text { Writes W.Sink out.old out.new result (text_in form.entry picture.now) }
    ensures failed { OnErr result (IsBroken W.Sink out.new) }
{
    let mut pen = Pen::new(out);
    put_form(&mut pen, picture, form);
    pen.end()
}
