//! A page, byte by byte. Pictures are in `tests/cases`.

ghost use Rattle.std.specs.Prelude.{◌≤◌, length};

use crate::given::{expect, expect_bytes};
use std::alloc::Global;
use std::process::Abort;
use tk_engines::{Fault, RouteVerdict};
use tk_plot::{NAME_LIMIT, NodeName, NodeNames, OutputFormat, Parts, Plotted, plot_engine};
use tk_text::{FromRead, ToWrite};

/// Two customers on the two sides of a depot, which is the second node.
const SHOP: &[u8] =
    b"NAME : shop\nTYPE : CVRP\nDIMENSION : 3\nCAPACITY : 2\nEDGE_WEIGHT_TYPE : EUC_2D\nNODE_COORD_SECTION\n1 -1 7\n\
    2 1 7\n3 2 7\nDEMAND_SECTION\n1 2\n2 0\n3 1\nDEPOT_SECTION\n2\n-1\nEOF\n";

/// Two routes, and an empty one between them.
const SOLUTION: &[u8] = b"Route #1: 2\nRoute #2:\nRoute #3: 1\nCost 6\n";

const PARTS: Parts<'static> = Parts {
    head: b"<style>\n",
    style: b"p {}\n",
    tools: b"<p>tools\n",
    script: b"run();\n",
};

/// The picture in the page is 3 wide: all points are on one line. The first node is customer 1, and the third is
/// customer 2. The route without a customer is not drawn, and the route after it keeps its number.
const PAGE: &[u8] = b"<style>
p {}
</style>
<title>shop: 2 routes, cost 6</title>
<body>
<h1><bdi>shop</bdi></h1>
<p id=\"verdict\">2 routes, cost 6</p>
<div id=\"stage\">
<svg xmlns=\"http://www.w3.org/2000/svg\" viewBox=\"0 0 1040 280\">
<title>shop: 2 routes, cost 6</title>
<rect width=\"100%\" height=\"100%\" fill=\"white\"/>
<text x=\"20\" y=\"40\" font-family=\"sans-serif\" font-size=\"24\">shop: 2 routes, cost 6</text>
<g transform=\"translate(20 160) scale(0.1)\" fill=\"none\" stroke-linecap=\"round\" \
stroke-linejoin=\"round\" stroke-width=\"20\">
<polygon stroke=\"#0072B2\" points=\"
6666,0
10000,0
\"/>
<polygon stroke=\"#786E00\" points=\"
6666,0
0,0
\"/>
<path stroke=\"black\" stroke-width=\"60\" d=\"
M0,0h0
M6666,0h0
M10000,0h0
\"/>
<g font-family=\"sans-serif\" font-weight=\"bold\" text-anchor=\"middle\" font-size=\"140\">
<g class=\"halo\" aria-hidden=\"true\" stroke=\"white\" stroke-width=\"40\">
<text transform=\"translate(10000,0)\" dy=\"-.4em\" fill=\"#0072B2\">1</text>
<text transform=\"translate(0,0)\" dy=\"-.4em\" fill=\"#786E00\">3</text>
</g>
<text transform=\"translate(10000,0)\" dy=\"-.4em\" fill=\"#0072B2\">1</text>
<text transform=\"translate(0,0)\" dy=\"-.4em\" fill=\"#786E00\">3</text>
</g>
<path fill=\"black\" d=\"M6666,0m-80,-80h160v160h-160z\"/>
</g>
</svg>
</div>
<div id=\"routes\">
<table><caption>Routes, capacity 2</caption>
<thead><tr><th scope=\"col\">Route<th scope=\"col\">Customers<th scope=\"col\">Load\
<th scope=\"col\">% of capacity<th scope=\"col\">Length
<tbody>
<tr><th scope=\"row\">1<td>1<td>1<td>50<td>2
<tr><th scope=\"row\">3<td>1<td>2<td>100<td>4
</table>
</div>
<script type=\"text/plain\" id=\"cities\">
0,0 -1000000000 7000000000 2
6666,0 1000000000 7000000000 0 depot
10000,0 2000000000 7000000000 1
</script>
<script type=\"text/plain\" id=\"paths\">
2 3
2 1
</script>
<script type=\"text/plain\" id=\"legs\">
1 1 1
3 2 2
</script>
<pre id=\"names\" hidden>
Emma &amp; Co
Shop
&lt;b&gt;
</pre>
<p>tools
<script>
run();
</script>
";

/// The names of the nodes; no name has more than 1,024 bytes.
fn names_of(rt: &impl Abort, alloc: Global, texts: &[&[u8]]) -> Vec<NodeName> {
    let mut names = Vec::new(alloc);
    for text in texts {
        expect(rt, text.len() <= NAME_LIMIT);
        let text = text.to_vec(alloc).expect(rt, "memory for a name");
        names.push(NodeName { text }).expect(rt, "memory for names");
    }
    names
}

/// Draws the routes in a page with these names. Returns what was drawn, the page, and what was reported.
fn draw(
    rt: &impl Abort,
    alloc: Global,
    texts: &[&[u8]],
) -> (Result<Plotted, Fault>, Vec<u8>, Vec<u8>) {
    let names = names_of(rt, alloc, texts);
    expect(rt, names.len() <= 100_000);
    let mut drawn = ToWrite::new(Vec::new(alloc));
    let mut reported = ToWrite::new(Vec::new(alloc));
    let answer = plot_engine(
        alloc,
        &mut FromRead::new(SHOP),
        &mut FromRead::new(SOLUTION),
        true,
        OutputFormat::Page(PARTS, NodeNames { list: &names }),
        &mut drawn,
        &mut reported,
    );
    (answer, drawn.inner, reported.inner)
}

#[test]
fn draws_routes_in_a_page(rt: HostRuntime) {
    let (answer, page, reported) = draw(&rt, rt.alloc(), &[b"Emma & Co", b"Shop", b"<b>"]);
    let valid = RouteVerdict::Valid { routes: 2, cost: 6 };
    expect(&rt, answer == Ok(Plotted::Routes(valid)));
    expect_bytes(&rt, &page, PAGE);
    expect(&rt, reported.is_empty());
}

#[test]
fn rejects_names_of_other_nodes(rt: HostRuntime) {
    let (answer, page, reported) = draw(&rt, rt.alloc(), &[b"Emma & Co", b"Shop"]);
    expect(&rt, answer == Err(Fault::WrongNames(3)));
    expect(&rt, page.is_empty() && reported.is_empty());
}
