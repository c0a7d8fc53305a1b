//! Files that the program prints as they are. `packaging/embed` writes this module from them.

/// The file `page/head.html`.
pub static HEAD: &[u8] = br#"<!DOCTYPE html>
<html lang="en">
<head>
<meta charset="utf-8">
<meta name="viewport" content="width=device-width, initial-scale=1">
<meta http-equiv="Content-Security-Policy" content="default-src 'none'; style-src 'sha256-Bv0KUo0n9DROO1YUM6wefaDN1/Qu5OX1ij+z5QTrKcI='; script-src 'sha256-v5eEdkUXJ2t+TyxtgVVUfSNGX+K9l66tZ6NkBIrY8zk='">
<style>
"#;

/// The file `page/page.css`.
pub static STYLE: &[u8] =
    br#"/* The page of `tourkit plot --html`. The script sets --scale (picture units per pixel), and --line and --dot (the widths of lines and
   cities, in pixels). */
:root {
    color-scheme: light dark;
    --paper: #fff; --ink: #1b1b1b; --soft: #595959; --edge: #c4c4c4; --focus: #0b57d0; --chosen: #dce8fb; --mark: #d0006f;
}
@media screen and (prefers-color-scheme: dark) {
    :root { --paper: #141414; --ink: #ebebeb; --soft: #a8a8a8; --edge: #474747; --focus: #8ab4f8; --chosen: #26344a; --mark: #ff5fae; }
    /* The picture is drawn on white: dark becomes light, and hues are preserved. White becomes the colour of the page. */
    #stage svg, .swatch { filter: invert(.92) hue-rotate(180deg); }
}

* { box-sizing: border-box; }
body {
    margin: 0 auto; padding: .75rem; max-width: 110rem; background: var(--paper); color: var(--ink);
    font: 1rem/1.4 system-ui, sans-serif;
}
h1 { margin: 0; font-size: 1.3rem; overflow-wrap: anywhere; }
.framed h1 { display: none; }
p { margin: .2rem 0 .5rem; }
:focus-visible { outline: 3px solid var(--focus); outline-offset: 1px; }
button, input { font: inherit; color: inherit; background: var(--paper); border: 1px solid var(--edge); border-radius: .3rem; }
[hidden] { display: none !important; }

/* ---- the picture: without the script, as wide as the page; with it (.live), a view that can be zoomed and panned */
#stage { position: relative; overflow: hidden; border: 1px solid var(--edge); border-radius: .3rem; }
#stage svg { display: block; width: 100%; height: auto; max-height: 85vh; }
#stage.live { height: clamp(16rem, 72vh, 70rem); touch-action: pan-x pan-y; cursor: grab; -webkit-user-select: none; user-select: none; }
#stage.live:active { cursor: grabbing; }
#stage.zoomed { touch-action: none; }
#stage.live svg { height: 100%; max-height: none; transform-origin: 0 0; }
/* A heavy picture extends beyond the edges by half the size of the stage, so that it can be panned before it is redrawn. */
#stage.heavy svg { position: absolute; inset: -50%; width: 200%; height: 200%; transform-origin: 25% 25%; will-change: transform; }

/* A unit of the group is a tenth of a picture unit. */
.live svg > g { stroke-width: calc(var(--line) * 10px * var(--scale)); }
.live .depot-lines { stroke-width: calc(.5 * var(--line) * 10px * var(--scale)); }
.bare .depot-lines { display: none; }
.live svg path[stroke="black"] { stroke-width: calc(var(--dot) * 10px * var(--scale)); }
/* Squares are drawn faster than discs, and look like them when they are small. */
.live .fine path[stroke="black"] { stroke-linecap: square; }
.live svg path[fill="black"] { stroke: black; stroke-linecap: square; stroke-width: calc(110px * var(--scale)); }
.live svg g text { font-size: calc(130px * var(--scale)); stroke: white; stroke-width: calc(35px * var(--scale)); paint-order: stroke; }
.live .crowded g text:not(.chosen) { display: none; }
.faded polygon:not(#lit), .faded polyline, .faded path[stroke="black"]:not(#stops) { stroke-opacity: .2; }
.faded .depot-lines polyline { stroke-opacity: .1; }
.faded g text:not(.chosen) { opacity: .2; }
.live svg #lit { stroke-width: calc((var(--line) + 1.5) * 10px * var(--scale)); }
/* Next to another tour or solution: the legs that the other does not have, over those that both have. */
.live svg #differing { stroke: #d0006f; stroke-width: calc((var(--line) + 1) * 10px * var(--scale)); }
.compared polygon:not(#lit), .compared polyline { stroke-opacity: .25; }
.faded #differing { stroke-opacity: .2; }

#mark {
    position: absolute; left: 0; top: 0; width: 20px; height: 20px; margin: -10px; pointer-events: none;
    border: 4px solid var(--mark); border-radius: 50%; opacity: .7;
}
#tip {
    position: absolute; max-width: min(20rem, 90%); padding: .2rem .5rem; pointer-events: none; white-space: pre-line;
    background: var(--paper); border: 1px solid var(--soft); border-radius: .3rem; font-size: .9rem;
}

/* ---- the elements around the picture */
#tools { display: flex; flex-wrap: wrap; gap: .4rem; margin-bottom: .5rem; align-items: center; }
#tools button { min-width: 2.4rem; min-height: 2.4rem; padding: 0 .6rem; cursor: pointer; white-space: nowrap; }
#tools [aria-pressed=true] { background: var(--chosen); }
#tools input { width: 6.5rem; min-height: 2.4rem; padding: 0 .4rem; }
#tools input::placeholder { color: transparent; }
#where { min-height: 1.4em; }
.help { color: var(--soft); font-size: .85rem; }

/* ---- the table */
#routes { position: relative; margin-top: .75rem; overflow: auto; }
table { border-collapse: collapse; font-size: .95rem; font-variant-numeric: tabular-nums; }
caption { text-align: left; font-weight: 600; padding-bottom: .3rem; }
th, td { padding: 0 .5rem; text-align: right; border-bottom: 1px solid var(--edge); font-weight: normal; }
thead th { position: sticky; top: 0; padding: 0; background: var(--paper); vertical-align: bottom; }
th button { border-color: transparent; padding: .1rem .3rem; min-height: 1.9rem; text-align: right; cursor: pointer; }
thead th button { padding: .1rem .5rem; width: min-content; }
thead th button::before { content: "\25b2" / ""; display: block; visibility: hidden; font-size: .7rem; line-height: 1; }
thead th[aria-sort] button::before { visibility: visible; }
thead th[aria-sort=descending] button::before { content: "\25bc" / ""; }
tbody th { padding-left: 0; }
tbody th button { background: none; }
tbody tr:hover, tbody tr:has([aria-pressed=true]) { background: var(--chosen); }
#routes .stops { background: none; }
.stops > td { padding: 0 0 .5rem 1.5rem; }
.stops table { width: 100%; }
.named th, .named th button { text-align: left; overflow-wrap: anywhere; }
.stops thead th { position: static; padding: 0 .5rem; color: var(--soft); }
.swatch { display: inline-block; width: 1.4rem; height: .5rem; margin-right: .5rem; vertical-align: middle; background: var(--colour); }

/* If there is room, the table is next to the picture. */
@media screen and (min-width: 62rem) {
    body:has(#routes) {
        display: grid; grid-template: auto auto auto auto 1fr / minmax(0, 1fr) auto; column-gap: 1rem; align-items: start;
    }
    body > * { grid-column: 1; }
    body > #routes { grid-column: 2; grid-row: 1 / -1; margin: 0; max-height: calc(100vh - 1.5rem); }
}
@media (max-width: 30rem) {
    body { padding: .4rem; }
    /* All buttons are in one row. The input takes the room that is left, and its label is only for screen readers. */
    #tools { flex-wrap: nowrap; gap: .25rem; }
    #tools button { min-width: 2.1rem; padding: 0 .3rem; }
    #tools label { flex: 1 1 3rem; min-width: 2.5rem; }
    #tools label span { position: absolute; clip-path: inset(50%); }
    #tools input { width: 100%; padding: 0 .3rem; appearance: textfield; }
    #tools input::-webkit-inner-spin-button { display: none; }
    #tools input::placeholder { color: var(--soft); opacity: 1; }
    th, td { padding: 0 .25rem; font-size: .9rem; }
    thead th button { padding: .1rem .25rem; }
    #stage.live { height: clamp(14rem, 60vh, 40rem); }
}

@media print {
    #tools, #below, #tip, #mark, .help { display: none; }
    body { padding: 0; max-width: none; }
    #stage, #stage.live { height: auto; border: 0; break-inside: avoid; }
    #stage.live svg { position: static; width: 100%; height: auto; max-height: 22cm; }
    #routes { overflow: visible; }
    table { font-size: 9pt; }
    caption { break-after: avoid; }
    thead { display: table-header-group; }
    thead th { position: static; }
    th button { min-height: 0; padding: 0; }
    thead th { padding: 0 .5rem; }
    thead th button { display: contents; }        /* a button is not repeated on the next sheet */
    tr { break-inside: avoid; }
    .swatch { print-color-adjust: exact; -webkit-print-color-adjust: exact; }
}
"#;

/// The file `page/tools.html`.
pub static TOOLS: &[u8] =
    br#"<noscript><p class="help">Zooming, city numbers and sorting need JavaScript, which is turned off.</p></noscript>
<template id="parts">
<div id="tools">
<button type="button" data-do="in" aria-label="Zoom in">+</button>
<button type="button" data-do="out" aria-label="Zoom out">&minus;</button>
<button type="button" data-do="whole">Whole</button>
<label><span>City</span> <input id="number" type="number" min="1" inputmode="numeric" placeholder="City"></label>
<button type="button" data-do="before" aria-label="Previous city">&#9664;</button>
<button type="button" data-do="next" aria-label="Next city">&#9654;</button>
<button type="button" data-do="depot" aria-pressed="true">Depot lines</button>
</div>
<div id="below">
<p id="where" role="status"></p>
<p class="help" id="keys">Drag to move, turn the wheel or pinch to zoom, point at a city for its number. Keys in the picture: arrows move,
+ and &minus; zoom, 0 shows the whole, N and P go to the next and the previous city, Enter highlights its route, Escape clears both.</p>
</div>
</template>
"#;

/// The file `page/page.js`.
pub static SCRIPT: &[u8] =
    br#"// The page of `tourkit plot --html`: zoom and pan, the city at the pointer, and the table of routes.
//
// The program writes the data. #stage contains the picture, #routes the table, and three blocks contain numbers:
//     #cities    line c is city c: <across>,<down> <x> <y> [<demand> [depot]], with x and y in units of 10^-9
//     #paths     line k has the cities of the k-th closed line of the picture, which is the k-th row of the table
//     #legs      only with a table: line k has the number of that route, and the lengths of its legs
// With --names, #names contains the names of the cities, one on each line.
// There are three kinds of coordinates: <across> and <down>, as in the lines of the picture; units of the picture's viewBox; and
// pixels from the top left corner of the stage.
'use strict';
(() => {
const REACH = 14;               // pixels: the distance from the pointer within which a city is found
const ROOM = 45;                // pixels: the space that the number of a route needs on each side
const TITLE = 60;               // units above the cities: the title of the picture, which the page shows as its heading
const MARGIN = 20;              // units around the cities
const ABOVE = 20;               // units above them that the numbers of routes need
const CLOSEST = 0.004;          // the minimum number of units per pixel
const STEP = 80;                // pixels by which an arrow key pans
const HEAVY = 5000;             // from this number of cities on, the picture is redrawn only when a movement pauses
const REST = 150;               // milliseconds of such a pause
const FEW = 2000;               // a picture without points shows those in view, if there are at most this many
const ON_PAPER = 1.4;           // units per pixel when the page is printed
const SPOTS = 10000;            // the maximum of <across> and <down>

const byId = id => document.getElementById(id);
const clamp = (low, value, high) => Math.max(low, Math.min(high, value));

// ---- the data of the program

const stage = byId('stage'), svg = stage.querySelector('svg'), group = svg.querySelector('g');
svg.querySelector('.halo')?.remove();                           // the style of the page gives the numbers a halo that keeps its width
const lines = [...group.querySelectorAll(':scope > polygon, :scope > polyline')], routeNumbers = [...group.querySelectorAll('text')];
const depotLines = group.querySelector('.depot-lines');         // null if the lines of a route are not parted
const table = document.querySelector('#routes table');          // null without routes

function linesOf(id) {
    const text = byId(id).textContent.trim();
    return text === '' ? [] : text.split('\n');
}

const cities = linesOf('cities'), count = cities.length;
const across = new Int32Array(count + 1), down = new Int32Array(count + 1);
let depot = 0;                                                  // 0 if there is none
cities.forEach((line, index) => {
    across[index + 1] = parseInt(line, 10);
    down[index + 1] = parseInt(line.slice(line.indexOf(',') + 1), 10);
    if (line.endsWith('depot')) depot = index + 1;
});

const names = byId('names')?.textContent.split('\n') ?? [];      // empty if the cities have no names
const nameOf = city => names[city - 1] ?? '';

const paths = linesOf('paths').map(line => line.split(' ').map(Number));
const pathOf = new Int32Array(count + 1).fill(-1), stopOf = new Int32Array(count + 1);
paths.forEach((path, k) => path.forEach((city, stop) => {
    if (city !== depot) { pathOf[city] = k; stopOf[city] = stop; }
}));

// The cities in the order of the keys N and P: along the lines, or by number if there are none. The depot occurs once.
const walk = paths.length === 0 ? cities.map((_, index) => index + 1) : paths.flat().filter((city, i) => city !== depot || i === 0);
const turnOf = new Int32Array(count + 1);
walk.forEach((city, turn) => { turnOf[city] = turn; });

// ---- elements that are added to the page

function element(kind, attributes, space = 'http://www.w3.org/1999/xhtml') {
    const made = document.createElementNS(space, kind);
    for (const [name, value] of Object.entries(attributes)) made.setAttribute(name, value);
    return made;
}

const drawing = (kind, attributes) => element(kind, attributes, 'http://www.w3.org/2000/svg');

// A copy of the highlighted route, above the other lines.
const lit = drawing('polygon', { id: 'lit', points: '' });
if (lines.length > 0) lines.at(-1).after(lit);

// The points in view, for a picture without points.
const dots = group.querySelector('path[stroke="black"]');
const nearDots = dots !== null ? null : drawing('path', { stroke: 'black', d: '' });
if (nearDots !== null) lit.after(nearDots);

// The stops of the highlighted route, above the other points.
const litStops = drawing('path', { id: 'stops', stroke: 'black', d: '' });
(dots ?? nearDots).after(litStops);

// The mark and the tip are above the picture, not in it, so that the picture is not redrawn when they move.
const mark = element('div', { id: 'mark', hidden: '' }), tip = element('div', { id: 'tip', hidden: '', 'aria-hidden': 'true' });

function prepareStage() {
    const title = svg.querySelector('title');
    svg.setAttribute('role', 'img');
    svg.setAttribute('aria-label', title.textContent);
    title.remove();                                             // a browser would show it at the pointer
    for (const text of svg.querySelectorAll(':scope > text')) text.remove();

    // The numbers and the depot keep their size on the screen. For this, the depot becomes a line of length 0 with square ends.
    const square = group.querySelector('path[fill="black"]');
    if (square !== null) square.setAttribute('d', square.getAttribute('d').replace(/m.*/, 'h0'));

    const parts = byId('parts').content;
    if (depotLines === null) parts.querySelector('[data-do=depot]').remove();
    stage.after(parts.getElementById('below'));
    stage.before(parts);
    stage.append(mark, tip);
    for (const [name, value] of Object.entries({ tabindex: 0, role: 'application', 'aria-label': 'Picture', 'aria-describedby': 'keys' }))
        stage.setAttribute(name, value);
    stage.classList.add('live');
    stage.classList.toggle('heavy', count >= HEAVY);
}

prepareStage();
const asked = byId('number'), status = byId('where');
asked.max = count;

// ---- a grid that finds the cities in a box

const cells = clamp(1, Math.ceil(Math.sqrt(count / 2)), 256);    // in each direction
const lane = place => clamp(0, Math.floor(place * cells / (SPOTS + 1)), cells - 1);
const cellOf = city => lane(down[city]) * cells + lane(across[city]);
const starts = new Int32Array(cells * cells + 1), byCell = new Int32Array(count);

// Sorts the cities by their cells; those of a cell begin at its index in starts.
function fillGrid() {
    for (let city = 1; city <= count; city++) starts[cellOf(city) + 1]++;
    for (let cell = 0; cell < cells * cells; cell++) starts[cell + 1] += starts[cell];
    const next = starts.slice();
    for (let city = 1; city <= count; city++) byCell[next[cellOf(city)]++] = city;
}

fillGrid();

function citiesIn(left, top, right, bottom) {
    const found = [];
    for (let row = lane(top); row <= lane(bottom); row++) {
        const end = starts[row * cells + lane(right) + 1];
        for (let i = starts[row * cells + lane(left)]; i < end; i++) {
            const city = byCell[i];
            if (across[city] >= left && across[city] <= right && down[city] >= top && down[city] <= bottom) found.push(city);
        }
    }
    return found;
}

// The nearest city within a distance, with ties broken by number; 0 if there is none.
function nearest(x, y, reach) {
    let best = 0, least = reach * reach;
    for (const city of citiesIn(x - reach, y - reach, x + reach, y + reach)) {
        const far = (across[city] - x) ** 2 + (down[city] - y) ** 2;
        if (far < least || (far === least && (best === 0 || city < best))) { best = city; least = far; }
    }
    return best;
}

// ---- the view: its top left corner, and the units per pixel

const [originX, originY, unit] = group.getAttribute('transform').match(/[-\d.]+/g).map(Number);
const [, , pictureWidth, pictureHeight] = svg.getAttribute('viewBox').split(' ').map(Number);
const top = TITLE - MARGIN - (routeNumbers.length > 0 ? ABOVE : 0);
const whole = { x: 0, y: top, width: pictureWidth, height: pictureHeight - top };
let view = { x: 0, y: 0, scale: 1 };
let drawn = view;               // the view when the picture was last drawn
let isWhole = true;             // whether the view follows the size of the stage
let resting = 0;                // the timer of a pause
let width = 1, height = 1;      // of the stage, in pixels

const wholeScale = () => Math.max(whole.width / width, whole.height / height);
const toSpot = (x, y) => [(view.x + x * view.scale - originX) / unit, (view.y + y * view.scale - originY) / unit];
const toPixels = city => [
    (across[city] * unit + originX - view.x) / view.scale,
    (down[city] * unit + originY - view.y) / view.scale,
];

function draw() {
    clearTimeout(resting);
    drawn = view;
    svg.style.transform = '';
    const edge = count < HEAVY ? 0 : 0.5;                       // the part beyond each edge that is drawn, relative to the stage
    const wide = width * view.scale, high = height * view.scale;
    svg.setAttribute('viewBox', [view.x - edge * wide, view.y - edge * high, (1 + 2 * edge) * wide, (1 + 2 * edge) * high].join(' '));
    setWidths(view.scale);
    if (nearDots !== null) drawNearDots();
}

// Lines, points and numbers keep their size on the screen, but lines and points are thinner if there is little room.
function setWidths(scale) {
    const side = SPOTS * unit / scale, apart = side / Math.sqrt(count), dot = clamp(1.2, 0.2 * apart, 5);
    svg.style.setProperty('--scale', scale);
    svg.style.setProperty('--line', clamp(0.6, 0.08 * apart, count < HEAVY ? 1.5 : 1));       // up to one pixel, browsers draw faster
    svg.style.setProperty('--dot', dot);
    svg.classList.toggle('fine', dot < 2);
    svg.classList.toggle('crowded', side / Math.sqrt(lines.length) < ROOM);
}

const spotOf = city => `${across[city]},${down[city]}`;
const dotsOf = found => found.map(city => `M${spotOf(city)}h0`).join('');

function drawNearDots() {
    const expected = count * width * height * (view.scale / (SPOTS * unit)) ** 2;
    const found = expected > 4 * FEW ? [] : citiesIn(...toSpot(0, 0), ...toSpot(width, height));
    nearDots.setAttribute('d', found.length > FEW ? '' : dotsOf(found));
}

// Moves and scales a heavy picture as it was drawn, until the movement pauses.
function drawWhenResting() {
    const [x, y] = [(drawn.x - view.x) / view.scale, (drawn.y - view.y) / view.scale];
    svg.style.transform = `translate(${x}px, ${y}px) scale(${drawn.scale / view.scale})`;
    clearTimeout(resting);
    resting = setTimeout(draw, REST);
}

const isZoomed = () => view.scale < 0.999 * wholeScale();

// Follows a change of the view: places the tip, and decides what a finger moves.
function follow() {
    placeTip();
    stage.classList.toggle('zoomed', isZoomed());
    announce('view', isWhole ? null : { x: view.x + width * view.scale / 2, y: view.y + height * view.scale / 2, scale: view.scale });
}

// Sets the view, and keeps its centre within the picture.
function moveTo(x, y, scale) {
    isWhole = false;
    const [middleX, middleY] = [width * scale / 2, height * scale / 2];
    view = {
        x: clamp(whole.x - middleX, x, whole.x + whole.width - middleX),
        y: clamp(whole.y - middleY, y, whole.y + whole.height - middleY),
        scale,
    };
    if (count < HEAVY) draw(); else drawWhenResting();
    follow();
}

const moveBy = (x, y) => moveTo(view.x - x * view.scale, view.y - y * view.scale, view.scale);

// Zooms so that the point at a pixel stays there.
function zoomAt(x, y, factor) {
    const scale = clamp(CLOSEST, view.scale * factor, 1.5 * wholeScale());
    moveTo(view.x + x * (view.scale - scale), view.y + y * (view.scale - scale), scale);
}

function showWhole() {
    const scale = wholeScale();
    view = { x: whole.x + (whole.width - width * scale) / 2, y: whole.y + (whole.height - height * scale) / 2, scale };
    isWhole = true;
    draw();
    follow();
}

function measure() {
    width = Math.max(1, stage.clientWidth);
    height = Math.max(1, stage.clientHeight);
    if (isWhole) showWhole(); else { draw(); follow(); }
}

// ---- the selected city

let shown = 0;                  // 0 if there is none

// Converts units of 10^-9 into a decimal number. It may have more digits than a JavaScript number, so it remains a text.
function decimal(units) {
    const sign = units.startsWith('-') ? '\u2212' : '';
    const digits = units.replace('-', '').padStart(10, '0');
    const fraction = digits.slice(-9).replace(/0+$/, '');
    return sign + digits.slice(0, -9) + (fraction === '' ? '' : '.' + fraction);
}

const customerOf = city => city > depot ? city - 1 : city;     // as solutions number them

function roleOf(city) {
    if (city === depot) return ', the depot';
    return depot === 0 ? '' : `, customer ${customerOf(city)}`;
}

function placeOnLine(city) {
    const k = pathOf[city];
    if (k < 0) return [];
    if (table === null) return [`position ${stopOf[city] + 1} of ${count} in the tour`];
    return [`route ${rows[k].name}, stop ${stopOf[city]} of ${paths[k].length - 1}`];
}

function wordsOf(city) {
    const [, x, y, demand] = cities[city - 1].split(' ');
    const words = [`City ${city}${roleOf(city)}`, `at (${decimal(x)}, ${decimal(y)})`];
    if (nameOf(city) !== '') words.unshift(nameOf(city));
    if (demand !== undefined && city !== depot) words.push(`demand ${demand}`);
    words.push(...placeOnLine(city));
    const others = citiesIn(across[city], down[city], across[city], down[city]).length - 1;
    if (others > 0) words.push(`and ${others} more at this point of the picture`);
    return words;
}

function placeTip() {
    tip.hidden = mark.hidden = shown === 0;
    if (shown === 0) return;
    const [x, y] = toPixels(shown);
    mark.style.translate = `${x}px ${y}px`;
    tip.style.left = x < width / 2 ? `${x + REACH}px` : '';
    tip.style.right = x < width / 2 ? '' : `${width - x + REACH}px`;
    tip.style.top = y < height / 2 ? `${y + REACH}px` : '';
    tip.style.bottom = y < height / 2 ? '' : `${height - y + REACH}px`;
}

function show(city) {
    if (city === shown) return;
    shown = city;
    if (city > 0) tip.textContent = wordsOf(city).join('\n');
    placeTip();
    announce('city', city);
}

// Shows a city that was selected by keys: moves the view to it, and announces it.
function goTo(city) {
    show(city);
    const [x, y] = toPixels(city);
    if (x < MARGIN || y < MARGIN || x > width - MARGIN || y > height - MARGIN) moveBy(width / 2 - x, height / 2 - y);
    status.textContent = wordsOf(city).join(', ');
    asked.value = city;
}

function step(by) {
    const turn = shown > 0 ? turnOf[shown] + by : Math.min(by, 0);        // from none to the first, or to the last
    goTo(walk.at(turn % walk.length));
}

// ---- the highlighted route

let kept = -1;                  // the route that stays highlighted when the pointer leaves its row; -1 if none

function light(k) {
    svg.classList.toggle('faded', k >= 0);
    const path = k < 0 ? [] : paths[k];
    lit.setAttribute('points', path.map(spotOf).join(' '));
    if (k >= 0) lit.setAttribute('stroke', lines[k].getAttribute('stroke'));
    litStops.setAttribute('d', dotsOf(path.filter(city => city !== depot)));
    routeNumbers.forEach((text, i) => text.classList.toggle('chosen', i === k));
}

function keep(k) {
    kept = k;
    light(k);
    if (k !== opened) closeStops();
    rows.forEach((row, i) => row.button.setAttribute('aria-pressed', i === k));
    if (k < 0) return;
    const [, customers, load, share, length] = rows[k].values;
    status.textContent = `Route ${rows[k].name}: ${customers} customers, load ${load} (${share} %), length ${length}`;
}

// Highlights the route of a city, or ends the highlighting.
function keepOf(city) {
    if (table === null) return;
    keep(city > 0 && pathOf[city] !== kept ? pathOf[city] : -1);
    if (kept >= 0) scrollToRow(rows[kept].line);
}

// Scrolls the table to a row if the table is next to the picture. The page itself is not scrolled.
function scrollToRow(line) {
    const list = byId('routes'), top = line.offsetTop - list.scrollTop;
    if (top < 0 || top > list.clientHeight - line.offsetHeight) list.scrollTop = line.offsetTop - list.clientHeight / 2;
}

// ---- the stops of a route, in a list below its row

let opened = -1;                // the route whose stops are listed; -1 if there is none
const stops = element('tr', { class: 'stops' });

function closeStops() {
    if (opened >= 0) rows[opened].button.setAttribute('aria-expanded', 'false');
    opened = -1;
    stops.remove();
}

function openStops(k) {
    const cell = element('td', { colspan: 5 });
    cell.append(listOf(k));
    stops.replaceChildren(cell);
    rows[k].line.after(stops);
    rows[k].button.setAttribute('aria-expanded', 'true');
    opened = k;
}

// Opens the list of a route, and highlights the route, or ends both.
function toggleStops(k) {
    const closes = opened === k;
    keep(closes ? -1 : k);
    if (!closes) openStops(k);
}

// A line of a list. Its first cell is its heading, or all cells are headings of their columns.
function lineOf(scope, [first, ...others]) {
    const line = element('tr', {});
    for (const [kind, scoped, content] of [['th', scope, first], ...others.map(one => [scope === 'col' ? 'th' : 'td', scope, one])]) {
        const cell = element(kind, kind === 'th' ? { scope: scoped } : {});
        cell.append(content);
        line.append(cell);
    }
    return line;
}

// The customers of a route in order, with their demands, the load after each, and the length of the leg to it.
function listOf(k) {
    const list = element('table', names.length > 0 ? { class: 'named' } : {}), head = element('thead', {}), body = element('tbody', {});
    const legs = linesOf('legs')[k].split(' ').slice(1), buttons = [];
    let load = 0;
    head.append(lineOf('col', ['Customer', 'Demand', 'Load after', 'Leg']));
    for (const [stop, city] of paths[k].slice(1).entries()) {
        const demand = Number(cities[city - 1].split(' ')[3]), button = element('button', { type: 'button', tabindex: stop === 0 ? 0 : -1 });
        load += demand;
        button.append(nameOf(city) || customerOf(city));
        button.addEventListener('click', () => { goTo(city); stage.scrollIntoView({ block: 'nearest' }); });
        buttons.push(button);
        body.append(lineOf('row', [button, demand, load, legs[stop]]));
    }
    body.append(lineOf('row', [nameOf(depot) || 'Depot', '', '', legs.at(-1)]));
    list.append(head, body);
    roam(body, () => buttons);
    return list;
}

// Tab stops at only one of some buttons, the one that had the focus last; arrow keys go to the others.
function roam(body, listed) {
    body.addEventListener('focusin', event => {
        if (listed().includes(event.target)) for (const button of listed()) button.setAttribute('tabindex', button === event.target ? 0 : -1);
    });
    body.addEventListener('keydown', event => {
        const buttons = listed(), from = buttons.indexOf(document.activeElement);
        const to = { ArrowDown: from + 1, ArrowUp: from - 1, Home: 0, End: buttons.length - 1 }[event.key];
        if (from < 0 || buttons[to] === undefined) return;
        event.preventDefault();
        buttons[to].focus();
    });
}

// ---- the table

const rows = table === null ? [] : [...table.tBodies[0].rows].map(prepareRow);
let listed = rows.slice();      // in the order of the table

function prepareRow(line, k) {
    const head = line.cells[0], name = head.textContent.trim();
    const values = [...line.cells].map(cell => parseInt(cell.textContent, 10));
    const swatch = element('span', { class: 'swatch' });
    swatch.style.setProperty('--colour', lines[k].getAttribute('stroke'));
    const button = element('button', { type: 'button', 'aria-pressed': 'false', 'aria-expanded': 'false', tabindex: k === 0 ? 0 : -1 });
    button.append(swatch, name);
    head.replaceChildren(button);
    button.addEventListener('click', () => toggleStops(k));
    line.addEventListener('pointerenter', () => light(k));
    line.addEventListener('pointerleave', () => light(kept));
    return { name, line, button, values };
}

function prepareHeading(head, column) {
    const button = element('button', { type: 'button' });
    button.append(head.textContent.trim());
    head.replaceChildren(button);
    button.addEventListener('click', () => sortBy(column, head));
}

function sortBy(column, head) {
    const falls = head.getAttribute('aria-sort') === 'ascending';
    for (const other of table.tHead.rows[0].cells) other.removeAttribute('aria-sort');
    head.setAttribute('aria-sort', falls ? 'descending' : 'ascending');
    listed = rows.slice().sort((a, b) => (falls ? -1 : 1) * (a.values[column] - b.values[column]));
    table.tBodies[0].append(...listed.map(row => row.line));
    if (opened >= 0) rows[opened].line.after(stops);
}

if (table !== null) {
    [...table.tHead.rows[0].cells].forEach(prepareHeading);
    table.tHead.rows[0].cells[0].setAttribute('aria-sort', 'ascending');
    roam(table.tBodies[0], () => listed.map(row => row.button));
}

// ---- keys and buttons

// Zooms at the selected city if it is in view, otherwise at the centre.
function zoom(factor) {
    const [x, y] = shown > 0 ? toPixels(shown) : [-1, -1];
    if (x >= 0 && y >= 0 && x <= width && y <= height) zoomAt(x, y, factor); else zoomAt(width / 2, height / 2, factor);
}

function endAll() {
    show(0);
    keep(-1);
    status.textContent = '';
}

// Hides the lines to and from the depot, or shows them again. A highlighted route keeps its own.
function switchDepotLines() {
    const button = document.querySelector('[data-do=depot]');
    button.setAttribute('aria-pressed', !svg.classList.toggle('bare'));
}

const deeds = {
    in: () => zoom(1 / 1.5), out: () => zoom(1.5), whole: showWhole,
    left: () => moveBy(STEP, 0), right: () => moveBy(-STEP, 0), up: () => moveBy(0, STEP), down: () => moveBy(0, -STEP),
    next: () => step(1), before: () => step(-1), light: () => keepOf(shown), depot: switchDepotLines,
};
const deedOfKey = {
    '+': 'in', '=': 'in', '-': 'out', '\u2212': 'out', 0: 'whole', Home: 'whole',
    ArrowLeft: 'left', ArrowRight: 'right', ArrowUp: 'up', ArrowDown: 'down',
    n: 'next', p: 'before', Enter: 'light',
};

stage.addEventListener('keydown', event => {
    const deed = deedOfKey[event.key.length === 1 ? event.key.toLowerCase() : event.key];
    if (deed === undefined || event.ctrlKey || event.metaKey || event.altKey) return;
    event.preventDefault();
    deeds[deed]();
});
document.addEventListener('keydown', event => { if (event.key === 'Escape') endAll(); });
byId('tools').addEventListener('click', event => {
    const button = event.target.closest('button');
    if (button !== null) deeds[button.dataset.do]();
});
asked.addEventListener('change', () => {
    const city = Number(asked.value);
    if (Number.isInteger(city) && city >= 1 && city <= count) goTo(city); else status.textContent = `Cities are numbered 1 to ${count}.`;
});

// ---- pointers: a mouse, a pen, or fingers

const held = new Map();         // the last position of each pointer that is down
let strayed = 0;                // the distance that they have moved since

function pixelsOf(event) {
    const box = stage.getBoundingClientRect();
    return [event.clientX - box.left - stage.clientLeft, event.clientY - box.top - stage.clientTop];
}

// While the whole picture is shown, a finger moves the page, which the browser does.
const movesPage = event => event.pointerType === 'touch' && !isZoomed();

const cityAt = event => nearest(...toSpot(...pixelsOf(event)), REACH * view.scale / unit);

// If one of two fingers moves, the picture pans by half of its movement, and zooms about the point between the fingers.
function pinch(from, to, other) {
    const before = Math.hypot(from[0] - other[0], from[1] - other[1]), after = Math.hypot(to[0] - other[0], to[1] - other[1]);
    moveBy((to[0] - from[0]) / 2, (to[1] - from[1]) / 2);
    if (before > 0 && after > 0) zoomAt((to[0] + other[0]) / 2, (to[1] + other[1]) / 2, before / after);
}

stage.addEventListener('pointerdown', event => {
    if (event.button !== 0) return;
    stage.setPointerCapture(event.pointerId);
    if (held.size === 0) strayed = 0;
    held.set(event.pointerId, pixelsOf(event));
});
stage.addEventListener('pointermove', event => {
    const from = held.get(event.pointerId), to = pixelsOf(event);
    if (from === undefined) { show(cityAt(event)); return; }
    strayed += Math.abs(to[0] - from[0]) + Math.abs(to[1] - from[1]);
    held.set(event.pointerId, to);
    const others = [...held.keys()].filter(id => id !== event.pointerId);
    if (others.length === 1) pinch(from, to, held.get(others[0]));
    else if (others.length === 0 && strayed > 4 && !movesPage(event)) moveBy(to[0] - from[0], to[1] - from[1]);
});
stage.addEventListener('pointerup', event => {
    if (!held.delete(event.pointerId) || held.size > 0 || strayed > 4) return;
    show(cityAt(event));
    keepOf(shown);
});
stage.addEventListener('pointercancel', event => { held.delete(event.pointerId); strayed = Infinity; });
stage.addEventListener('pointerleave', event => { if (event.pointerType === 'mouse' && held.size === 0) show(0); });
stage.addEventListener('wheel', event => {
    event.preventDefault();
    const lines = event.deltaMode === WheelEvent.DOM_DELTA_LINE;
    const turned = clamp(-200, event.deltaY * (lines ? 30 : 1) * (event.ctrlKey ? 7 : 1), 200);     // Ctrl: two fingers on a touchpad
    zoomAt(...pixelsOf(event), Math.exp(turned * 0.0015));
}, { passive: false });

// ---- the page of another tour or solution next to this one

let isLed = false;              // whether the other page makes the change

// Announces the centre and the scale of the view, which are null for the whole picture, or the selected city.
function announce(kind, detail) {
    if (!isLed) stage.dispatchEvent(new CustomEvent(kind, { detail }));
}

function followOther(kind, change) {
    stage.addEventListener(`other-${kind}`, event => {
        isLed = true;
        change(event.detail);
        isLed = false;
    });
}

followOther('city', show);
followOther('view', other => {
    if (other === null) showWhole(); else moveTo(other.x - width * other.scale / 2, other.y - height * other.scale / 2, other.scale);
});

// ---- resizing and printing

new ResizeObserver(measure).observe(stage);
measure();
addEventListener('beforeprint', () => {
    svg.setAttribute('viewBox', `${whole.x} ${whole.y} ${whole.width} ${whole.height}`);
    svg.style.transform = '';
    setWidths(ON_PAPER);
});
addEventListener('afterprint', draw);
})();
"#;
