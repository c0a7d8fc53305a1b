//! Files that the program prints as they are. `packaging/embed` writes this module from them.

/// The file `page/compare-head.html`.
pub static HEAD: &[u8] = br#"<!DOCTYPE html>
<html lang="en">
<head>
<meta charset="utf-8">
<meta name="viewport" content="width=device-width, initial-scale=1">
<meta http-equiv="Content-Security-Policy" content="default-src 'none'; style-src 'sha256-fxfFeu2mpxTWmz5csxe1GmDqQRNg2MsMKb4gfjlV96o=' 'sha256-Bv0KUo0n9DROO1YUM6wefaDN1/Qu5OX1ij+z5QTrKcI='; script-src 'sha256-eGaEAiYzTfVPB9slab0plYlYK/zoRMbWCpWBYjiCeAQ=' 'sha256-v5eEdkUXJ2t+TyxtgVVUfSNGX+K9l66tZ6NkBIrY8zk='">
<style>
"#;

/// The file `page/compare.css`.
pub static STYLE: &[u8] =
    br#"/* The page of `tourkit plot --html` with two tours or solutions. Each frame contains the page of one of them. */
:root { color-scheme: light dark; --paper: #fff; --ink: #1b1b1b; --edge: #c4c4c4; --focus: #0b57d0; --chosen: #dce8fb; }
@media screen and (prefers-color-scheme: dark) {
    :root { --paper: #141414; --ink: #ebebeb; --edge: #474747; --focus: #8ab4f8; --chosen: #26344a; }
}

* { box-sizing: border-box; }
body {
    display: flex; flex-direction: column; gap: .4rem; height: 100vh; margin: 0; padding: .75rem; background: var(--paper);
    color: var(--ink); font: 1rem/1.4 system-ui, sans-serif;
}
h1 { margin: 0; font-size: 1.3rem; overflow-wrap: anywhere; }
:focus-visible { outline: 3px solid var(--focus); outline-offset: 1px; }
#difference { display: flex; flex-wrap: wrap; gap: .2rem .75rem; align-items: center; margin: 0; }
button {
    min-height: 2.4rem; padding: 0 .6rem; border: 1px solid var(--edge); border-radius: .3rem; background: var(--paper); color: inherit;
    font: inherit; cursor: pointer;
}
[aria-pressed=true] { background: var(--chosen); }

main { display: grid; flex: 1; grid-template-columns: 1fr 1fr; gap: .75rem; min-height: 30rem; }
figure { display: flex; flex-direction: column; min-width: 0; margin: 0; }
figcaption { font-weight: 600; overflow-wrap: anywhere; }
iframe { flex: 1; width: 100%; border: 1px solid var(--edge); border-radius: .3rem; }

/* If there is little room, one is below the other. */
@media (max-width: 48rem) {
    body { height: auto; padding: .4rem; }
    main { grid-template-columns: 1fr; }
    iframe { flex: none; height: 90vh; }
}
@media print {
    body { display: block; height: auto; padding: 0; }
    button { display: none; }
    main { display: block; }
    iframe { flex: none; height: 90vh; border: 0; }
}
"#;

/// The file `page/compare.js`.
pub static SCRIPT: &[u8] =
    br#"// The page of `tourkit plot --html` with two tours or solutions: each frame contains the page of one of them. This script highlights the
// legs of each that the other does not have, and keeps the views of both pictures and the selected city the same.
'use strict';
(() => {
const frames = [...document.querySelectorAll('iframe')];
const difference = document.getElementById('difference');

// The legs of closed lines: pairs of cities, and the pair as a number, the same in both directions.
function legsOf(paths, count) {
    const legs = [];
    for (const path of paths) path.forEach((from, i) => {
        const to = path[(i + 1) % path.length];
        legs.push({ from, to, pair: Math.min(from, to) * (count + 1) + Math.max(from, to) });
    });
    return legs;
}

// What a frame contains: its document, the points of the cities, the legs, and the length or the cost.
function planOf(frame) {
    const page = frame.contentDocument;
    const linesOf = id => page.getElementById(id).textContent.trim().split('\n');
    const points = linesOf('cities').map(line => line.slice(0, line.indexOf(' ')));
    const paths = page.getElementById('paths').textContent.trim() === '' ? [] : linesOf('paths').map(line => line.split(' ').map(Number));
    const [, measure, length] = page.getElementById('verdict').textContent.match(/(length|cost) (\d+)/);
    return { page, points, legs: legsOf(paths, points.length), measure, length: Number(length) };
}

// The legs of a plan that another does not have. A leg that is used twice differs once from one that is used once.
function differingLegs(plan, other) {
    const left = new Map();
    for (const { pair } of other.legs) left.set(pair, (left.get(pair) ?? 0) + 1);
    return plan.legs.filter(({ pair }) => {
        const rest = left.get(pair) ?? 0;
        left.set(pair, rest - 1);
        return rest <= 0;
    });
}

// Draws legs below the highlighted route. Without lines in the picture, there are no legs.
function drawLegs({ page, points }, legs) {
    const lit = page.getElementById('lit');
    if (lit === null) return;
    const path = page.createElementNS('http://www.w3.org/2000/svg', 'path');
    path.setAttribute('id', 'differing');
    path.setAttribute('d', legs.map(({ from, to }) => `M${points[from - 1]}L${points[to - 1]}`).join(''));
    lit.before(path);
}

function wordsOfLengths(first, second) {
    const by = second.length - first.length, costs = first.measure === 'cost';
    if (by === 0) return `Both have the same ${first.measure}.`;
    const share = first.length === 0 ? '' : ` (${(100 * Math.abs(by) / first.length).toFixed(2)} %)`;
    if (costs) return `The second costs ${Math.abs(by)} ${by < 0 ? 'less' : 'more'}${share}.`;
    return `The second is ${Math.abs(by)} ${by < 0 ? 'shorter' : 'longer'}${share}.`;
}

function wordsOfLegs(plans, differing) {
    if (differing.every(legs => legs.length === 0)) return 'They have the same legs.';
    const [first, second] = plans.map((plan, i) => `${differing[i].length} of ${plan.legs.length} legs are only in the ${i === 0 ? 'first' : 'second'}`);
    return `${first}, ${second}.`;
}

// A button that highlights the legs that differ, or shows the plans as each page does by itself.
function switchOf(pictures) {
    const button = document.createElement('button');
    button.type = 'button';
    button.append('Differences');
    button.addEventListener('click', () => turn(button.getAttribute('aria-pressed') !== 'true'));
    function turn(on) {
        button.setAttribute('aria-pressed', on);
        for (const picture of pictures) {
            picture.classList.toggle('compared', on);
            picture.querySelector('#differing')?.setAttribute('visibility', on ? 'visible' : 'hidden');
        }
    }
    turn(true);
    return button;
}

// Repeats in one page what another announces.
function lead(from, to) {
    for (const kind of ['view', 'city'])
        from.addEventListener(kind, event => to.dispatchEvent(new CustomEvent(`other-${kind}`, { detail: event.detail })));
}

function compare() {
    const plans = frames.map(planOf);
    const differing = plans.map((plan, i) => differingLegs(plan, plans[1 - i]));
    const stages = plans.map(plan => plan.page.getElementById('stage'));
    plans.forEach((plan, i) => drawLegs(plan, differing[i]));
    for (const { page } of plans) page.body.classList.add('framed');
    difference.append(switchOf(stages.map(stage => stage.querySelector('svg'))), `${wordsOfLengths(...plans)} ${wordsOfLegs(plans, differing)}`);
    stages.forEach((stage, i) => lead(stage, stages[1 - i]));
}

addEventListener('load', compare);
addEventListener('beforeprint', () => {
    for (const frame of frames) frame.style.height = `${frame.contentDocument.documentElement.scrollHeight}px`;
});
addEventListener('afterprint', () => { for (const frame of frames) frame.style.height = ''; });
})();
"#;
