//! The constant parts of a page: tests/page.sh writes them from the files of this crate's page/.

/// What stands before the window: head.html.
pub const HEAD: &[u8] = br##"<!DOCTYPE html>
<html lang="en">
<head>
<meta charset="utf-8">
<meta name="viewport" content="width=device-width, initial-scale=1">
<meta name="color-scheme" content="light dark">
<meta http-equiv="Content-Security-Policy" content="default-src 'none'; style-src 'unsafe-inline'; script-src 'unsafe-inline'">
<title>tmwatch</title>
<style>
:root {
  --paper: #fff; --ink: #1c2430; --soft: #5d6878; --line: #e3e7ed; --band: #f7f8fa; --bar: #fff; --edge: #b9c1cc;
  --wrong: #c4232b; --wrong-fill: #fdeceb; --pick: #5b3fc4; --pick-fill: #ece8fb;
  --committed: #226b50; --committed-fill: #e3f2eb; --aborted: #5f6774; --aborted-fill: #eceef1;
  --pending: #815805; --pending-fill: #fbf0d6; --live: #28609f; --live-fill: #e2edf9;
  --mono: ui-monospace, "SF Mono", Menlo, Consolas, "DejaVu Sans Mono", monospace;
}
@media screen and (prefers-color-scheme: dark) {
  :root {
    --paper: #14181e; --ink: #e4e8ee; --soft: #98a3b3; --line: #2a313b; --band: #191e25; --bar: #1b2129; --edge: #4a5463;
    --wrong: #ff7a76; --wrong-fill: #3b1d20; --pick: #b3a1ff; --pick-fill: #302a52;
    --committed: #5cb894; --committed-fill: #17322a; --aborted: #99a3b1; --aborted-fill: #272d36;
    --pending: #dcaa45; --pending-fill: #382c14; --live: #74aaea; --live-fill: #1a2c43;
  }
}
* { box-sizing: border-box; }
body { margin: 0; padding: 28px 32px; background: var(--paper); color: var(--ink); font: 14px/1.5 system-ui, "Segoe UI", "DejaVu Sans", sans-serif; }
h1 { margin: 0; font-size: 21px; font-weight: 600; line-height: 1.3; }
h1.wrong { color: var(--wrong); }
h2 { margin: 0 0 6px; font-size: 13px; font-weight: 600; }
p { margin: 0 0 4px; }
ul { margin: 0 0 4px; padding-left: 18px; }
.soft { color: var(--soft); }
#about { margin: 4px 0 0; }
#why { margin: 14px 0 0; }
#letters { margin: 0 0 6px; font-size: 12px; }
#legend { display: flex; flex-wrap: wrap; gap: 4px 18px; margin: 16px 0 6px; font-size: 12px; color: var(--soft); }
#legend i { display: inline-block; width: 18px; height: 11px; margin-right: 6px; border-width: 1.5px; border-style: solid; border-radius: 3px; vertical-align: -1px; }
#legend i.aborted { border-style: dashed; }
#board { display: flex; border-top: 1px solid var(--line); border-bottom: 1px solid var(--line); }
#names { flex: none; width: 72px; padding-top: 24px; font-size: 12px; color: var(--soft); }
#names div { display: flex; align-items: center; }
#scroll { flex: 1; min-width: 0; overflow-x: auto; }
#below { display: flex; flex-wrap: wrap; gap: 20px 48px; margin-top: 18px; }
#told { flex: 1 1 420px; min-height: 9em; }
#tables { display: flex; flex-wrap: wrap; gap: 4px 24px; }
table { border-collapse: collapse; font: 12px/1.35 var(--mono); }
th { font-weight: 400; color: var(--soft); }
th, td { padding: 1px 8px; text-align: right; }
thead th { border-bottom: 1px solid var(--line); }
svg { display: block; }
text { font: 11px var(--mono); fill: var(--ink); }
.lane { fill: none; }
.lane.odd { fill: var(--band); }
.tick { stroke: var(--line); }
.number { fill: var(--soft); text-anchor: middle; }
.number.mark { fill: var(--wrong); font-weight: 700; }
.column { fill: var(--wrong-fill); }
.tx > rect { stroke-width: 1.25; }
.tail { stroke-width: 1.25; stroke-dasharray: 1 4; stroke-linecap: round; }
.committed > rect, i.committed { fill: var(--committed-fill); stroke: var(--committed); background: var(--committed-fill); border-color: var(--committed); }
.aborted > rect, i.aborted { fill: var(--aborted-fill); stroke: var(--aborted); background: var(--aborted-fill); border-color: var(--aborted); stroke-dasharray: 4 2; }
.pending > rect, i.pending { fill: var(--pending-fill); stroke: var(--pending); background: var(--pending-fill); border-color: var(--pending); }
.live > rect, i.live { fill: var(--live-fill); stroke: var(--live); background: var(--live-fill); border-color: var(--live); }
i.marked { background: var(--wrong-fill); border-color: var(--wrong); }
.committed > text { fill: var(--committed); } .aborted > text { fill: var(--aborted); }
.pending > text { fill: var(--pending); } .live > text { fill: var(--live); }
.pending .tail { stroke: var(--pending); } .live .tail { stroke: var(--live); }
.op rect { fill: var(--bar); stroke: var(--edge); }
.op.waits rect { stroke-dasharray: 3 2; }
.op.reads { cursor: pointer; }
.op.reads:hover rect { stroke: var(--pick); }
.op.marked rect { fill: var(--wrong-fill); stroke: var(--wrong); stroke-width: 1.5; }
.op.marked text { fill: var(--wrong); font-weight: 700; }
.cap { stroke: var(--wrong); stroke-width: 3; }
.arrow { outline: none; }
.arrow .line { fill: none; stroke: var(--wrong); stroke-width: 1.75; marker-end: url(#tip); }
.arrow .near { fill: none; stroke: transparent; stroke-width: 14; }
.arrow:focus-visible .line, .arrow.lit .line { stroke-width: 3.5; }
#why li { outline: none; }
#why li:focus-visible, #why li.lit { background: var(--wrong-fill); }
#tip path { fill: var(--wrong); }
.op.picked rect, .op.source rect { fill: var(--pick-fill); stroke: var(--pick); stroke-width: 2; stroke-dasharray: none; }
.op.picked text, .op.source text { fill: var(--pick); font-weight: 700; }
.related .tx:not(.self, .before, .after) rect, .reading .op:not(.picked, .source) rect, .spare rect { fill-opacity: .3; stroke-opacity: .3; }
.related .tx:not(.self, .before, .after) text, .reading .op:not(.picked, .source) text, .spare text { fill: var(--soft); font-weight: 400; }
.tx.self > rect { stroke-width: 2.5; }
.tx.before > text, .tx.after > text { font-weight: 700; }
.fold { cursor: pointer; outline: none; }
.fold rect { fill: var(--line); }
.fold text { text-anchor: middle; text-decoration: underline; }
.fold:hover rect, .fold:focus-visible rect { fill: var(--pick-fill); }
button { font: inherit; color: inherit; background: var(--band); border: 1px solid var(--edge); border-radius: 4px; padding: 0 8px; cursor: pointer; }
.tx, .op { outline: none; }
.tx:focus-visible > rect, .op:focus-visible rect { stroke: var(--ink); stroke-width: 2.5; }
#tips { position: absolute; width: 0; height: 0; }
#print, .rows #board, #rows { display: none; }
.rows #rows { display: block; }
#rows > svg { max-width: 100%; height: auto; border-top: 1px solid var(--line); border-bottom: 1px solid var(--line); }
@media (max-width: 600px) {
  body { padding: 16px 12px; }
  #names { width: 62px; }
  #told { flex-basis: 100%; }
}
@page { size: A4 landscape; margin: 10mm; }
@media print {
  html, body { height: 188mm; }
  body, main { display: flex; flex-direction: column; }
  main { flex: 1 1 0; min-height: 0; }
  body { padding: 0; font-size: 11px; print-color-adjust: exact; -webkit-print-color-adjust: exact; }
  h1 { font-size: 17px; }
  #legend { margin: 8px 0 4px; font-size: 11px; }
  h2 { font-size: 11px; }
  #board, .rows #rows, #told, #letters, button { display: none; }
  #print { display: block; flex: 1 1 0; min-height: 0; }
  #print > svg { width: 100%; height: 100%; }
  #below { margin-top: 8px; }
  table { font-size: 9px; line-height: 1.25; }
  th, td { padding: 0 6px; }
}
</style>
</head>
<body>
<header>
<h1 id="verdict"></h1>
<p id="about" class="soft"></p>
</header>
<noscript><p>This page draws a run by a script of its own. It needs no network.</p></noscript>
<main>
<section id="why" hidden><h2>Why</h2><ul></ul></section>
<div id="legend"></div>
<p id="letters" class="soft"></p>
<div id="board"><div id="names"></div><div id="scroll"></div></div>
<div id="rows"></div>
<div id="print"></div>
<div id="below">
<section id="told" aria-live="polite"></section>
<section id="states"><h2 id="held"></h2><div id="tables"></div></section>
</div>
</main>
<script type="application/json" id="run">
"##;

/// What stands after it: tail.html.
pub const TAIL: &[u8] = br##"</script>
<script>
'use strict';
(() => {
// At most so many events are drawn, so many writes listed, and of so many a part is found. Of a number with more digits than WIDE the
// drawing has the first and the last ENDS. Sizes are in pixels.
const MOST = 400, LISTED = 24, SEARCHED = 1000, WIDE = 10, ENDS = 4, TOP = 24, BOX = 41, CHAR = 6.65;

// What the program has written: values stay texts, since 64 bits do not fit a number. An event is its line of the trace.
const run = JSON.parse(document.getElementById('run').textContent);
const { report, criterion, registers, before: earlier, mark, verdict_text: wrong } = run;
const states = run.states.map(values => values.trim().split(' '));
const events = run.events.map(line => {
  const [t, k, ...rest] = line.split(' '), event = { t: Number(t), k };
  if ('RWN'.includes(k)) event.r = Number(rest.shift());
  if ('VWN'.includes(k)) event.v = rest[0];
  return event;
});
const first = earlier + 1, last = earlier + events.length;
// The sentences of the reason, each with a semicolon behind it. Between the lanes is room for its arrows.
const sentences = run.why === undefined ? [] : run.why.split('; ').slice(0, -1), LANE = BOX + (sentences.length > 1 ? 26 : 4);
// Where it is asked why the window is violated: which events are violated by themselves. Others that follow each other fold into one column,
// unless the page is loaded again to show all, or those from an event on.
const needed = events.length > SEARCHED ? undefined : run.needed, showsAll = location.hash === '#all', unfolded = location.hash.slice(1).split(',').map(Number);
const isSpare = n => needed !== undefined && needed[n - first] === '0';
const from = needed === undefined ? Math.max(first, last - MOST + 1) : first;
const byId = id => document.getElementById(id);
const group = n => String(n).replace(/\B(?=(\d{3})+$)/g, ',');
const plural = (n, word) => `${group(n)} ${word}${n === 1 ? '' : 's'}`;
const list = words => words.length < 2 ? words.join('') : `${words.slice(0, -1).join(', ')} and ${words.at(-1)}`;

function make(tag, attributes, parent, text) {
  const node = ['svg', 'g', 'rect', 'line', 'path', 'text', 'use', 'title', 'marker'].includes(tag) ? document.createElementNS('http://www.w3.org/2000/svg', tag) : document.createElement(tag);
  for (const [name, value] of Object.entries(attributes)) node.setAttribute(name, value);
  if (text !== undefined) node.textContent = text;
  if (parent) parent.append(node);
  return node;
}

// The window's transactions and operations.
const txs = [], ops = [], open = new Map();
events.forEach((event, i) => {
  const n = first + i, isCall = 'RWNTX'.includes(event.k);
  if (!open.has(event.t)) {
    open.set(event.t, { thread: event.t, name: `T${txs.length + 1}`, first: n });
    txs.push(open.get(event.t));
  }
  const tx = open.get(event.t);
  tx.last = n;
  // What fits no run ends nothing.
  if (report.verdict !== 'malformed' || n !== mark) tx.status = { C: 'committed', A: 'aborted', T: 'commit-pending' }[event.k] || 'live';
  tx.status ||= 'live';
  const before = tx.latest;
  if (!isCall && before && before.call && !before.answer) {
    before.answer = event;
    before.last = n;
  } else {
    tx.latest = { tx, first: n, last: n, call: isCall ? event : null, answer: isCall ? null : event };
    ops.push(tx.latest);
  }
  if (event.k === 'C' || event.k === 'A') open.delete(event.t);
});

const shorten = text => text.replace(/\d+/g, digits => digits.length > WIDE ? `${digits.slice(0, ENDS)}\u2026${digits.slice(-ENDS)}` : digits);
function textOf({ call, answer }) {
  const bare = answer && (answer.v === undefined ? answer.k : `${answer.k} ${answer.v}`);
  if (!call) return bare;
  const asked = { R: `R ${call.r}`, W: `W ${call.r} := ${call.v}`, N: `N ${call.r} += ${call.v}`, T: 'commit', X: 'abort' }[call.k];
  if (!answer) return `${asked} \u2026`;
  const fitting = { RV: ` = ${answer.v}`, NV: ` was ${answer.v}`, WK: '', TC: '', XA: '' }[call.k + answer.k];
  return asked + (fitting ?? (answer.k === 'A' ? ' \u2192 abort' : `, ${bare}`));
}

for (const op of ops) {
  const { call, answer } = op, isAdd = call && call.k === 'N', has = answer && answer.k === 'V';
  op.text = textOf(op);
  op.drawn = shorten(op.text);
  op.where = op.first === op.last ? `event ${op.first}` : `events ${op.first} and ${op.last}`;
  op.isMarked = mark !== undefined && (op.first === mark || op.last === mark);
  if (op.isMarked) op.where += `, ${wrong}`;
  op.isSpare = isSpare(op.first);
  if (call && (call.k === 'R' || isAdd) && has) op.read = answer.v;
  if (call && call.k === 'W') op.wrote = call.v;
  if (isAdd && has) op.wrote = String(BigInt.asUintN(64, BigInt(answer.v) + BigInt(call.v)));
}
const isEnded = tx => tx.status === 'committed' || tx.status === 'aborted';
const precedes = (a, b) => isEnded(a) && a.last < b.first;
const heading = (tx, word) => `${tx.name} \u00b7 ${word}`;

// The verdict in words.
const strict = criterion === 'strict';
const order = strict ? 'serial order of transactions taken as committed' : 'serial order';
const words = {
  'opaque so far': () => `Opaque so far: every prefix of these ${plural(report.events, 'event')} has a serial order that explains it`,
  'strict so far': () => `Strict so far: every prefix of these ${plural(report.events, 'event')} has a ${order} that explains it`,
  violated: () => `Violated at event ${mark}: no ${order} explains the first ${plural(mark, 'event')}`,
  undecided: () => report.why === 'states' ? `Undecided at event ${mark}: more states are possible after it than the bound allows`
    : `Undecided at event ${mark}: ${plural(txs.length, 'transaction')} since none was open, more than the bound allows`,
  malformed: () => `Malformed at event ${mark}: ${wrong.replace('malformed: ', '')}`,
};
byId('verdict').textContent = document.title = words[report.verdict]();
byId('verdict').classList.toggle('wrong', ['violated', 'malformed'].includes(report.verdict));
const extent = events.length === 0 ? 'It has no events.'
  : from > first ? `No transaction was open before event ${first}. Of the ${plural(events.length, 'event')} from there to event ${last} the last ${MOST} are drawn, ${from} to ${last}.`
  : `Drawn: events ${first} to ${last}. No transaction was open before event ${first}.`;
const why = needed === undefined ? '' : ` ${[...needed].filter(mark => mark === '1').length} of these events are violated by themselves.${needed.includes('0') ? ` The others are ${showsAll ? 'faint' : 'folded: a click on their number opens them'}.` : ''}`;
byId('about').textContent = `By ${strict ? 'strict serializability' : 'opacity'}, of a trace of ${plural(report.events, 'event')} over ${plural(registers, 'register')}. ${extent}${why}`;

// Columns: one for each event or fold, as wide as the texts that end there need. A transaction that is still open is drawn, if only as a
// heading, but none whose events are all folded.
const columns = [], columnOf = [];
for (let n = from; n <= last; n++) {
  const column = columns.at(-1), opens = showsAll || unfolded.includes(n) || (column && !column.isFold && isSpare(n) && isSpare(n - 1));
  if (column && column.isFold && isSpare(n)) column.last = n;
  else columns.push({ first: n, last: n, isFold: isSpare(n) && !opens });
  columnOf[n - from] = columns.length - 1;
}
const placeOf = n => columnOf[Math.max(n, from) - from], isFolded = n => n >= from && columns[placeOf(n)].isFold;
const bars = ops.filter(op => op.last >= from && !(isFolded(op.first) && isFolded(op.last)));
const shown = txs.filter(tx => needed === undefined ? tx.last >= from || !isEnded(tx) : bars.some(op => op.tx === tx));
const threads = [...new Set(shown.map(tx => tx.thread))].sort();
const ends = columns.map(() => []);
const need = (part, width) => ends[placeOf(part.last)].push([placeOf(part.first), width]);
bars.forEach(op => need(op, op.drawn.length * CHAR + 14));
shown.forEach(tx => need(tx, heading(tx, tx.status).length * CHAR + 16));
const folded = column => `..${column.last - column.first + 1}`;
function lefts(least) {
  const left = [0];
  columns.forEach((column, place) => left.push(Math.max(left[place] + (column.isFold ? folded(column).length * CHAR + 4 : least),
    ...ends[place].map(([start, width]) => left[start] + width))));
  return left;
}
const room = byId('scroll').clientWidth, digits = Math.ceil(String(last).length * CHAR + 6);
const left = [44, 36, 30, 26, 22, 18, 15].filter(least => least > digits).map(lefts).find(c => c.at(-1) <= room - 1) || lefts(digits);
const xOf = n => left[placeOf(n)], endOf = n => left[placeOf(n) + 1];
const width = Math.ceil(left.at(-1)), height = TOP + LANE * threads.length + 4;
const yOf = thread => TOP + LANE * threads.indexOf(thread);

// The drawing.
const extents = [], floats = [];
const svg = make('svg', { width: width + 1, height, role: 'group', 'aria-label': 'The run, a lane for each thread' }, byId('scroll'));
const chart = make('g', { id: 'chart' }, svg);
threads.forEach((thread, i) => {
  make('rect', { class: i % 2 ? 'lane odd' : 'lane', x: 0, y: yOf(thread), width: width + 1, height: LANE, 'data-thread': thread }, chart);
  make('div', { style: `height: ${LANE}px` }, byId('names'), `thread ${thread}`);
});
if (mark >= from) make('title', {}, make('rect', { class: 'column', x: xOf(mark), y: TOP - 2, width: endOf(mark) - xOf(mark), height: height - TOP }, chart), `event ${mark}: ${wrong}`);
const middle = n => (xOf(n) + endOf(n)) / 2;
for (const column of columns) {
  const n = column.first;
  extents.push([middle(n) - digits / 2 + 3, middle(n) + digits / 2 - 3]);
  if (column.isFold) {
    drawFold(column);
    continue;
  }
  make('text', { class: n === mark ? 'number mark' : 'number', x: middle(n), y: 14, 'data-event': n }, chart, n);
  make('line', { class: 'tick', x1: middle(n), x2: middle(n), y1: 19, y2: n === mark ? 19 : height - 4 }, chart);
}
// A click on a fold loads the page again, with those events.
function drawFold({ first: n, last: end }) {
  const told = `${plural(end - n + 1, 'event')} that the part lacks, ${n} to ${end}: show them`;
  const node = make('g', { class: 'fold', tabindex: 0, role: 'button', 'aria-label': told, 'data-first': n, 'data-last': end }, chart);
  make('rect', { x: xOf(n) + 1, y: 0, width: endOf(n) - xOf(n) - 2, height }, node);
  make('text', { x: middle(n), y: 14 }, node, folded({ first: n, last: end }));
  make('title', {}, node, told);
  node.addEventListener('click', () => { location.hash = [...unfolded.filter(Boolean), n].join(); location.reload(); });
}
function label(parent, text, x, y, right) {
  const node = make('text', { x, y }, parent, text), wide = text.length * CHAR;
  floats.push([node, x, right - wide]);
  extents.push([x, x + wide]);
  return node;
}
for (const tx of shown) {
  const y = yOf(tx.thread), x = tx.first < from ? -9 : xOf(tx.first) + 1, right = endOf(tx.last) - 1;
  const isLeftOut = ops.every(op => op.tx !== tx || op.isSpare);
  tx.node = make('g', { class: `tx ${tx.status === 'commit-pending' ? 'pending' : tx.status}${isLeftOut ? ' spare' : ''}`, tabindex: 0, role: 'group',
    'aria-label': `${tx.name}, thread ${tx.thread}, ${tx.status}, events ${tx.first} to ${tx.last}`,
    'data-first': tx.first, 'data-last': tx.last, 'data-thread': tx.thread, 'data-status': tx.status }, chart);
  if (!isEnded(tx)) make('line', { class: 'tail', x1: right + 4, x2: width - 2, y1: y + 28, y2: y + 28 }, tx.node);
  make('rect', { x, y: y + 2, width: right - x, height: BOX, rx: 5 }, tx.node);
  Object.assign(tx, { x: Math.max(x, 0), right });
  tx.label = label(tx.node, heading(tx, tx.status), x + 6, y + 13, right - 6);
  for (const kind of ['mouseenter', 'focusin']) tx.node.addEventListener(kind, () => relate(tx));
  for (const kind of ['mouseleave', 'focusout']) tx.node.addEventListener(kind, () => relate(null));
}
for (const op of bars) {
  const y = yOf(op.tx.thread) + 18, x = op.first < from ? -9 : xOf(op.first) + 4, right = endOf(op.last) - 4;
  const kind = (op.isSpare ? ' spare' : '') + (op.read === undefined ? '' : ' reads') + (op.call && !op.answer ? ' waits' : '') + (op.isMarked ? ' marked' : '');
  op.node = make('g', { class: `op${kind}`, tabindex: -1, role: op.read === undefined ? 'img' : 'button',
    'aria-label': `${op.text}, ${op.where}`, 'data-first': op.first, 'data-last': op.last }, op.tx.node);
  make('rect', { x, y, width: Math.max(right - x, 2), height: 21, rx: 3 }, op.node);
  if (op.isMarked) make('line', { class: 'cap', x1: op.last === mark ? right : x, x2: op.last === mark ? right : x, y1: y, y2: y + 21 }, op.node);
  label(op.node, op.drawn, x + 4, y + 14.5, right - 4);
  make('title', {}, op.node, `${op.text}, ${op.where}`);
  op.node.addEventListener('click', click => { click.stopPropagation(); pick(op.read === undefined ? null : op); if (!picked) relate(op.tx); });
}
// What a sentence of the reason comes to: an arrow from one transaction to another, where both are above one another if they can be.
// (The tip is of a drawing of its own, since the first is hidden while rows are shown.)
make('path', { d: 'M0,0 L7,3.5 L0,7 z' }, make('marker', { id: 'tip', viewBox: '0 0 7 7', refX: 7, refY: 3.5, markerWidth: 7, markerHeight: 7, orient: 'auto' },
  make('svg', { id: 'tips', 'aria-hidden': true }, document.body)));
const items = sentences.map(sentence => make('li', {}, byId('why').querySelector('ul'), sentence));
byId('why').hidden = run.why === undefined;
sentences.forEach((sentence, place) => {
  const [one, other] = (sentence.match(/: (T\d+) before (T\d+)$/) || []).slice(1).map(name => shown.find(tx => tx.name === name));
  if (!one || !other) return;
  const lo = Math.max(one.x, other.x), hi = Math.min(one.right, other.right), down = threads.indexOf(other.thread) - threads.indexOf(one.thread);
  const aside = Math.min(16, (hi - lo) / 4) * (txs.indexOf(one) < txs.indexOf(other) ? -1 : 1);
  const [x, to] = lo < hi ? [(lo + hi) / 2 + aside, (lo + hi) / 2 + aside] : one.right < other.x ? [one.right - 8, other.x + 8] : [one.x + 8, other.right - 8];
  const y = yOf(one.thread) + 2 + (down < 0 ? 0 : BOX), below = yOf(other.thread) + 2 + (down > 0 ? 0 : BOX);
  const path = down ? `M${x},${y} L${to},${below}` : `M${x},${y} C${x},${y + 26} ${to},${y + 26} ${to},${below}`;
  extents.push([Math.min(x, to) - 6, Math.max(x, to) + 6]);
  const node = make('g', { class: 'arrow', tabindex: 0, role: 'img', 'aria-label': sentence }, chart);
  for (const kind of ['near', 'line']) make('path', { class: kind, d: path }, node);
  make('title', {}, node, sentence);
  const both = [node, items[place]], light = isLit => both.forEach(it => it.classList.toggle('lit', isLit));
  items[place].setAttribute('tabindex', 0);
  for (const it of both) {
    for (const kind of ['mouseenter', 'focusin']) it.addEventListener(kind, () => light(true));
    for (const kind of ['mouseleave', 'focusout']) it.addEventListener(kind, () => light(false));
  }
});
// A text stays in sight as long as its box does.
const settle = edge => floats.forEach(([text, x, most]) => text.setAttribute('x', Math.max(x, Math.min(edge + 6, most))));
byId('scroll').addEventListener('scroll', () => settle(byId('scroll').scrollLeft));
for (const kind of ['beforeprint', 'afterprint']) addEventListener(kind, () => settle(kind === 'beforeprint' ? 0 : byId('scroll').scrollLeft));
if (unfolded[0]) byId('scroll').scrollLeft = xOf(unfolded.at(-1)) - left[1];
else if (mark !== undefined) byId('scroll').scrollLeft = width;
settle(byId('scroll').scrollLeft);

// What is told of a transaction or a read.
let picked = null;
function tell(title, parts, kind = '') {
  byId('told').replaceChildren(make('h2', {}, null, title));
  for (const part of parts) {
    if (typeof part === 'string') make('p', { class: kind }, byId('told'), part);
    else part.reduce((ul, item) => (make('li', {}, ul, item), ul), make('ul', {}, byId('told')));
  }
}
const rest = () => tell('How to read it', [
  'Point at a transaction, or reach it by Tab, to see what it comes before and after in real time.',
  'Click a read, or press Enter on it, to see where its value was written. Escape, or a click elsewhere, goes back.',
  'Arrow keys go from operation to operation.',
  'Events are numbered from 1 or, with --skipped N, from N + 1. The bench in C prints the N to use.'], 'soft');
function relate(tx) {
  chart.classList.toggle('related', tx !== null && picked === null);
  if (picked) return;
  const names = { before: [], after: [], beside: [] };
  for (const other of txs) {
    const word = tx === null || other === tx ? '' : precedes(other, tx) ? 'before' : precedes(tx, other) ? 'after' : 'beside';
    if (word) names[word].push(other.name);
    if (!other.node) continue;
    for (const name of ['self', 'before', 'after']) other.node.classList.toggle(name, name === (other === tx ? 'self' : word));
    other.label.textContent = heading(other, word === 'before' || word === 'after' ? word : other.status);
  }
  if (tx === null) return rest();
  const told = (verb, which, none) => which.length ? `${verb} ${list(which)}.` : none;
  tell(`${heading(tx, tx.status)}, thread ${tx.thread}, events ${tx.first} to ${tx.last}`, [
    told('In real time it comes after', names.before, 'No transaction of this window precedes it in real time.'),
    told('In real time it comes before', names.after, 'It precedes no transaction of this window in real time.'),
    told('It overlaps', names.beside, 'It overlaps no other.')]);
}
const isSourceOf = (op, other) => op && other !== op && other.wrote === op.read && other.call.r === op.call.r;
function pick(op) {
  picked = null;
  relate(null);
  picked = op;
  chart.classList.toggle('reading', op !== null);
  bars.forEach(other => { other.node.classList.toggle('picked', other === op); other.node.classList.toggle('source', isSourceOf(op, other)); });
  if (op !== null) tellOf(op);
}
function tellOf(op) {
  const sources = ops.filter(other => isSourceOf(op, other));
  const have = states.filter(state => state[op.call.r] === op.read).length;
  const start = have === 0 ? `no state at the start of the window has ${op.read} in register ${op.call.r}.`
    : states.length === 1 ? `the state at the start of the window has ${op.read} in register ${op.call.r}.`
    : `${have} of the ${states.length} states at the start of the window have ${op.read} in register ${op.call.r}.`;
  const told = sources.slice(0, LISTED).map(other => `${other.text} of ${other.tx.name} (${other.tx === op.tx ? 'its own' : other.tx.status}), ${other.where}`
    + (other.first > op.last ? ', after the read' : '') + (other.last < from ? ', not drawn' : ''));
  if (sources.length > LISTED) told.push(`${group(sources.length - LISTED)} more`);
  const title = `${op.text} of ${op.tx.name}, thread ${op.tx.thread}, ${op.where}`;
  if (told.length) tell(title, [`Written to register ${op.call.r} in this window by`, told, `${have ? 'Also, ' : 'And '}${start}`]);
  else tell(title, [`No write in this window wrote ${op.read} to register ${op.call.r}, ${have ? 'but' : 'and'} ${start}`]);
}
document.addEventListener('click', () => pick(null));
document.addEventListener('keydown', key => {
  const op = bars.find(b => b.node === document.activeElement), tx = shown.find(t => t.node === document.activeElement);
  if (key.key === 'Escape') return pick(null);
  if ((key.key === 'Enter' || key.key === ' ') && op) { key.preventDefault(); return op.node.dispatchEvent(new MouseEvent('click', { bubbles: true })); }
  const here = op || (tx && bars.find(b => b.tx === tx));
  if (!here || !key.key.startsWith('Arrow')) return;
  key.preventDefault();
  const aside = { ArrowLeft: -1, ArrowRight: 1 }[key.key], lane = threads.indexOf(here.tx.thread) + (aside ? 0 : key.key === 'ArrowUp' ? -1 : 1);
  const along = bars.filter(b => b.tx.thread === threads[lane]), distance = b => Math.abs(b.first - here.first);
  const next = !op ? here : aside ? along[along.indexOf(op) + aside] : along.sort((a, b) => distance(a) - distance(b))[0];
  if (next) { next.node.focus(); next.node.scrollIntoView({ block: 'nearest', inline: 'nearest' }); }
});

// The legend and the states at the start.
for (const [name, word] of [['committed', 'committed'], ['aborted', 'aborted'], ['pending', 'commit-pending'], ['live', 'live'], ['marked', `event ${mark}: ${wrong}`]]) {
  if (name === 'marked' ? mark === undefined : !shown.some(tx => tx.status === word)) continue;
  make('i', { class: name }, make('span', {}, byId('legend'))).after(word);
}
if (needed !== undefined && needed.includes('0')) {
  const button = make('button', { type: 'button' }, byId('legend'), showsAll ? 'Show the part' : 'Show all events');
  button.addEventListener('click', () => { location.hash = showsAll ? '' : 'all'; location.reload(); });
}
byId('held').textContent = states.length === 1 ? 'The registers at the start of the window' : `The ${states.length} states from which the window may begin`;
const rows = Math.ceil(states.length / Math.ceil(states.length / 16));
for (let i = 0; i < states.length; i += rows) {
  const table = make('table', {}, byId('tables')), head = make('tr', {}, make('thead', {}, table)), body = make('tbody', {}, table);
  for (let r = 0; r < registers; r++) make('th', { scope: 'col' }, head, `r${r}`);
  for (const state of states.slice(i, i + rows)) state.reduce((tr, value) => (make('td', {}, tr, value), tr), make('tr', {}, body));
}
// What the legend doesn't name: the letters of operations that are drawn.
const letters = { R: 'R 0 = 5: a read of register 0 was answered 5', W: 'W 0 := 5: 5 was written to register 0',
  N: 'N 0 += 5 was 2: 5 was added to register 0, which held 2', wide: 'of a long number both ends: point at it, or see below' };
const isDrawn = letter => letter === 'wide' ? bars.some(op => op.drawn !== op.text) : bars.some(op => op.call && op.call.k === letter);
byId('letters').textContent = Object.keys(letters).filter(isDrawn).map(letter => letters[letter]).join('; ');
rest();
// At first the page tells of the marked event, if that is a read and no reason is told.
const atFirst = bars.find(op => op.isMarked && op.read !== undefined);
if (atFirst && run.why === undefined) tellOf(atFirst);

// The drawing in so many rows, which are cut where they cross few texts.
function drawRows(parent, count, names) {
  const cuts = left.slice(1, -1), crossed = x => extents.filter(([start, end]) => start < x && x < end).length;
  const stops = [0, ...[...Array(count - 1).keys()].map(i => (i + 1) * width / count).map(goal => cuts.filter(x => Math.abs(x - goal) < width / count / 4)
    .sort((a, b) => crossed(a) - crossed(b) || Math.abs(a - goal) - Math.abs(b - goal))[0] || goal), width + 1];
  const widest = Math.max(...stops.slice(1).map((x, i) => x - stops[i]));
  const paper = make('svg', { viewBox: `0 0 ${widest + names} ${count * (height + 10)}`, width: widest + names, preserveAspectRatio: 'xMinYMin', 'aria-hidden': true }, parent);
  stops.slice(1).forEach((x, i) => {
    const row = make('svg', { x: names, y: i * (height + 10), width: x - stops[i], height, viewBox: `${stops[i]} 0 ${x - stops[i]} ${height}` }, paper);
    make('use', { href: '#chart' }, row);
    threads.forEach(thread => make('text', { x: 0, y: i * (height + 10) + yOf(thread) + 26 }, paper, `thread ${thread}`));
  });
}
// On paper: as many as make it largest on one sheet. On a screen on which it is too wide, a button shows as many as fit.
const NAMES = 62, fit = n => Math.min(1030 / (width / n + NAMES), (560 - 13 * rows) / (n * (height + 10)));
drawRows(byId('print'), [...Array(12).keys()].map(i => i + 1).sort((a, b) => fit(b) - fit(a))[0], NAMES);
if (width > room) {
  const button = make('button', { type: 'button' }, byId('legend'), 'Show it whole, in rows');
  drawRows(byId('rows'), Math.ceil(width / (room * 0.8)), NAMES);
  button.addEventListener('click', () => { button.textContent = document.body.classList.toggle('rows') ? 'Show it in one line' : 'Show it whole, in rows'; });
}
})();
</script>
</body>
</html>
"##;
