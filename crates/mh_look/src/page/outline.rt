//! What every page has: its looks, the script that shows one step at a time, and the tags round
//! what is shown.
ghost use Rattle.std.specs.Prelude.{◌≡◌};
ghost use Rattle.mh_look.specs.Page.{head, foot};

/// What stands before the first step, which it begins.
pub const HEAD: &[u8] = b"<!DOCTYPE html>
<html lang=\"en\">
<head>
<meta charset=\"utf-8\">
<meta name=\"viewport\" content=\"width=device-width, initial-scale=1\">
<title>What redplay showed</title>
<style>
:root { color-scheme: light dark; --fit: 1; --ink: #222; --paper: #ddd; --mark: #f0f; }
@media (prefers-color-scheme: dark) { :root { --ink: #ddd; --paper: #222; } }
body { font-family: sans-serif; margin: 1em; color: var(--ink); background: var(--paper); }
#bar { display: flex; flex-wrap: wrap; gap: 0.5em 1em; align-items: center; }
#bar[hidden] { display: none; }
#bar button { min-width: 2.5em; min-height: 2em; }
section { display: grid; gap: 0 2em; margin-bottom: 2em; }
section { grid-template: auto 1fr / calc(720px * var(--fit)) 1fr; }
h2 { grid-column: 1; grid-row: 1; font-size: 1em; margin: 0.5em 0; }
pre { grid-column: 2; grid-row: 1 / 3; margin: 0.5em 0; }
pre { white-space: pre-wrap; overflow-wrap: anywhere; }
pre:only-child { grid-column: 1; }
.screen { grid-column: 1; grid-row: 2; width: 720px; height: 576px; }
.screen { overflow: hidden; background: #000; position: relative; }
.screen { transform: scale(var(--fit)); transform-origin: 0 0; }
.screen { margin: 0 calc(720px * (var(--fit) - 1)) calc(576px * (var(--fit) - 1)) 0; }
.screen div { height: 16px; width: 800px; white-space: pre; }
.screen div { font: 16px/16px monospace; letter-spacing: calc(12px - 1ch); }
.screen span { display: inline-block; height: 16px; vertical-align: top; }
.screen svg { position: absolute; left: 0; top: 0; display: none; }
.marked .screen svg { display: block; }
.stepped section { display: none; }
.stepped section.now { display: grid; }
.stepped.all { display: flex; flex-wrap: wrap; gap: 1em; --fit: 0.25; }
.stepped.all section { display: block; cursor: pointer; margin: 0; }
.stepped.all section.now h2 { text-decoration: underline; }
.stepped.all pre, .stepped.all section:last-child { display: none; }
@media (max-width: 1000px) {
section, .stepped section.now { display: flow-root; }
}
</style>
</head>
<body>
<p id=\"bar\" hidden>
<button id=\"back\" aria-label=\"the frame before\">&#8592;</button>
<input id=\"slider\" type=\"range\" min=\"0\" value=\"0\" aria-label=\"frame\">
<button id=\"on\" aria-label=\"the next frame\">&#8594;</button>
<output id=\"where\"></output>
<label><input id=\"marks\" type=\"checkbox\"> mark what changed</label>
<label><input id=\"all\" type=\"checkbox\"> all frames, small</label>
</p>
<main>
<section>
<pre>";

/// What stands behind the last step, which it ends.
pub const FOOT: &[u8] = b"</pre>
</section>
</main>
<script>
'use strict';
const steps = [...document.querySelectorAll('section')];
const by = id => document.getElementById(id);
const main = document.querySelector('main');
const slider = by('slider');
const last = steps.length - 1;
let at = 0;
// how many thousandths of a second the lines of the script let pass before each step
let clock = 0;
const moments = steps.map(section => {
  for (const tick of section.querySelector('pre').textContent.matchAll(/^> tick ([0-9]+)$/gm)) clock += Number(tick[1]);
  return clock;
});
function moment(thousandths) {
  const minutes = Math.floor(thousandths / 60000);
  return minutes + ':' + (thousandths % 60000 / 1000).toFixed(3).padStart(6, '0');
}
function label(step) {
  const words = step < last ? 'frame ' + (step + 1) + ' of ' + last : 'the end';
  return clock ? words + ', at ' + moment(moments[step]) : words;
}
function show(step) {
  at = Math.min(Math.max(step, 0), last);
  steps.forEach((section, place) => section.classList.toggle('now', place === at));
  slider.value = at;
  slider.setAttribute('aria-valuetext', label(at));
  by('where').value = label(at);
  by('back').disabled = at === 0;
  by('on').disabled = at === last;
  document.title = label(at) + ' - what redplay showed';
  history.replaceState(null, '', at < last ? '#' + (at + 1) : '#end');
}
// a screen is as wide as the window at most
function fit() {
  const most = document.documentElement.clientWidth - 32;
  document.documentElement.style.setProperty('--fit', Math.min(1, most / 720));
}
// a frame is asked for by its number, behind # in the address
function asked() {
  const name = location.hash.slice(1);
  return name === 'end' ? last : /^[0-9]+$/.test(name) ? Math.min(Number(name), last) - 1 : 0;
}
// the cells of a screen that changed, and a line round each area of them
function outline(screen) {
  const rows = [...screen.querySelectorAll('div')].map(row => [...row.children].flatMap(
    run => Array([...run.textContent].length).fill(run.classList.contains('c'))));
  const is = (y, x) => !!(rows[y] && rows[y][x]);
  let path = '';
  rows.forEach((cells, y) => cells.forEach((changed, x) => {
    if (changed !== is(y - 1, x)) path += 'M' + 12 * x + ' ' + 16 * y + 'h12';
    if (changed !== is(y, x - 1)) path += 'M' + 12 * x + ' ' + 16 * y + 'v16';
    if (changed && !is(y + 1, x)) path += 'M' + 12 * x + ' ' + (16 * y + 16) + 'h12';
    if (changed && !is(y, x + 1)) path += 'M' + (12 * x + 12) + ' ' + 16 * y + 'v16';
  }));
  screen.insertAdjacentHTML('beforeend', '<svg width=\"720\" height=\"576\"><path d=\"' + path
    + '\" fill=\"none\" stroke=\"var(--mark)\" stroke-width=\"2\"/></svg>');
}
document.querySelectorAll('.screen').forEach(outline);
slider.max = last;
slider.addEventListener('input', () => show(Number(slider.value)));
by('back').addEventListener('click', () => show(at - 1));
by('on').addEventListener('click', () => show(at + 1));
by('marks').addEventListener('change', event => main.classList.toggle('marked', event.target.checked));
by('all').addEventListener('change', event => main.classList.toggle('all', event.target.checked));
steps.forEach((section, place) => section.addEventListener('click', () => {
  if (!main.classList.contains('all')) return;
  by('all').checked = false;
  main.classList.remove('all');
  show(place);
}));
document.addEventListener('keydown', event => {
  const to = { ArrowLeft: at - 1, ArrowRight: at + 1, Home: 0, End: last }[event.key];
  const isOther = event.altKey || event.ctrlKey || event.metaKey;
  if (to !== undefined && !isOther && event.target !== slider) { show(to); event.preventDefault(); }
});
window.addEventListener('hashchange', () => show(asked()));
window.addEventListener('resize', fit);
main.classList.add('stepped');
by('bar').hidden = false;
fit();
show(asked());
</script>
</body>
</html>
";

/// What stands before the number of a frame: it ends the lines before the frame.
pub const FRAME_BEGIN: &[u8] = b"</pre>\n<h2>frame ";

/// What stands between the number of a frame and its rows.
pub const FRAME_TITLE_END: &[u8] = b"</h2>\n<div class=screen>\n";

/// What stands behind the rows of a frame: it begins the next step, with its lines.
pub const FRAME_END: &[u8] = b"</div>\n</section>\n<section>\n<pre>";

/// What ends a row, and the last run of it.
pub const ROW_END: &[u8] = b"</span></div>\n";

/// What stands before the colour of characters.
pub const STYLE: &[u8] = b"style=\"color:#";

/// What stands before the colour behind characters.
pub const BACKGROUND: &[u8] = b";background:#";

/// What every page begins with.
#[tactic(auto, unfolding(crate::specs::Page::head))]
pub fn head() -> &'static [u8]
    ensures { result.now ≡ head }
{
    HEAD
}

/// What every page ends with.
#[tactic(auto, unfolding(crate::specs::Page::foot))]
pub fn foot() -> &'static [u8]
    ensures { result.now ≡ foot }
{
    FOOT
}
