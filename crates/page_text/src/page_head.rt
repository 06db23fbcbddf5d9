//! What comes before the data of a page. tools/page-text writes this file.

/// What comes before the data of a page.
pub fn head() -> &'static str {
    r#"<!DOCTYPE html>
<html lang="en">
<head>
<meta charset="utf-8">
<meta http-equiv="Content-Security-Policy" content="default-src 'none'; script-src 'sha256-EMx+tQ5Gy/ePCCsJrmcyCKg2JtdnBJD0wcqAf+4M9d0='; style-src 'sha256-WeyWTIy9cz+0aMQqlDJHxZRvLomMFCZFbmq9kFILIyA='; img-src data:; base-uri 'none'; form-action 'none'">
<meta name="viewport" content="width=device-width, initial-scale=1">
<meta name="color-scheme" content="light dark">
<link rel="icon" href="data:,">
<title>whatif</title>
<style>
/* Blue: an action ran; orange, with a cross: a failure; violet, with an arrow: a pending stage. Strong on the path, pale beside it. */
:root {
  --ground: #f4f5f8; --panel: #fff; --ink: #18202d; --soft: #556072; --line: #d8dde6; --grid: #eceff4; --ran: #9dbbdd; --ran-path: #1b5eaa;
  --queued: #dfe9f5; --queued-path: #a9c8ec; --wait: #b4becd; --fail: #b8430a; --fail-soft: #edb994; --pending: #6d4bab;
  --chosen: #fff1c2; --near: #eef2f8; --find: #ffd95e; --link: #1b5eaa;
}
:root[data-theme=dark] {
  --ground: #10141a; --panel: #181e27; --ink: #e7ebf2; --soft: #a3afc0; --line: #303a48; --grid: #222a35; --ran: #3f6591; --ran-path: #78b6ff;
  --queued: #233245; --queued-path: #35587f; --wait: #56637a; --fail: #ff9d5f; --fail-soft: #8d5533; --pending: #c3a8f5;
  --chosen: #3a3418; --near: #202835; --find: #8a6d0a; --link: #8cc1ff;
}
* { box-sizing: border-box; }
html, body { margin: 0; height: 100%; }
body { display: flex; flex-direction: column; background: var(--ground); color: var(--ink); font: 14px/1.45 system-ui, "Segoe UI", "DejaVu Sans", sans-serif; overflow-wrap: anywhere; }
button, input, select { font: inherit; color: inherit; background: var(--panel); border: 1px solid var(--line); border-radius: 5px; padding: 2px 9px; }
button { cursor: pointer; }
button:hover { background: var(--near); }
button.name { border: 0; padding: 0; background: none; color: var(--link); text-align: left; overflow-wrap: anywhere; }
:focus-visible { outline: 2px solid var(--link); outline-offset: 1px; }
header { padding: 12px 18px 9px; background: var(--panel); border-bottom: 1px solid var(--line); }
h1 { margin: 0; font-size: 21px; line-height: 1.25; }
header p { margin: 2px 0 0; font-size: 15px; }
#facts { color: var(--soft); font-size: 12.5px; }
#bar { display: flex; flex-wrap: wrap; gap: 4px 10px; align-items: center; padding: 7px 18px; border-bottom: 1px solid var(--line); font-size: 13px; }
#bar input { width: 170px; }
#bar select { max-width: 155px; }
#found { color: var(--soft); min-width: 50px; }
#found + * { margin-left: auto; }
main { flex: 1; min-height: 0; display: grid; grid-template-columns: minmax(0, 1fr) 400px; background: var(--panel); }
#view { display: flex; flex-direction: column; min-width: 0; min-height: 0; border-right: 1px solid var(--line); }
#axis { cursor: col-resize; }
#stack { position: relative; flex: 1; min-height: 0; border-top: 1px solid var(--line); }
#rows { position: absolute; pointer-events: none; }
#scroll { position: absolute; inset: 0; overflow: hidden auto; cursor: crosshair; outline-offset: -2px; }
#legend { display: flex; flex-wrap: wrap; gap: 2px 16px; padding: 5px 14px; border-top: 1px solid var(--line); color: var(--soft); font-size: 12px; }
#legend canvas { vertical-align: -4px; margin-right: 5px; }
#table { display: none; flex: 1; overflow: auto; padding: 8px 14px; }
#view.table > * { display: none; }
#view.table > #table { display: block; }
#panel { overflow: auto; min-width: 0; padding: 0 16px 24px; }
section + section { border-top: 1px solid var(--line); }
section { padding: 10px 0 12px; }
h2 { margin: 0 0 6px; font-size: 14.5px; }
small, dt, th, .soft { color: var(--soft); font-weight: 400; }
p { margin: 0 0 6px; }
.bad, h1 i { color: var(--fail); font-style: normal; }
.open { color: var(--pending); }
dl { display: grid; grid-template-columns: 96px minmax(0, 1fr); gap: 2px 10px; margin: 0 0 6px; font-size: 13px; }
dd { margin: 0; }
table { width: 100%; border-collapse: collapse; font-size: 12.5px; }
caption { text-align: left; padding: 6px 0; color: var(--soft); }
td, th { text-align: left; padding: 2px 8px 2px 0; border-bottom: 1px solid var(--grid); vertical-align: top; }
.n { text-align: right; font-variant-numeric: tabular-nums; white-space: nowrap; }
code, kbd { font: 12px ui-monospace, "DejaVu Sans Mono", monospace; }
kbd { border: 1px solid var(--line); border-radius: 4px; padding: 0 4px; }
#tip, dialog { max-width: 480px; padding: 8px 11px; border: 1px solid var(--line); border-radius: 6px; color: inherit; background: var(--panel); box-shadow: 0 4px 16px #0003; font-size: 12.5px; }
#tip { position: fixed; pointer-events: none; }
.unseen { position: absolute; width: 1px; height: 1px; overflow: hidden; clip-path: inset(50%); white-space: nowrap; }
[hidden], #paper { display: none; }
@media (max-width: 900px) {
  html, body { height: auto; }
  main { display: block; }
  #view { height: 70vh; }
}
@media print {
  html, body { height: auto; background: none; }
  body, main, #paper, #view.table { display: block; }
  #bar, #view, #tip, .more, dialog { display: none; }
  #paper canvas { display: block; width: 100%; }
  #panel, #table { overflow: visible; padding: 0; }
  h2 { break-after: avoid; }
  tr, #paper canvas { break-inside: avoid; }
}
</style>
</head>
<body>
<header>
<h1 id="what">whatif</h1>
<p id="why"></p>
<p id="then"></p>
<p id="facts"></p>
</header>
<noscript>What this page holds is in it as JSON; the script that draws it may not run here.</noscript>
<div id="bar" role="toolbar" aria-label="Picture">
<input id="find" type="search" placeholder="Find a name  ( / )" aria-label="Find a stage by its name"><span id="found" role="status"></span>
<span id="versions" hidden><label for="after">Version</label> <select id="after"></select> <label for="before">beside</label> <select id="before"></select> <select id="how" aria-label="Before and after"></select></span>
<span><label for="kind">Rows</label> <select id="kind"></select> <button data-key="o">Open all</button> <button data-key="c">Close all</button></span>
<span><button data-key="+" aria-label="Zoom in">+</button> <button data-key="-" aria-label="Zoom out">&minus;</button> <button data-key="0">Whole run</button></span>
<span><button data-key="t">Table</button> <button data-key="?">Keys</button></span>
</div>
<div id="paper"></div>
<main>
<div id="view">
<canvas id="axis" aria-hidden="true"></canvas>
<div id="stack"><canvas id="rows" aria-hidden="true"></canvas><div id="scroll" tabindex="0" role="application" aria-label="Timeline. Up and down choose a stage, left and right close and open its group, T shows a table, question mark the keys."><div id="tall"></div></div></div>
<div id="legend" aria-hidden="true"></div>
<div id="table" tabindex="-1"></div>
</div>
<div id="panel" role="region" aria-label="The chosen stage, and the reports"></div>
</main>
<div id="tip" hidden></div>
<div id="say" class="unseen" role="status"></div>
<dialog id="keys" aria-label="Keys"></dialog>
<script type="application/json" id="data">
"#
}
