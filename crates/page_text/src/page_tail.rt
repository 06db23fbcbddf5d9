//! What comes after the data of a page. tools/page-text writes this file.

/// What comes after the data of a page.
pub fn tail() -> &'static str {
    r##"</script>
<script>
"use strict";
(() => {
const { max, min, round, floor, ceil } = Math;
const $ = id => document.getElementById(id);
const isText = one => typeof one === "string";
// An element with these properties and children. Data comes in as text alone.
const el = (tag, told, ...children) => {
  const one = document.createElement(tag);
  for (const [key, value] of Object.entries(told || {})) if (value !== undefined) one[key] = value;
  one.append(...children.flat(9).filter(child => child !== null && child !== undefined));
  return one;
};
// What an enemy may have chosen, as a line: nothing unseen, and nothing that breaks it or turns its direction.
const clean = (text, most = 300) => {
  const line = String(text).replace(/[\u0000-\u001f\u007f-\u009f\u061c\u200b-\u200f\u2028-\u202e\u2060-\u2069\ufeff]/g, "\ufffd");
  return line.length > most ? line.slice(0, most - 1) + "\u2026" : line;
};

// ---- the data

// Numbers of 16 digits and more stay texts, since JSON.parse would round them.
const parse = text => JSON.parse(/[[:,\s]-?\d{16,}/.test(text)
  ? text.replace(/"[^"\\]*(?:\\.[^"\\]*)*"|-?\d[\d.eE+-]*/g, token => /^-?\d{16,}$/.test(token) ? `"${token}"` : token) : text);
const data = parse($("data").textContent), { recording, versions } = data;
// The steps of the script with what they were answered; none of a line that is no JSON.
const scriptLines = (data.text ?? "").split(/\r?\n/), stepOn = line => { try { return parse(scriptLines[line - 1]); } catch { return null; } };
const steps = data.steps.map(reply => ({ step: stepOn(reply.line), reply }));
const unit = isText(recording.unit) ? clean(recording.unit, 16) : "";
const ticks = count => `${count} ${unit || (count === 1 ? "tick" : "ticks")}`;

// ---- versions

// A stage as in form 2, whatever it was written in; `told` is what was written.
const stageOf = (told, form) => ({
  name: told.name, told, op: told.op === "supplyAsync" ? "async" : told.op.replace(/Async$/, ""),
  sources: told.sources || [], inner: told.inner || [], created: told.created || 0,
  queued: form === 2 && told.queued || 0, runs: (form === 2 ? told.runs : told.takes) || 0,
  action: told.action ?? null, pinResult: told.pinResult ?? null, pinMoment: told.pinMoment ?? null, ends: told.ends || [],
});
const EDITS = {
  pinResult: told => ({ pinResult: told.result }), pinMoment: told => ({ pinMoment: told.at }),
  setTakes: told => ({ queued: 0, runs: told.takes }), setTimes: ({ queued, runs }) => ({ queued, runs }),
  setAction: ({ action }) => ({ action }), setEnds: ({ ends }) => ({ ends }), rewire: ({ sources, inner }) => ({ sources, inner }),
};
const edit = (stages, told) => told.do === "remove" ? stages.delete(told.stage)
  : told.do === "add" ? stages.set(told.new.name, stageOf(told.new, "queued" in told.new || "runs" in told.new ? 2 : 1))
  : stages.set(told.stage, { ...stages.get(told.stage), ...EDITS[told.do](told) });
const editsOf = new Map();
for (const { step, reply } of steps) if (reply.reply === "committed") editsOf.set(reply.version, step.do === "edits" ? step.edits : [step]);
// The versions from which one was made, and itself; without version 0.
const lineTo = version => {
  const line = [];
  for (let at = version; at > 0; at = versions[at].parent) line.unshift(at);
  return line;
};
// Version 0 is the recording with its report; another one its parent with the edits of its step, and the states that changed.
const models = new Map();
const modelOf = version => {
  if (models.has(version)) return models.get(version);
  const stages = new Map(recording.stages.map(told => [told.name, stageOf(told, recording.form)]));
  const states = new Map(versions[0].stages.map(one => [one.name, one]));
  for (const at of lineTo(version)) {
    for (const told of editsOf.get(at)) edit(stages, told);
    for (const one of versions[at].stages) states.set(one.name, one.new);
  }
  if (models.size > 4) models.clear();
  models.set(version, derive([...stages.values()], states, version));
  return models.get(version);
};

// ---- what docs/FORMATS.md says of a stage: its trigger, its action, its cause, whom it blames

const ALL = "thenCombine thenAcceptBoth runAfterBoth allOf".split(" ");
const ON_FAILURE = "handle whenComplete exceptionally exceptionallyCompose".split(" ");
const ON_VALUE = "thenApply thenAccept thenRun handle whenComplete thenCompose applyToEither acceptEither runAfterEither".split(" ");
const isFailure = outcome => outcome !== null && !("value" in outcome);
const exceptionOf = outcome => outcome.bare ?? outcome.wrapped;
const actsAt = end => end.at + (end.delay || 0);

// The number or null that an action gives, handed values or a failure; what it throws is thrown as a text.
const evaluate = (form, values, failure) => {
  if (!Array.isArray(form)) return form === null ? null : BigInt(form);
  const [kind, first] = form, given = at => evaluate(form[at], values, failure), is = test => BigInt(!!test);
  const present = value => { if (value === null) throw "java.lang.NullPointerException"; return value; };
  switch (kind) {
    case "arg": return values[first] ?? null;
    case "throw": throw first;
    case "if": return given(present(given(1)) ? 2 : 3);
    case "isnull": return is(given(1) === null);
    case "failed": return is(failure);
    case "iswrapped": return is(failure && "wrapped" in failure);
    case "causeis": return is(failure && exceptionOf(failure) === first);
  }
  const [left, right] = [given(1), given(2)].map(present);
  if (kind === "div" && !right) throw "java.lang.ArithmeticException";
  return BigInt.asIntN(64, kind === "add" ? left + right : kind === "sub" ? left - right : kind === "mul" ? left * right : kind === "div" ? left / right : is(kind === "lt" ? left < right : left === right));
};
// The inner stage that a function picks, handed what a source came to; none where it throws or names none.
const pickOf = (one, outcome) => {
  try {
    return one.inner[evaluate(one.action, (outcome.value ?? null) === null ? [] : [BigInt(outcome.value)], isFailure(outcome) && outcome)];
  } catch (thrown) {
    if (!isText(thrown)) throw thrown;
  }
};
// By its operation alone: when it would complete (null while it waits), from which trigger on, whether an action runs then, why,
// and whom it blames.
const natural = one => {
  const { op, sources } = one, complete = sources.filter(source => source.moment !== null);
  const waits = on => ({ moment: null, kind: on ? "waits" : "open", by: on });
  const since = (waited, acts, blames) => {
    const trigger = max(one.created, ...waited.map(source => source.moment)), by = waited.find(source => source.moment === trigger);
    return { moment: trigger + (acts ? one.queued + one.runs : 0), trigger, acts, kind: by ? "after" : "created", by, blames };
  };
  const earliest = list => list.reduce((least, source) => least && least.moment <= source.moment ? least : source, undefined);
  if (op === "manual") return waits();
  if (["async", "completed", "failed"].includes(op)) return since([], op === "async");
  if (ALL.includes(op)) {
    if (complete.length < sources.length) return waits(sources.find(source => source.moment === null));
    const blames = earliest(complete.filter(source => source.failed));
    return since(complete, op !== "allOf" && !blames, blames);
  }
  const source = earliest(complete);
  if (!source) return waits(sources[0]);
  const acts = (source.failed ? ON_FAILURE : ON_VALUE).includes(op);
  const own = since([source], acts, source.failed && (!acts || op === "whenComplete") ? source : undefined);
  const picked = acts && op.endsWith("Compose") ? pickOf(one, source.outcome) : undefined;
  if (!picked) return own;
  if (picked.moment === null) return waits(picked);
  own.blames = picked.failed ? picked : undefined;
  return picked.moment > own.moment ? { ...own, moment: picked.moment, kind: "inner", by: picked } : own;
};
// After its pins and ends; and what is drawn of its action. True where this gives the moment of the report.
const settle = one => {
  let { moment: computed, ...own } = natural(one);
  const set = (moment, kind, end = -1) => { computed = moment; Object.assign(own, { kind, end, by: undefined }); };
  own.end = -1;
  if (one.pinMoment !== null && (one.pinResult || computed !== null)) set(one.pinMoment, "pinned");
  one.ends.forEach((end, index) => { if (computed === null || actsAt(end) < computed) set(actsAt(end), "ended", index); });
  if (one.pinResult || own.end >= 0) own.blames = undefined;
  Object.assign(one, own);
  one.start = one.acts && !one.pinResult && one.pinMoment === null && one.end < 0 ? one.trigger + one.queued : null;
  if (one.acts && one.moment !== null && one.moment >= one.trigger) {
    const start = one.trigger + one.queued, end = start + one.runs, to = min(end, one.moment);
    one.bars = { from: one.trigger, start: min(start, one.moment), to, cut: end - to };
  }
  [one.ownQueued, one.ownRan] = one.acts && (one.kind === "after" || one.kind === "created") ? [one.queued, one.runs] : [0, 0];
  one.since = min(one.trigger ?? one.created, one.moment ?? Infinity);
  one.begin = one.bars?.start ?? one.moment ?? one.created;
  return computed === one.moment;
};
const derive = (stages, states, version) => {
  const by = new Map(stages.map((stage, place) => {
    const { outcome, moment } = states.get(stage.name);
    return [stage.name, { ...stage, place, outcome, moment, failed: isFailure(outcome), readers: [], bars: null }];
  }));
  const all = [...by.values()];
  for (const one of all) {
    for (const kind of ["sources", "inner"]) one[kind] = one[kind].map(name => by.get(name));
    for (const feed of new Set([...one.sources, ...one.inner])) feed.readers.push(one);
  }
  const wrong = all.filter(one => !settle(one)).length;
  const first = all.reduce((least, one) => min(least, one.created, one.moment ?? Infinity), all.length ? Infinity : 0);
  const last = all.reduce((most, one) => max(most, one.moment ?? one.created), first + 1);
  return { version, all, by, first, last, wrong, arose: all.filter(one => one.failed && !one.blames) };
};
const lineOf = (one, next) => {
  const line = [];
  for (let at = one; at; at = at[next]) line.push(at);
  return line;
};
const pathOf = one => lineOf(one, "by");
const blameOf = one => one.failed ? lineOf(one, "blames") : [];
// The stages to which the failure of this one came through it.
const reachOf = one => {
  const reached = new Set([one]);
  for (const at of reached) for (const reader of at.readers) if (reader.blames === at) reached.add(reader);
  return [...reached].slice(1).sort((one, two) => one.place - two.place);
};
// The stage with which the run ends: of those on which none waits the one that completes last.
const lastOf = model => model.all.filter(one => !one.readers.length).reduce((last, one) => !last || (one.moment ?? -1) > (last.moment ?? -1) ? one : last, undefined);
// A path as its report has it.
const stepsOf = one => pathOf(one).map(({ name, moment, ownQueued: queued, ownRan: ran, kind, by, created, ends, end }) => ({
  name, moment, queued, ran, cause: { kind, ...by && { stage: by.name }, ...kind === "created" && { at: created }, ...kind === "ended" && { by: ends[end].do } },
}));

// ---- in words: parts, of which a stage is a link, and a list of stages a list of links

const say = outcome => outcome === null ? "pending" : isFailure(outcome) ? clean(exceptionOf(outcome)) : `value ${outcome.value}`;
const short = outcome => isFailure(outcome) ? "\u2715 " + say(outcome).replace(/^.*[.$](?=[^.$])/, "") : say(outcome);
const endOf = end => end.do + (end.delay === undefined ? "" : ` ${end.delay}`);
const causeOf = ({ kind, by, created, ends, end }) => kind === "after" ? ["after ", by, ` at ${by.moment}`] : kind === "inner" ? ["took over ", by, ", which its function picked"]
  : kind === "waits" ? ["waits for ", by, ", which is pending"] : [{ created: `created at ${created}`, pinned: "its moment is pinned", ended: `ended by its ${end < 0 || endOf(ends[end])}`, open: "nothing completes it" }[kind]];
const fateOf = ({ ends, end, bars, runs, moment }, index) => end !== index ? { kind: ends[index].delay === undefined ? "tooLate" : "notReached", by: actsAt(ends[index]) - moment }
  : bars?.cut ? { kind: "cutOff", ran: bars.to - bars.start, of: runs } : { kind: "struck" };
const fateText = ({ kind, ran, of, by }) => kind === "tooLate" ? `too late by ${by}` : kind === "notReached" ? `not reached by ${by}` : `struck${of ? `, cut off after ${ran} of ${of}` : ""}`;
const factsOf = one => {
  const { moment, failed, outcome, bars } = one, at = ` at ${ticks(moment)}`;
  const facts = [
    ["State", [moment === null ? "pending" : failed ? `\u2715 failed${at}: ${say(outcome)}${"wrapped" in outcome ? ", wrapped" : ""}` : say(outcome) + at]],
    ["Because", causeOf(one)], ["Action", [bars ? `queued ${bars.start - bars.from}, ran ${bars.to - bars.start}${bars.cut ? `, cut off ${bars.cut} before its end` : ""}, from ${bars.from} to ${bars.to}` : "did not run"]],
    ...one.ends.map((end, index) => ["End", [`${endOf(end)} at ${actsAt(end)}: ${fateText(fateOf(one, index))}`]]),
  ];
  if (one.pinResult) facts.push(["Pinned", [say(one.pinResult)]]);
  if (failed) facts.push(["Failed by", one.blames ? [blameOf(one).slice(1)] : ["itself: the exception arose in it"]], ["Made fail", [reachOf(one)]]);
  return facts;
};
const inText = parts => parts.map(part => !Array.isArray(part) ? part.name ?? part : part.length > 5 ? `${part.slice(0, 5).map(one => one.name).join(", ")} and ${part.length - 5} more` : part.map(one => one.name).join(", ") || "none").join("");

// ---- what is shown now

const now = { kind: "path", chosen: undefined, at: null, near: null, from: 0, to: 1, found: [], sought: "", order: 5, page: 0, table: false, parent: false, beside: false };
let model = modelOf(0), other = null, changed = new Map();
const here = name => model.by.get(name);
let target = here(data.stage) ?? lastOf(model);

// ---- the rows: a tree, of which the open groups are shown

let nodes = [], roots = [], rows = [], rowOf = new Map(), pitch = 24, gutter = 230;
const node = (one, parent, told) => {
  const made = { one, parent, children: [], open: false, depth: parent ? min(9, parent.depth + 1) : 0, row: -1, ...told };
  nodes.push(made);
  (parent ? parent.children : roots).push(made);
  if (one) rowOf.set(one, made);
  return made;
};
const inOrder = (list, begin = one => one.begin) => list.sort((one, two) => begin(one) - begin(two) || one.place - two.place);

// The path of the target; under each stage what feeds it beside that, with its own path, and so on.
const byPath = () => {
  const group = (ones, label, open) => {
    const top = node(null, null, { label, open }), queue = [];
    const put = (one, parent) => {
      const line = [];
      for (let at = one; at && !rowOf.has(at); at = at.by) { line.push(at); rowOf.set(at, null); }
      const head = one === target ? parent : node(line.shift(), parent);
      queue.push(...line.reverse().map(at => node(at, head)), ...head.one && head !== parent ? [head] : []);
    };
    for (const one of ones) {
      put(one, top);
      while (queue.length) { const at = queue.shift(); for (const feed of [...at.one.sources, ...at.one.inner]) if (!rowOf.has(feed)) put(feed, at); }
    }
  };
  if (target) group([target], `Path of ${target.name}`, true);
  for (const bad of [true, false]) {
    const rest = inOrder(model.all.filter(one => !one.readers.length && one.failed === bad && !rowOf.has(one)));
    if (rest.length) group(rest, `Other ends ${bad ? "that failed" : "of the run"}`, bad && rest.length <= 20);
  }
};
// The spans of an imported trace, by their names (docs/TRACES.md): under each those that began in it, and its own steps.
const isSpan = one => isText(one.told.span);
const bySpan = () => {
  const hosts = new Map(), inside = new Map(), loose = [];
  const parts = one => /^(.*)\.(start|work|join|limit|answer|tried)(-\d+)?$/.exec(one.name) || [], isTried = one => !isSpan(one) && parts(one)[2] === "tried";
  const owner = one => { const of = isSpan(one) ? one : here(parts(one)[1]); return of && isSpan(of) ? of : undefined; };
  const startOf = span => here(`${span.name}.start`) ?? span, of = span => inside.get(span) || inside.set(span, { spans: [], steps: [] }).get(span);
  // The span in which one began: that of the step after which it did, or that of the span beside it; what is waited for stands before.
  for (const span of model.all.filter(isSpan)) {
    let step = startOf(span);
    while (step && (step === span || owner(step) === span && !isTried(step))) step = step.sources[0];
    hosts.set(span, step && (isSpan(step) || isTried(step) ? hosts.get(owner(step)) : owner(step)));
    of(hosts.get(span)).spans.push(span);
  }
  for (const one of model.all) if (!isSpan(one)) (owner(one) ? of(isTried(one) && hosts.get(owner(one)) || owner(one)).steps : loose).push(one);
  const group = (steps, parent, label) => { const top = node(null, parent, { label, steps }); for (const one of inOrder(steps)) node(one, top); };
  const spans = (host, parent) => inOrder(of(host).spans, span => startOf(span).begin).map(span => node(span, parent, { from: startOf(span).begin }));
  const queue = spans(undefined, null);
  for (const at of queue) {
    const { steps } = of(at.one);
    if (steps.length) group(steps, at, `its own steps: ${steps.length}`);
    queue.push(...spans(at.one, at));
  }
  if (loose.length) group(loose, null, `of no span: ${loose.length}`);
};
const byTime = () => { for (const one of inOrder([...model.all])) node(one, null); };
const KINDS = { span: bySpan, path: byPath, time: byTime };

const flatten = () => {
  const stack = [...roots].reverse();
  rows = [];
  for (const one of nodes) one.row = -1;
  for (let one; one = stack.pop();) {
    one.row = rows.length;
    rows.push(one);
    if (one.open) for (let at = one.children.length; at-- > 0;) stack.push(one.children[at]);
  }
  $("tall").style.height = `${rows.length * pitch + 8}px`;
  plan();
};
// The row of a stage: its own, or that of the closed group that holds it.
const shownFor = one => {
  let at = rowOf.get(one);
  while (at && (at.row < 0 || at.steps && !at.open)) at = at.parent;
  return at;
};
const reveal = one => { for (const at of lineOf(rowOf.get(one)?.parent, "parent")) at.open = true; };
const grow = () => {
  [nodes, roots, rowOf] = [[], [], new Map()];
  KINDS[now.kind]();
  const gone = other ? other.all.filter(one => !model.by.has(one.name)) : [];
  const group = gone.length && node(null, null, { label: "Only before", open: true });
  for (const one of gone) node(one, group);
  // How many stages, failures and differences are in each group, and from when to when they went.
  for (const at of nodes) Object.assign(at, { count: 0, bad: 0, differ: 0, low: at.from ?? Infinity, high: 0 });
  const put = (at, count, bad, differ, low, high) => { at.count += count; at.bad += bad; at.differ += differ; at.low = min(at.low, low); at.high = max(at.high, high); };
  for (const at of [...nodes].reverse()) {
    const { one, parent } = at;
    if (one) put(at, 1, one.failed && !one.blames, changed.has(one.name), one.since, one.moment ?? model.last);
    if (parent) put(parent, at.count, at.bad, at.differ, at.low, at.high);
  }
  // Open at first: all of a small run; else the path, by what the target failed, and some places where failures arose.
  if (model.all.length <= 60) for (const at of nodes) at.open ||= !at.steps;
  else {
    for (const one of model.path) reveal(rowOf.get(one).parent?.steps && rowOf.get(one).parent.parent?.one || one);
    blameOf(target ?? {}).slice(0, 40).forEach(reveal);
    model.arose.filter(one => lineOf(rowOf.get(one), "parent").at(-1).open).slice(0, 12).forEach(reveal);
  }
  flatten();
};

// ---- drawing

const look = {}, FONT = "12px system-ui, 'Segoe UI', 'DejaVu Sans', sans-serif", AXIS = 74;
let wanted = false, pen;
const plan = () => {
  if (!wanted) requestAnimationFrame(() => { wanted = false; draw(); });
  wanted = true;
};
// `pen` draws on the canvas that was fitted last.
const fitted = (canvas, width, height, scale = devicePixelRatio || 1) => {
  const [across, down] = [width, height].map(size => max(1, round(size * scale)));
  if (canvas.width !== across || canvas.height !== down) Object.assign(canvas, { width: across, height: down });
  Object.assign(canvas.style, { width: `${width}px`, height: `${height}px` });
  pen = canvas.getContext("2d");
  pen.setTransform(scale, 0, 0, scale, 0, 0);
  Object.assign(pen, { textBaseline: "middle", font: FONT });
};
const box = (x, y, wide, high, colour, alpha = 1) => {
  Object.assign(pen, { globalAlpha: alpha, fillStyle: look[colour] }).fillRect(x, y, wide, high);
  pen.globalAlpha = 1;
};
const widthOf = text => pen.measureText(text).width;
const write = (text, x, y, colour) => { pen.fillStyle = look[colour]; pen.fillText(text, x, y + .5); };
// Lines through points; a null begins another one.
const lines = (points, colour, wide, dash = []) => {
  Object.assign(pen, { strokeStyle: look[colour], lineWidth: wide }).setLineDash(dash);
  pen.beginPath();
  points.forEach((point, at) => { if (point) pen[at && points[at - 1] ? "lineTo" : "moveTo"](...point); });
  pen.stroke();
};
const clipped = (x, y, wide, high, paint) => {
  pen.save();
  pen.beginPath();
  pen.rect(x, y, wide, high);
  pen.clip();
  paint();
  pen.restore();
};
const cross = (x, y, size) => lines([[x - size, y - size], [x + size, y + size], null, [x + size, y - size], [x - size, y + size]], "fail", 2);
const whole = () => [model.first, max(model.last, other ? other.last : 0)];
// Where ticks lie, those outside a little outside; and the tick at a place.
const scale = (x, wide, from, to) => ({
  x, wide, of: tick => max(x - 20, min(x + wide + 20, x + (tick - from) / (to - from) * wide)), tick: at => round(max(from, min(to, from + (at - x) / wide * (to - from)))),
});
const strip = width => scale(gutter + 10, round(max(20, width - gutter - 26)), ...whole());
// One plot, or before and after: one above the other in each row, on one axis, or beside each other. `up` is how far a plot's line is from the row's.
const isStacked = () => other && !now.beside;
const plotsFor = width => {
  const { x, wide: room } = strip(width), half = (room - 30) / 2, up = pitch / 4;
  const plot = (model, x, wide, title, up = 0) => ({ ...scale(x, wide, now.from, now.to), model, title, up, find: one => one && model.by.get(one.name) });
  if (!other) return [plot(model, x, room, "")];
  const before = `before: version ${other.version}`, after = `after: version ${model.version}`;
  return now.beside ? [plot(other, x, half, before), plot(model, x + half + 30, half, after)] : [plot(other, x, room, `above, shaded, ${before}; below, ${after}`, -up), plot(model, x, room, "", up)];
};
// Multiples of 1, 2 or 5 times a power of ten, about one to 90 dots.
const roundTicks = wide => {
  const least = (now.to - now.from) / max(2, wide / 90), power = 10 ** max(0, floor(Math.log10(least)));
  const step = [1, 2, 5, 10].find(one => one * power >= least) * power, list = [];
  for (let tick = ceil(now.from / step) * step; tick <= now.to; tick += step) list.push(tick);
  return list;
};
// The course of a stage at the height y: `strong` on the path, `slim` in the row of another one.
const drawStage = ({ x, wide, of }, one, y, strong, slim) => {
  const high = slim ? 7 : isStacked() ? 11 : min(13, pitch - 7), top = y - high / 2, right = x + wide, done = one.moment === null ? right : of(one.moment);
  const made = of(isSpan(one) ? one.since : one.created), ran = strong ? "ran-path" : "ran";
  if (!slim) box(made, y - .5, done - made, 1, strong ? "soft" : "wait");
  if (one.bars) {
    const { from, start, to, cut } = one.bars, [a, b, c, d] = [from, start, to, to + cut].map(of), worse = one.failed ? strong ? "fail" : "fail-soft" : ran;
    if (b > a) {
      box(a, top + 1, b - a, high - 2, ran);
      box(a + 1, top + 2, b - a - 1, high - 4, strong ? "queued-path" : "queued");
    }
    if (to > start) box(b, top, max(1.5, c - b), high, worse);
    if (cut) for (let at = c; at < max(d, c + 8); at += 3) box(at, top, 1, high, worse);
  }
  if (one.moment === null) return lines([[right - 5, y - 4], [right, y], [right - 5, y + 4]], "pending", 1.8);
  if (one.failed) return cross(done, y, slim ? 3 : 4);
  if (slim) return;
  Object.assign(pen, { fillStyle: look.panel, strokeStyle: look[strong ? ran : "soft"], lineWidth: 1.4 }).beginPath();
  pen.arc(done, y, 3, 0, 7);
  pen.fill();
  pen.stroke();
};
// A path, as far as it is seen.
const drawPath = ({ of }, path, yOf, colour, dash) => {
  const points = [];
  let y = path.length && yOf(path[0]);
  for (const one of path) {
    const up = one.by ? yOf(one.by) : y, begin = of(one.by ? one.by.moment ?? now.to : one.since);
    if (max(y, up) > -99 && min(y, up) < 3000) points.push([of(one.moment ?? now.to), y], [begin, y], [begin, up], null);
    y = up;
  }
  lines(points, colour, 1.8, dash);
};
// What feeds a stage and what it feeds; dashed where the later one did not come after that.
const drawLinks = ({ of }, one, yOf, strong) => {
  const link = (from, to, colour) => {
    const [x, y] = [of(from.moment ?? now.to), yOf(to)];
    if (to.by !== from || !strong.has(to)) lines([[x, yOf(from)], [x, y], [of(to.trigger ?? to.created), y]], colour, 1.2, to.by === from ? [] : [2, 3]);
  };
  for (const feed of new Set([...one.sources, ...one.inner])) link(feed, one, "link");
  for (const reader of one.readers.slice(0, 60)) link(one, reader, reader.blames === one ? "fail" : "soft");
};
// The rows from one to another, the first of them at the height `top`.
const drawRows = (width, first, last, top) => {
  const shown = rows.slice(first, last + 1), high = shown.length * pitch, half = pitch / 2, yMiddle = at => top + (at.row - first) * pitch + half;
  const back = at => at.one && at.one === now.chosen || at === now.at ? "chosen" : at === now.near ? "near" : "panel";
  const looked = now.near?.one ?? now.chosen, nodeOf = one => shownFor(rowOf.has(one) ? one : here(one.name));
  for (const at of shown) {
    box(0, yMiddle(at) - half, width, pitch, back(at));
    if (isStacked() && back(at) === "panel") box(gutter, yMiddle(at) - half, width, half, "ground");
  }
  for (const plot of plotsFor(width)) clipped(plot.x - 8, top, plot.wide + 20, high, () => {
    const { of, up } = plot, { path, strong } = plot.model, seen = plot.find(looked), end = path[0], within = new Map();
    const yRow = at => yMiddle(at) + up, yOf = one => { const at = nodeOf(one); return at ? yRow(at) : -9999; };
    if (up <= 0) for (const tick of roundTicks(plot.wide)) box(round(of(tick)), top, 1, high, "grid");
    // A span, or a closed group: from when to when what is in it went.
    for (const at of shown) if (at.children.length && !at.steps && (!at.open || at.from !== undefined) && plot.model === model) {
      const a = of(at.low), wide = max(2, of(at.high) - a);
      box(a, yRow(at) - 7, wide, 14, "wait");
      box(a + 1, yRow(at) - 6, wide - 2, 12, "grid");
    }
    drawPath(plot, path, yOf, "ink");
    // In the row of a closed group what of the path is in it, and in that of a span its own steps.
    let free = -99;
    const put = (at, one) => within.set(at, within.get(at) || []).get(at).push(one);
    for (const one of path) {
      const at = nodeOf(one);
      if (at?.one?.name !== one.name && Math.abs(of(one.begin) - free) > .5) { free = of(one.begin); put(at, one); }
    }
    for (const at of shown) {
      const own = plot.find(at.one), steps = at.from === undefined ? [] : (at.children[0]?.steps || []).map(plot.find);
      for (const step of [...steps, ...within.get(at) || []]) if (step) drawStage(plot, step, yRow(at), strong.has(step), true);
      if (own) drawStage(plot, own, yRow(at), strong.has(own));
    }
    if (seen && seen !== end) drawPath(plot, pathOf(seen), yOf, "link", [5, 3]);
    if (seen) drawLinks(plot, seen, yOf, strong);
    if (!end || end.moment === null) return;
    // How late the target is, beside its end.
    pen.font = `600 ${FONT}`;
    const text = `${end.failed ? "failed at " : ""}${ticks(end.moment)}`, x = of(end.moment), room = widthOf(text);
    const left = x + room + 20 > plot.x + plot.wide + 8 ? x - room - 12 : x + 10;
    box(left - 3, yOf(end) - 8, room + 6, 16, "panel", .85);
    write(text, left, yOf(end), end.failed ? "fail" : "ink");
  });
  const found = new Set(now.found);
  clipped(0, top, gutter, high, () => {
    for (const at of shown) {
      const y = yMiddle(at), { one, open } = at, strong = model.strong.has(one), bad = at.bad - !!(one?.failed && !one.blames), hidden = open || at.steps ? 0 : at.count - !!one, change = one && changed.get(one.name), differ = at.differ - !!change;
      let x = 24 + at.depth * 13;
      if (at.children.length) write(open ? "\u25be" : "\u25b8", x - 14, y, "soft");
      if (one?.failed) { cross(x + 4, y, 3); x += 12; }
      pen.font = `${strong || !one && !at.steps ? "600 " : ""}${FONT}`;
      const text = one?.name ?? at.label, tail = (hidden ? ` +${hidden}${bad ? `, ${bad} failed` : ""}${differ ? `, ${differ} \u2260` : ""}` : "") + (change ? ` \u2260 ${later(change) || ""}` : ""), wide = widthOf(text), end = min(x + wide, gutter - 6 - widthOf(tail));
      if (found.has(one)) box(x - 2, y - 8, wide + 4, 16, "find");
      write(text, x, y, one?.failed && !strong ? "fail" : at.steps ? "soft" : "ink");
      if (tail) box(end, y - half, 999, pitch, back(at));
      write(tail, end, y, hidden && bad ? "fail" : change || differ ? "ink" : "soft");
    }
  });
  box(gutter, top, 1, high, "line");
};
const drawAxis = (width, height) => {
  const note = (text, y) => write(text, gutter - widthOf(text) - 6, y, "soft");
  box(0, 0, width, height, "panel");
  for (const plot of plotsFor(width)) {
    for (const tick of roundTicks(plot.wide)) {
      const x = plot.of(tick), room = widthOf(tick);
      box(round(x), height - 6, 1, 6, "soft");
      write(tick, max(plot.x - 4, min(plot.x + plot.wide + 12 - room, x - room / 2)), height - 14, "soft");
    }
    write(plot.title, plot.x, height - 28, "ink");
  }
  note(unit ? `in ${unit}` : "in ticks", height - 14);
  if (height < AXIS) return;
  // The whole run: how many actions ran at a time, where failures arose, the path, and what part is shown below.
  const { x, wide, of } = strip(width), [a, b] = [of(now.from), of(now.to)], change = new Int32Array(wide + 2), dot = tick => max(0, min(wide, floor(of(tick) - x)));
  for (const { bars } of model.all) if (bars && bars.to > bars.start) { change[dot(bars.start)]++; change[dot(bars.to) + 1]--; }
  let count = 0, seen = -99;
  const counts = Array.from(change, by => count += by), most = max(1, ...counts);
  box(x, 5, wide, 32, "grid");
  counts.forEach((count, at) => { const high = count && max(1, count / most * 24); box(x + at, 37 - high, 1, high, "ran"); });
  let left = Infinity;
  for (const { bars } of model.path) if (bars && Math.abs(left - of(bars.start)) > .5) { left = of(bars.start); box(left, 34, max(1, of(bars.to) - left), 3, "ran-path"); }
  for (const at of model.arose.map(one => of(one.moment)).sort((one, two) => one - two)) if (at > seen + 6) cross(seen = at, 10, 2.5);
  note("whole run", 22);
  box(x, 5, a - x, 32, "panel", .7);
  box(b, 5, x + wide - b, 32, "panel", .7);
  if (b - a < wide - .5) lines([[a, 5], [b, 5], [b, 37], [a, 37], [a, 5]], "link", 1.5);
};
const area = $("scroll");
let drag = null, pointer = null;
const draw = () => {
  const width = area.clientWidth, height = area.clientHeight, first = floor(area.scrollTop / pitch), plots = pointer === null ? [] : plotsFor(width);
  if (now.table || !width) return;
  fitted($("rows"), width, height);
  box(0, 0, width, height, "panel");
  drawRows(width, first, min(rows.length - 1, ceil((area.scrollTop + height) / pitch)), first * pitch - area.scrollTop);
  // The tick under the pointer, and what is being selected.
  const from = drag?.moved ? drag.from : pointer, text = drag?.moved ? `${ticks(Math.abs(pointer - from))} selected` : pointer;
  for (const { of } of plots) {
    box(min(of(from), of(pointer)), 0, Math.abs(of(from) - of(pointer)), height, "link", .18);
    box(round(of(pointer)), 0, 1, height, "soft");
  }
  fitted($("axis"), width, AXIS);
  drawAxis(width, AXIS);
  for (const { x, wide, of } of plots) {
    const room = widthOf(text), left = max(x - 4, min(x + wide + 8 - room, of(pointer) - room / 2));
    box(left - 4, AXIS - 22, room + 8, 17, "ink");
    write(text, left, AXIS - 14, "panel");
  }
  page.first ??= performance.now();
};

// ---- zoom

const zoomTo = (from, to) => {
  const [first, last] = whole(), room = min(last - first, max(4, to - from)), low = max(first, min(last - room, (from + to - room) / 2));
  [now.from, now.to] = [low, low + room];
  plan();
};
const fit = () => zoomTo(...whole());
const zoomBy = (factor, around) => {
  const at = now.chosen?.moment, middle = around ?? (at >= now.from && at <= now.to ? at : (now.from + now.to) / 2);
  zoomTo(middle - (middle - now.from) * factor, middle + (now.to - middle) * factor);
};
const panBy = part => { const by = (now.to - now.from) * part; zoomTo(now.from + by, now.to + by); };

// ---- choosing

const into = at => {
  const y = at.row * pitch, room = area.clientHeight;
  if (y < area.scrollTop) area.scrollTop = y - 3 * pitch;
  else if (y + pitch > area.scrollTop + room) area.scrollTop = y + 4 * pitch - room;
};
const choose = (one, still) => {
  if (!one) return;
  [now.chosen, now.at] = [one, null];
  if (!still) {
    reveal(one);
    flatten();
    into(rowOf.get(one));
    const by = one.moment === null ? 0 : one.moment - max(now.from, min(now.to, one.moment));
    if (by) zoomTo(now.from + by * 1.1, now.to + by * 1.1);
  }
  showChosen();
  plan();
  $("say").textContent = `${one.name}, ${factsOf(one).slice(0, 3).map(fact => inText(fact[1])).join(", ")}${changed.has(one.name) ? `, before: ${shownState(changed.get(one.name).before)}` : ""}`;
};
const toggle = (open, list) => { for (const at of list) at.open = open; flatten(); };
// The row at which the keys stand.
const stand = () => now.at?.row >= 0 ? now.at : shownFor(now.chosen) ?? rows[0];
const isHere = one => one && here(one.name) === one;
const moveTo = row => {
  const at = rows[max(0, min(rows.length - 1, row))];
  if (isHere(at.one)) return choose(at.one);
  now.at = at;
  into(at);
  $("say").textContent = `${at.label ?? at.one.name}, group of ${at.count}, ${at.open ? "open" : "closed"}`;
  plan();
};
const step = (list, by) => {
  const at = list.indexOf(now.chosen);
  choose(list[(at < 0 && by < 0 ? list.length - 1 : at + by + list.length) % list.length]);
};
const find = by => {
  const sought = $("find").value.trim().toLowerCase(), fresh = sought !== now.sought;
  now.sought = sought;
  now.found = sought ? model.all.filter(one => one.name.toLowerCase().includes(sought)) : [];
  if (!(fresh && now.found.includes(now.chosen))) step(now.found, fresh ? 1 : by);
  $("found").textContent = !sought ? "" : now.found.length ? `${now.found.indexOf(now.chosen) + 1} of ${now.found.length}` : "none";
  if (now.table) showTable();
  plan();
};

// ---- the panel

const button = (text, onclick, className = "") => el("button", { type: "button", className, onclick }, text);
const named = name => model.by.has(name) ? button(name, () => choose(here(name)), "name") : name;
const soft = text => el("span", { className: "soft" }, text);
const names = (list, most = 20) => list.length ? [list.slice(0, most).map((name, at) => [at ? ", " : "", named(name)]), list.length > most ? ` and ${list.length - most} more` : ""] : soft("none");
const linked = parts => parts.map(part => Array.isArray(part) ? names(part.map(one => one.name)) : part.name ? named(part.name) : part);
const stateEl = told => told ? el("span", { className: told.outcome === null ? "open" : isFailure(told.outcome) ? "bad" : "", title: say(told.outcome) }, short(told.outcome) + (told.moment == null ? "" : ` at ${told.moment}`)) : soft("absent");
// A table; of a long one the first rows, until the others are asked for. Columns of numbers have a # before their heads.
const tableOf = (heads, list, row, most = 12, press) => {
  const body = el("tbody"), columns = heads.split(","), kind = at => columns[at][0] === "#" ? "n" : "", title = at => columns[at].replace("#", "");
  const fill = (from, to) => body.append(...list.slice(from, to).map(one => el("tr", {}, row(one).map((cell, at) => el(at ? "td" : "th", { className: kind(at), scope: at ? undefined : "row" }, cell)))));
  fill(0, most);
  return [el("table", {}, el("thead", {}, el("tr", {}, columns.map((_, at) => el("th", { scope: "col", className: kind(at) }, press ? button(title(at), () => press(at), "name") : title(at))))), body),
    list.length > most ? button(`All ${list.length}`, event => { fill(most, Infinity); event.target.remove(); }, "more") : ""];
};
const section = (id, title, note, ...children) => el("section", { id }, el("h2", {}, title, " ", el("small", {}, note)), children);

const pathTable = steps => tableOf("Stage,#at,#queued,#ran,", steps, ({ name, moment, queued, ran, cause: { kind, at, by } }) =>
  [named(name), moment ?? "-", queued, ran, { after: "", inner: "took it over", created: `created at ${at}`, ended: `ended by ${by}` }[kind] ?? kind], 16);
const BELOW = "each after the one below it";
const showChosen = () => {
  const one = now.chosen;
  if (!one) return;
  const { told, created, action, sources, inner, readers } = one, facts = [...factsOf(one), ["Sources", [sources]], ["Waited for by", [readers]]];
  if (other) facts.splice(1, 0, ["Before", [shownState(other.by.get(one.name))]]);
  if (inner.length) facts.push(["May pick", [inner]]);
  if (created) facts.push(["Created", [created]]);
  if (action !== null) facts.push(["Gives", [clean(JSON.stringify(action).replace(/"(-?\d+)"/g, "$1"))]]);
  for (const [key, value] of Object.entries(told)) if (/^(x-|[$_]|span$)/.test(key)) facts.push([clean(key, 40), [clean(isText(value) ? value : JSON.stringify(value))]]);
  $("chosen").replaceChildren(el("h2", {}, one.name, " ", el("small", {}, told.op)),
    el("dl", {}, facts.map(([name, parts], at) => [el("dt", {}, name), el("dd", { className: at ? "" : one.failed ? "bad" : "" }, linked(parts))])));
  if (one !== target || !data.explain) $("chosen").append(el("h2", {}, el("small", {}, `Its path, ${BELOW}`)), ...pathTable(stepsOf(one)));
};
const changeOf = ({ kind, value, longer, only, do: act, at, delay }) => {
  const end = `${act} ${delay === null ? "" : `${delay} `}set at ${at}`;
  return { noTime: "runs=0", notQueued: "queued=0", noFailure: `gives=${value}`, withoutEnd: only ? "unlimited" : `without ${end}`, twiceTheDelay: only ? `limit=${longer}` : `${end} -> ${longer}` }[kind];
};
const reports = () => {
  const { stage, explain, sweep, rescue, slack, failures, ends } = data, own = here(stage);
  return [
    explain && own && section("path", ["Path of ", named(stage)], model.version ? `in version ${model.version}` : BELOW, pathTable(model.version ? stepsOf(own) : explain[2].steps)),
    ...[
      ["sweep", "Worth making faster", "it would come sooner if this took no time", sweep?.trials, "Stage,#sooner,then", one => [named(one.stage), one.sooner, stateEl(one)]],
      ["rescue", "What would have saved it", `${rescue?.count} of ${rescue?.tried} single changes`, rescue?.rescues, "Change,then", one => [[named(one.name), " ", el("code", {}, changeOf(one.change))], `value ${one.value} at ${one.moment}`]],
      ["slack", "Slack", "how much longer each may run before it comes otherwise", slack?.stages, "Stage,#slack,#started,#latest", one => [named(one.name), one.slack ?? "any", one.start, one.latest ?? "-"]],
      ["failures", "Failures", "where each arose", failures.stages, "Arose in,#at,exception,reached,handled by", one => [named(one.name), one.moment, stateEl({ outcome: { bare: one.exception } }), names(one.reaches, 4), names(one.handled, 4)]],
      ["ends", "Timeouts and calls", "what came of each", ends.stages, "Stage,end,#at,came of it", one => [named(one.name), `${one.do} ${one.delay ?? ""}`, one.moment, fateText(one.fate)]],
    ].map(([id, title, note, list, heads, row]) => list && section(id, title, note, list.length ? tableOf(heads, list, row) : soft("None."))),
  ].filter(part => part);
};
// The stages that are not the same in both versions.
const differences = () => {
  const told = one => one ? { outcome: one.outcome, moment: one.moment } : null;
  return [...new Set([...model.by.keys(), ...other.by.keys()])].map(name => ({ name, before: told(other.by.get(name)), after: told(here(name)) })).filter(({ before, after }) => JSON.stringify(before) !== JSON.stringify(after));
};
const later = ({ before, after }) => {
  const by = (after?.moment ?? NaN) - (before?.moment ?? NaN);
  return by > 0 ? `+${by}` : isNaN(by) ? "-" : by;
};
const shownState = told => told ? short(told.outcome) + (told.moment === null ? "" : ` at ${told.moment}`) : "absent";
// Beside which version one is shown.
const besideOf = version => version ? now.parent ? versions[version].parent : other?.version ?? 0 : null;
const asBeside = beside => {
  now.beside = beside;
  $("how").value = beside ? "beside" : "above";
  showVersion(model.version, other ? other.version : null);
};
const changes = () => {
  return section("changed", `Version ${model.version} beside ${other.version}`, `${changed.size} stages differ`,
    tableOf("Stage,before,after,#later", [...changed.values()], one => [named(one.name), stateEl(one.before), stateEl(one.after), later(one)], 20));
};
const wordsOf = version => clean(editsOf.get(version).map(one => `${one.do} ${one.stage ?? one.new.name}`).join(", "), 90);
const answerOf = ({ reply, report, version, session, number, name, dependent, head, member, at, edit }) => reply === "committed" ? button(`version ${version}`, () => showVersion(version, besideOf(version)), "name")
  : reply === "refused" ? el("span", { className: "bad" }, clean(["\u2715 refused", number, name, dependent ?? head ?? member ?? version ?? (at === undefined ? "" : `at ${at}`), edit === undefined ? "" : `in ${edit}`].join(" ")))
  : report ? `${report} of version ${version}` : [reply, session ?? "", version ?? ""].join(" ");
const script = () => section("steps", "Steps", `${clean(data.script)}: ${steps.length}, ${data.steps.filter(it => it.reply === "refused").length} refused`,
  tableOf("#line,step,answer", data.steps, it => [it.line, el("code", {}, clean(scriptLines[it.line - 1], 400)), answerOf(it)], 40));

// ---- the heading: what happened, in version 0

const heading = () => {
  const one = target, parts = [], facts = [data.file, ...data.script ? [data.script] : [], `${model.all.length} stages`, `${model.arose.length} failures`, `times in ${unit || "ticks"}`, `${versions.length} version${versions.length > 1 ? "s" : ""}`];
  if (one) {
    const path = pathOf(one), took = at => at.ownQueued + at.ownRan, most = path.reduce((best, at) => took(at) > took(best) ? at : best), origin = blameOf(one).pop();
    $("what").replaceChildren(el("i", {}, one.failed ? "\u2715 " : ""), one.name, one.moment === null ? " is pending" : ` ${one.failed ? "failed" : "completed"} at ${ticks(one.moment)}`, data.stage === null ? ", the last of the run" : "");
    if (origin) parts.push(`${say(one.outcome)}, which arose in `, origin === one ? "it" : origin, ". ");
    if (one.moment === null) parts.push("It waits for ", path.at(-1), ".");
    else if (took(most)) parts.push(`Its path has ${path.length} stages; the longest, `, most, `, took ${took(most)} of the ${ticks(one.moment)}: ${most.ownQueued} queued, ${most.ownRan} running.`);
    document.title = `${one.name}, ${clean(data.file, 80)} - whatif`;
  }
  $("why").replaceChildren(...linked(parts));
  for (const key of ["service", "trace"]) if (isText(recording[key])) facts.push(`${key} ${recording[key]}`);
  if (/^\d{16,19}$/.test(recording.start)) facts.push(`from ${new Date(Number(BigInt(recording.start) / 1000000n)).toISOString().replace("T", " ").replace("Z", " UTC")}`);
  facts.push(`${data.program.name} ${data.program.version}`);
  if (model.wrong) facts.push(`${model.wrong} stages are not drawn as the report says`);
  $("facts").textContent = facts.map(fact => clean(fact, 120)).join(" \u00b7 ");
};

// ---- all stages as a table, by pages

const COLUMNS = [
  ["Stage", one => one.name], ["Operation", one => one.told.op], ["State", one => short(one.outcome)], ["#Completed", one => one.moment ?? "-"], ["Because", one => inText(causeOf(one))],
  ["#Start", one => one.start ?? "-"], ["#Queued", ({ bars }) => bars ? bars.start - bars.from : "-"], ["#Ran", ({ bars }) => bars ? bars.to - bars.start : "-"],
];
const BEFORE = ["Before", one => shownState(other.by.get(one.name))];
const showTable = () => {
  const columns = other ? [...COLUMNS, BEFORE] : COLUMNS;
  if (!columns[now.order]) now.order = 5;
  const [, key] = columns[now.order], size = 200, list = (now.sought ? now.found : model.all).map(one => [key(one), one]);
  list.sort(([a, one], [b, two]) => (a === "-") - (b === "-") || (a < b ? -1 : a > b ? 1 : 0) * (now.order > 5 && now.order < 8 ? -1 : 1) || one.place - two.place);
  const pages = max(1, ceil(list.length / size)), turn = (text, by) => button(text, () => { now.page += by; showTable(); });
  now.page = max(0, min(pages - 1, now.page));
  const [table] = tableOf(columns.map(column => column[0]).join(), list.slice(now.page * size, (now.page + 1) * size), ([, one]) => columns.map(([, of], at) => at ? of(one) : named(one.name)), size,
    at => { now.order = at; showTable(); });
  table.prepend(el("caption", {}, `Stages of version ${model.version}${now.sought ? ` with ${clean(now.sought, 40)} in their names` : ""}: ${list.length}, page ${now.page + 1} of ${pages}, by ${columns[now.order][0].replace("#", "")}${other ? `; before: version ${other.version}` : ""}`));
  $("table").replaceChildren(el("div", { className: "more" }, turn("Before", -1), " ", turn("Next", 1)), table);
};
const asTable = on => {
  now.table = on;
  $("view").className = on ? "table" : "";
  if (on) showTable();
  plan();
  (on ? $("table") : area).focus();
};

// ---- a version, and beside it another one

const showVersion = (version, before) => {
  const nameOf = at => at.one?.name ?? at.label, open = new Set(nodes.filter(at => at.open).map(nameOf));
  model = modelOf(version);
  other = before === null || before === version ? null : modelOf(before);
  target = here(target?.name) ?? lastOf(model);
  // The path of the target, in each of both.
  for (const of of [model, other]) if (of) Object.assign(of, { path: pathOf(of.by.get(target?.name)), strong: new Set(pathOf(of.by.get(target?.name))) });
  [now.from, now.to] = whole();
  Object.assign(now, { chosen: here(now.chosen?.name) ?? target, near: null, at: null, found: [], sought: "" });
  changed = new Map((other ? differences() : []).map(one => [one.name, one]));
  $("after").value = version;
  $("before").value = !other ? "" : now.parent ? "parent" : before;
  grow();
  for (const at of nodes) at.open ||= open.has(nameOf(at));
  [...changed.keys()].slice(0, 40).forEach(name => reveal(here(name)));
  pitch = (model.all.length > 400 ? 20 : 24) + (isStacked() ? 10 : 0);
  flatten();
  const own = { before: other?.by.get(target?.name), after: target };
  $("then").replaceChildren(...version && target ? [el("b", {}, `Version ${version}`), `, by ${lineTo(version).map(wordsOf).join(", ")}: `, named(target.name), " ", stateEl(target), own.before ? `, ${later(own)} beside version ${before}` : ""] : []);
  $("panel").replaceChildren(el("section", { id: "chosen" }), ...other ? [changes()] : [], ...reports(), ...steps.length ? [script()] : []);
  showChosen();
  if (now.table) showTable();
};

// ---- the pointer

const on = (of, kind, act, told) => of.addEventListener(kind, act, told);
const tip = $("tip"), axis = $("axis"), xOf = event => event.clientX - area.getBoundingClientRect().left;
const rowAt = ({ currentTarget, clientY }) => currentTarget === area ? rows[floor((clientY - area.getBoundingClientRect().top + area.scrollTop) / pitch)] : undefined;
// The plot and the tick under the pointer; on the strip of the whole run the tick there.
const placeAt = event => {
  const x = xOf(event), width = area.clientWidth;
  if (event.currentTarget === axis && event.offsetY < 40) return x > gutter ? { tick: strip(width).tick(x), whole: true } : undefined;
  const plot = plotsFor(width).find(one => x >= one.x - 10 && x <= one.x + one.wide + 14);
  return plot && { plot, tick: plot.tick(x) };
};
const showTip = (event, at) => {
  const one = now.near?.one && (at ? at.plot.find(now.near.one) : now.near.one), { style } = tip;
  tip.hidden = !one || !!drag;
  if (tip.hidden) return;
  tip.replaceChildren(el("b", {}, one.name), ...factsOf(one).map(([name, parts], at) => el("div", { className: at || !one.failed ? "" : "bad" }, at > 2 ? `${name} ` : "", inText(parts))));
  style.left = `${max(4, min(innerWidth - tip.offsetWidth - 8, event.clientX + 16))}px`;
  style.top = `${min(innerHeight - tip.offsetHeight - 8, event.clientY + 24)}px`;
};
const wheel = event => {
  const at = placeAt(event), { deltaX, deltaY, shiftKey } = event, flat = event.currentTarget === axis || area.scrollHeight <= area.clientHeight + 1;
  const across = shiftKey ? deltaY || deltaX : Math.abs(deltaX) > Math.abs(deltaY) && deltaX;
  if (!at || !(across || flat || event.ctrlKey || event.metaKey)) return;
  event.preventDefault();
  across ? panBy(across / 1200) : zoomBy(Math.exp(max(-1, min(1, deltaY / 400))), at.tick);
};
for (const of of [area, axis]) {
  on(of, "wheel", wheel, { passive: false });
  on(of, "dblclick", event => { if (placeAt(event)) fit(); });
  on(of, "pointerleave", () => { now.near = pointer = null; tip.hidden = true; plan(); });
  on(of, "pointermove", event => {
    const at = placeAt(event);
    now.near = rowAt(event);
    pointer = at ? at.tick : null;
    if (drag && at) drag.moved ||= Math.abs(event.clientX - drag.x) > 4;
    showTip(event, at);
    plan();
  });
  on(of, "pointerdown", event => {
    const at = placeAt(event);
    if (event.button || event.offsetX >= area.clientWidth || !at) return;
    drag = { x: event.clientX, from: at.tick, whole: at.whole, moved: false };
    of.setPointerCapture(event.pointerId);
  });
  // What was drawn out is zoomed to; a press alone chooses a stage, opens a group, or goes to a place on the strip.
  on(of, "pointerup", event => {
    const was = drag, at = rowAt(event), room = (now.to - now.from) / 2;
    drag = null;
    plan();
    if (was?.moved) return pointer !== null && pointer !== was.from && zoomTo(min(was.from, pointer), max(was.from, pointer));
    if (was?.whole) return zoomTo(was.from - room, was.from + room);
    if (!at || event.button) return;
    if (at.children.length && (!at.one || xOf(event) < 24 + at.depth * 13)) { now.at = at.one ? null : at; toggle(!at.open, [at]); }
    else if (isHere(at.one)) choose(at.one, true);
  });
}
on(area, "scroll", plan);

// ---- keys

const turnVersion = by => { const next = (model.version + by + versions.length) % versions.length; if (next !== model.version) showVersion(next, besideOf(next)); };
const move = by => () => moveTo(stand().row + by()), screen = () => max(1, floor(area.clientHeight / pitch) - 1);
const KEYS = [
  ["\u2191 \u2193 PgUp PgDn Home End", "the stage above, below, ..", { ArrowUp: move(() => -1), ArrowDown: move(() => 1), PageUp: move(() => -screen()), PageDown: move(screen), Home: () => moveTo(0), End: () => moveTo(rows.length) }],
  ["\u2190 \u2192 Enter o c", "close, open its group; all groups", { o: () => toggle(true, nodes), c: () => toggle(false, nodes),
    ArrowLeft: () => { const at = stand(); at.open && at.children.length ? toggle(false, [at]) : at.parent && moveTo(at.parent.row); },
    ArrowRight: () => { const at = stand(); if (at.children.length) at.open ? moveTo(at.row + 1) : toggle(true, [at]); }, Enter: () => toggle(!stand().open, [stand()]) }],
  ["+ - 0 z", "zoom in, out, to the whole run, to the stage", { "+": () => zoomBy(.6), "=": () => zoomBy(.6), "-": () => zoomBy(1 / .6), 0: fit, z: () => now.chosen && zoomTo(now.chosen.since - 2, (now.chosen.moment ?? model.last) + 2) }],
  [", .", "earlier, later", { ",": () => panBy(-.25), ".": () => panBy(.25) }],
  ["p b l", "what the stage waited for, what made it fail, the stage of this page", { p: () => choose(now.chosen?.by), b: () => choose(now.chosen?.blames), l: () => choose(target) }],
  ["f F", "the next failure, the one before", { f: () => step(model.arose, 1), F: () => step(model.arose, -1) }],
  ["/ n N", "find a name, the next one, the one before", { "/": () => $("find").select(), n: () => find(1), N: () => find(-1) }],
  ["v V w", "the next version, the one before; before and after beside each other, or one above the other", { v: () => turnVersion(1), V: () => turnVersion(-1), w: () => asBeside(!now.beside) }],
  ["t ?", "all stages as a table, these keys", { t: () => asTable(!now.table), "?": () => $("keys").showModal() }],
];
const keyed = Object.assign({}, ...KEYS.map(row => row[2]));
on(document, "keydown", event => {
  const { key, target: at } = event, finds = at === $("find"), moves = key.length > 1;
  if (event.ctrlKey || event.metaKey || event.altKey || $("keys").open) return;
  if (key === "Escape") {
    drag = null;
    tip.hidden = true;
    if (finds) { event.preventDefault(); area.focus(); }
    return plan();
  }
  if (finds) return key === "Enter" ? find(event.shiftKey ? -1 : 1) : undefined;
  if (at.tagName === "SELECT" || moves && (now.table || at !== area && at !== document.body) || !Object.hasOwn(keyed, key)) return;
  event.preventDefault();
  tip.hidden = true;
  keyed[key]();
});
on($("find"), "input", () => { now.page = 0; find(1); });
on($("bar"), "click", event => keyed[event.target.dataset.key]?.());

// ---- dark and light, the legend, and paper

const darkly = matchMedia("(prefers-color-scheme: dark)");
const setTheme = dark => {
  document.documentElement.dataset.theme = dark ? "dark" : "light";
  const style = getComputedStyle(document.documentElement);
  for (const colour of document.styleSheets[0].cssRules[0].style) look[colour.slice(2)] = style.getPropertyValue(colour);
  const done = { told: {}, created: 0, moment: 30, bars: null }, ran = (start, to, cut) => ({ ...done, created: 30, bars: { from: 2, start, to, cut } });
  $("legend").replaceChildren(...[
    ["waits", done], ["queued", ran(30, 30, 0), true], ["runs, on the path", ran(2, 30, 0), true], ["runs, beside it", ran(2, 30, 0)], ["cut off", ran(2, 10, 20)], ["failed", { ...done, failed: true }], ["pending", { ...done, moment: null }],
  ].map(([text, one, strong]) => {
    const canvas = el("canvas");
    fitted(canvas, 38, 16);
    drawStage({ x: 2, wide: 32, of: tick => tick + 2 }, one, 8, strong);
    return el("span", {}, canvas, text);
  }), "drag, or the wheel with Ctrl: zoom");
  plan();
};
on(darkly, "change", () => setTheme(darkly.matches));
// On paper: the open rows in strips of forty, in light colours.
on(window, "beforeprint", () => {
  const strips = [], shown = min(rows.length, 400);
  now.near = pointer = null;
  setTheme(false);
  for (let first = 0; first < shown; first += 40) {
    const last = min(shown, first + 40) - 1, canvas = el("canvas");
    fitted(canvas, 1000, 40 + (last - first + 1) * pitch, 2);
    drawAxis(1000, 40);
    clipped(0, 40, 1000, 9999, () => drawRows(1000, first, last, 40));
    canvas.style.width = canvas.style.height = "";
    strips.push(canvas);
  }
  $("paper").replaceChildren(...strips, rows.length > shown ? `The first ${shown} of ${rows.length} open rows.` : "");
});
on(window, "afterprint", () => { setTheme(darkly.matches); $("paper").replaceChildren(); });
new ResizeObserver(plan).observe(area);

// ---- the start

// What tools/try-page asks.
const page = window.whatif = {
  now, look, plotsFor, shownFor, draw, zoomTo, choose, showVersion, modelOf, stepsOf, blameOf, reachOf, fateOf,
  get shown() { return { model, other, changed, rows, nodes, target, pitch }; },
};
const options = (id, list, change) => { $(id).replaceChildren(...list.map(([value, text]) => el("option", { value }, text))); $(id).onchange = () => change($(id).value); };
const listed = versions.map((_, version) => [version, `${version}: ${version ? wordsOf(version) : "the recording"}`]), several = versions.length > 1, spans = model.all.some(isSpan);
options("kind", Object.keys(KINDS).slice(spans ? 0 : 1).map(kind => [kind, `by ${kind}`]), kind => { now.kind = kind; grow(); choose(now.chosen); });
options("after", listed, version => showVersion(+version, besideOf(+version)));
options("before", [["", "nothing"], ["parent", "the one that it was made of"], ...listed], version => {
  now.parent = version === "parent";
  showVersion(model.version, now.parent ? besideOf(model.version) : version === "" ? null : +version);
});
options("how", [["above", "in one row"], ["beside", "side by side"]], how => asBeside(how === "beside"));
$("versions").hidden = !several;
$("kind").value = now.kind = spans ? "span" : "path";
$("keys").append(el("h2", {}, "Keys"), tableOf("Key,", KEYS, ([keys, text]) => [keys.split(" ").map(key => [el("kbd", {}, key), " "]), text], 99)[0],
  el("p", { className: "soft" }, "Dragging zooms to what is selected, a double click shows the whole run; the wheel zooms with Ctrl and moves with Shift."), button("Close", () => $("keys").close()));
setTheme(darkly.matches);
heading();
showVersion(several ? versions.length - 1 : 0, several ? 0 : null);
// As wide as the names that are seen at first, within reason.
gutter = min(320, rows.slice(0, 80).reduce((most, at) => max(most, (at.label ?? at.one.name).length * 7 + (other ? 95 : 50) + at.depth * 13), 190));
choose(target);
draw();
})();
</script>
</body>
</html>
"##
}
