//! The page for a browser around the blocks (HTML): its looks and its script. The script writes each text of the input as text, so it can't become a
//! part of the page.

/// What comes before the blocks.
pub const HEAD: &str = r#"<!DOCTYPE html>
<html lang="en">
<head>
<meta charset="utf-8">
<meta http-equiv="Content-Security-Policy" content="default-src 'none'; style-src 'unsafe-inline'; script-src 'unsafe-inline'">
<meta name="viewport" content="width=device-width">
<title>AMQP 1.0</title>
<style>
:root { color-scheme: light dark; --line: #8886; --lit: #ffd54a; --fault: #d32f2f; --name: #00707f; --faint: #777; }
@media (prefers-color-scheme: dark) { :root { --lit: #7a5c00; --fault: #ff6b6b; --name: #4dd0e1; --faint: #999; } }
* { box-sizing: border-box; }
body { margin: 0; height: 100vh; display: grid; grid-template: auto minmax(0, 1fr) / auto minmax(0, 1fr); font: 14px/1.5 system-ui, sans-serif; }
#summary { grid-column: 1 / -1; margin: 0; padding: .5em 1em; border-bottom: 1px solid var(--line); }
#bytes, #tree { overflow: auto; margin: 0; padding: 1em; }
#bytes { border-right: 1px solid var(--line); font-family: ui-monospace, monospace; white-space: nowrap; }
.offset { color: var(--faint); display: inline-block; min-width: 5em; }
.byte { padding: 0 .2em; cursor: pointer; }
.byte.first { box-shadow: inset 2px 0 var(--name); }
.byte.fault { color: var(--fault); font-weight: bold; text-decoration: underline; }
.lit { background: var(--lit); }
#tree ul { margin: 0; padding-left: 1.4em; }
#tree, #tree ul { list-style: none; }
#tree li > .line { display: inline-block; padding: 0 .3em; cursor: pointer; }
#tree li[aria-expanded] > .line::before { content: "\25be\a0"; color: var(--faint); }
#tree li[aria-expanded="false"] > .line::before { content: "\25b8\a0"; }
#tree li[aria-expanded="false"] > ul { display: none; }
#tree li:focus { outline: none; }
#tree li:focus > .line { outline: 2px solid var(--name); }
.name { color: var(--name); }
.note, .default { color: var(--faint); }
.longer { color: #b26a00; }
li.fault > .line, .faults { color: var(--fault); }
</style>
</head>
<body>
<p id="summary"></p>
<div id="bytes" tabindex="0" aria-label="bytes"></div>
<ul id="tree" role="tree" aria-label="values"></ul>
"#;

/// What comes behind them.
pub const END: &str = r#"<script>
"use strict";
const bytesPane = document.getElementById("bytes");
const tree = document.getElementById("tree");
// The elements of the bytes, the digits of the bytes, and the items of the tree, each in the order of the input.
const cells = [];
const digits = [];
const items = [];
let row = null;
let chosen = null;

function element(name, className, text) {
  const made = document.createElement(name);
  made.className = className;
  made.textContent = text;
  return made;
}

function addBytes(hex) {
  for (let i = 0; i < hex.length; i += 2) {
    const at = cells.length;
    if (at % 16 === 0) {
      row = element("div", "row", "");
      row.append(element("span", "offset", String(at)));
      bytesPane.append(row);
    }
    const cell = element("span", "byte", hex.slice(i, i + 2));
    cell.dataset.at = at;
    row.append(cell);
    cells.push(cell);
    digits.push(hex.slice(i, i + 2));
  }
}

// Adds an item whose bytes are a span, with the pieces of its line: each is a class and a text.
function addItem(list, span, pieces) {
  const item = element("li", "", "");
  item.setAttribute("role", "treeitem");
  item.tabIndex = -1;
  const line = element("span", "line", "");
  for (const [className, text] of pieces) {
    line.append(element("span", className, text));
  }
  item.append(line);
  item.span = span;
  list.append(item);
  items.push(item);
  return item;
}

function listIn(item) {
  if (!item.list) {
    item.list = element("ul", "", "");
    item.list.setAttribute("role", "group");
    item.setAttribute("aria-expanded", "true");
    item.append(item.list);
  }
  return item.list;
}

function place([from, to]) {
  return `${to - from} byte${to - from === 1 ? "" : "s"} at ${from}`;
}

// A number as it is in the bytes: numbers of JSON are rounded in a script if they are large.
function exactNumber(value) {
  if (Number.isSafeInteger(value.value)) {
    return String(value.value);
  }
  const number = BigInt("0x" + digits.slice(value.span[1] - 8, value.span[1]).join(""));
  return String(value.type === "ulong" ? number : BigInt.asIntN(64, number));
}

function textOf(value) {
  switch (typeof value.value) {
    case "number": return exactNumber(value);
    case "string": return /^(string|symbol|char)$/.test(value.type) ? JSON.stringify(value.value) : value.value;
    case "boolean": return String(value.value);
    default: return "";
  }
}

function countOf(value) {
  const inside = value.items || value.pairs;
  return inside ? ` of ${inside.length}` : "";
}

function addValue(list, name, value) {
  const pieces = name ? [["name", name], ["", ": "]] : [];
  if ("default" in value) {
    pieces.push(["default", `${value.default} (default)`]);
    return addItem(list, value.span, pieces);
  }
  const text = textOf(value);
  pieces.push(["", text], ["note", `${text && " "}${value.type}${countOf(value)}, ${place(value.span)}`]);
  if (value.broken) {
    pieces.push(["faults", " broken"]);
  }
  if (value["canonical-descriptor"]) {
    pieces.push(["longer", ` descriptor not canonical: ${value["canonical-descriptor"]}`]);
  }
  if (value.canonical) {
    pieces.push(["longer", ` not canonical: ${value.canonical}`]);
  }
  const item = addItem(list, value.span, pieces);
  addParts(item, value);
  return item;
}

function addParts(item, value) {
  for (const [name, part] of inOrder({...value.fields, ...value.parts})) {
    addValue(listIn(item), name, part);
  }
  (value.items || []).forEach((part, index) => addValue(listIn(item), `[${index}]`, part));
  for (const pair of value.pairs || []) {
    const key = addValue(listIn(item), "", pair.key);
    if (pair.value) {
      addValue(listIn(key), "", pair.value);
    }
  }
}

// Members by the places of their values. What is left out has the place of what comes next, so it comes first.
function inOrder(members) {
  return Object.entries(members).sort(([, a], [, b]) => a.span[0] - b.span[0] || a.span[1] - b.span[1]);
}

function addFrame(block) {
  const [from, to] = block.span;
  const name = block.value ? block.value.type : block.what === "frame" ? "empty" : "";
  const about = [block.type === "sasl" ? "SASL" : "", "channel" in block ? `channel ${block.channel}` : "", name];
  const text = about.filter((part) => part).join(", ");
  const item = addItem(tree, block.span, [["name", block.what], ["", `: ${text}`], ["note", ` ${place(block.span)}`]]);
  if (block.what === "frame") {
    addItem(listIn(item), [from, from + 8], [["name", "header"], ["note", ` ${place([from, from + 8])}`]]);
  }
  if (block.extended) {
    addItem(listIn(item), block.extended, [["name", "extended header"], ["note", ` ${place(block.extended)}`]]);
  }
  if (block.value) {
    addValue(listIn(item), "", block.value);
  }
  if (block.payload) {
    const payload = addItem(listIn(item), block.payload, [["name", "payload"], ["note", ` ${place(block.payload)}`]]);
    (block.message || []).forEach((section) => addValue(listIn(payload), "", section));
  }
  if (block.version) {
    addItem(listIn(item), block.span, [["", `protocol ${block.id}, version ${block.version.join(".")}`]]);
  }
  return item;
}

function addFault(item, fault) {
  const path = fault.path && ` ${fault.path}`;
  const text = `${fault.sentence} at byte ${fault.at} (${fault.error})${path}`;
  const line = addItem(listIn(item), [fault.at, fault.at + 1], [["", text]]);
  line.classList.add("fault");
  if (cells[fault.at]) {
    cells[fault.at].classList.add("fault");
  }
}

function addBlock(script) {
  const first = cells.length;
  addBytes(script.dataset.bytes);
  if (cells[first]) {
    cells[first].classList.add("first");
  }
  const block = JSON.parse(script.textContent);
  const isValue = block.what === "section" || block.what === "term";
  const item = isValue && block.value ? addValue(tree, "", block.value) : addFrame(block);
  block.faults.forEach((fault) => addFault(item, fault));
  return block.faults.length;
}

// Lights an item and its bytes.
function light(item) {
  document.querySelectorAll(".lit").forEach((lit) => lit.classList.remove("lit"));
  if (!item) {
    return;
  }
  item.firstChild.classList.add("lit");
  cells.slice(item.span[0], item.span[1]).forEach((cell) => cell.classList.add("lit"));
}

function itemAt(at) {
  return items.findLast((item) => item.span[0] <= at && at < item.span[1] && !item.classList.contains("fault"));
}

function choose(item, focus) {
  if (!item) {
    return;
  }
  if (chosen) {
    chosen.tabIndex = -1;
    chosen.removeAttribute("aria-selected");
  }
  chosen = item;
  item.tabIndex = 0;
  item.setAttribute("aria-selected", "true");
  for (let around = item.parentElement; around !== tree; around = around.parentElement) {
    if (around.hasAttribute("aria-expanded")) {
      around.setAttribute("aria-expanded", "true");
    }
  }
  light(item);
  if (focus) {
    item.focus();
  }
  item.firstChild.scrollIntoView({block: "nearest"});
  const cell = cells[Math.min(item.span[0], cells.length - 1)];
  if (cell) {
    cell.scrollIntoView({block: "nearest"});
  }
}

const isShown = (item) => item.offsetParent !== null;

function expand(item, yes) {
  item.setAttribute("aria-expanded", String(yes));
}

// What a key does in the tree: it returns the item to choose next.
function afterKey(key, item) {
  const shown = items.filter(isShown);
  const index = shown.indexOf(item);
  const isOpen = item.getAttribute("aria-expanded") === "true";
  switch (key) {
    case "ArrowDown": return shown[index + 1];
    case "ArrowUp": return shown[index - 1];
    case "Home": return shown[0];
    case "End": return shown[shown.length - 1];
    case "ArrowRight": return isOpen ? shown[index + 1] : item.list ? (expand(item, true), item) : item;
    case "ArrowLeft": return isOpen ? (expand(item, false), item) : item.parentElement.closest("li") || item;
    default: return undefined;
  }
}

const itemOf = (event) => event.target.closest("li");
const placeOf = (event) => event.target.dataset.at === undefined ? undefined : Number(event.target.dataset.at);

tree.addEventListener("click", (event) => choose(itemOf(event), true));
tree.addEventListener("dblclick", (event) => {
  const item = itemOf(event);
  if (item && item.list) {
    expand(item, item.getAttribute("aria-expanded") !== "true");
  }
});
tree.addEventListener("mouseover", (event) => light(itemOf(event)));
tree.addEventListener("mouseleave", () => light(chosen));
tree.addEventListener("keydown", (event) => {
  const next = afterKey(event.key, itemOf(event));
  if (next) {
    choose(next, true);
    event.preventDefault();
  }
});
bytesPane.addEventListener("click", (event) => choose(itemAt(placeOf(event)), false));
bytesPane.addEventListener("mouseover", (event) => {
  const item = itemAt(placeOf(event));
  if (item) {
    light(item);
  }
});
bytesPane.addEventListener("mouseleave", () => light(chosen));

let blocks = 0;
let faults = 0;
for (const script of document.querySelectorAll("script.block")) {
  blocks += 1;
  faults += addBlock(script);
}
const summary = document.getElementById("summary");
const plural = (count, name) => `${count} ${name}${count === 1 ? "" : "s"}`;
summary.append(`${plural(cells.length, "byte")}, ${plural(blocks, "block")}, `, element("span", faults ? "faults" : "", plural(faults, "fault")));
if (items.length) {
  items[0].tabIndex = 0;
}
</script>
</body>
</html>
"#;
