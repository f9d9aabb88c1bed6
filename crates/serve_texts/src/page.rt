//! The player: a page for a browser.
//!
//! Without scripts it is a plain page that plays `/live`, asks for a time, and has links. With its script it says whether
//! something is recorded, and lists the links of the file, each to be played or fetched. Of a folder it shows the days and
//! hours that are kept, plays from any time on, and fetches what was recorded between two times. Nothing of it comes from
//! elsewhere. What it asks for stands beside it, so that it works under any path that another server gives a station.
//!
//! The policy in `player.rt`, and that in `specs/Player.antt`, has the hashes of the page's style and of its script. With
//! another style or script they have others: for what stands between the tags, `openssl dgst -sha256 -binary | base64`
//! gives the hash, and a test compares it.

/// The page.
pub const PLAYER: &[u8] = br##"<!doctype html>
<html lang="en">
<head>
<meta charset="utf-8">
<meta name="viewport" content="width=device-width, initial-scale=1">
<title>Station</title>
<style>
:root {
  color-scheme: light dark;
  font: 1rem/1.5 system-ui, sans-serif;
}
body {
  margin: 0 auto;
  max-width: 44rem;
  padding: 1rem;
}
audio {
  display: block;
  margin: 0.5rem 0;
  width: 100%;
}
ul {
  margin: 0;
  padding: 0;
  list-style: none;
}
#list > li {
  border-top: 1px solid GrayText;
  padding: 0.75rem 0;
}
h3, p {
  margin: 0.25rem 0;
  overflow-wrap: anywhere;
}
#list ul, .small {
  font-size: 0.875rem;
}
.actions, form {
  display: flex;
  flex-wrap: wrap;
  gap: 1rem;
  align-items: center;
}
button {
  font: inherit;
  padding: 0.25rem 1rem;
}
nav a {
  display: inline-block;
  padding: 0.25rem 0;
}
.line {
  display: flex;
  flex-wrap: wrap;
  gap: 0.25rem;
  margin: 0.5rem 0;
}
.line button {
  padding: 0.25rem 0.5rem;
}
button[aria-pressed="true"] {
  font-weight: bold;
  text-decoration: underline;
}
input {
  font: inherit;
  max-width: 100%;
}
</style>
</head>
<body>
<main>
<h1>Station</h1>
<section aria-labelledby="live-title">
<h2 id="live-title">Live</h2>
<p id="state" role="status" aria-live="polite"></p>
<audio id="live" controls preload="none" src="live" aria-label="What is recorded now"></audio>
<p class="actions" id="back" hidden><span id="playing" role="status" aria-live="polite"></span>
<button type="button" id="to-live">Back to live</button></p>
</section>
<section id="past" aria-labelledby="past-title">
<h2 id="past-title">What was on the air</h2>
<div id="days" class="line" role="group" aria-label="Days"></div>
<div id="hours" class="line" role="group" aria-label="Hours of the day"></div>
<form id="then" action="from/" method="get">
<label>From <input type="datetime-local" name="at" step="1" required></label>
<button>Play</button>
</form>
<form id="between" hidden>
<label>From <input type="datetime-local" id="since" step="1"></label>
<button type="button" id="set-since">What plays now</button>
<label>to <input type="datetime-local" id="until" step="1"></label>
<button type="button" id="set-until">What plays now</button>
<a id="cut" download hidden>Download what is between</a>
</form>
</section>
<section id="recorded" aria-labelledby="recorded-title" hidden>
<h2 id="recorded-title">Recorded</h2>
<p id="none" hidden>Nothing yet.</p>
<ul id="list" role="list" aria-labelledby="recorded-title"></ul>
</section>
</main>
<nav aria-labelledby="files-title">
<h2 id="files-title">As files</h2>
<ul role="list">
<li><a href="live">What is recorded now</a></li>
<li><a href="all">All that was recorded</a></li>
<li><a href="./">List of what was recorded</a></li>
<li><a href="files">Files and their times</a></li>
<li><a href="status">Numbers of the station</a></li>
</ul>
</nav>
<script>
"use strict";

const byId = (id) => document.getElementById(id);

// An element of this kind, at the end of `parent`.
function add(parent, kind) {
  const node = document.createElement(kind);
  parent.append(node);
  return node;
}

// Says it only if it is new, so that nothing is read aloud twice.
function say(node, text) {
  if (node.textContent !== text) node.textContent = text;
}

function plural(count, noun) {
  return count + " " + noun + (count === 1 ? "" : "s");
}

function sizeOf(bytes) {
  const units = ["bytes", "kB", "MB", "GB", "TB"];
  let unit = 0;
  while (bytes >= 1000 && unit < 4) {
    bytes /= 1000;
    unit += 1;
  }
  return (unit ? bytes.toFixed(1) : bytes) + " " + units[unit];
}

// ---- what is recorded now

const live = byId("live");
let wanted = false;
let retry = 0;

live.addEventListener("play", () => {
  wanted = true;
});

// The time from which on it plays, in milliseconds since 1970, or none if it plays what is live.
let from = null;
// Where the sound stood when the first of it was played.
let origin = null;

const pathOf = (time) => "from/" + new Date(time).toISOString();

// Lets go of the stream. What is played next is what is recorded then.
function letGo() {
  origin = null;
  live.src = from === null ? "live" : pathOf(from);
}

live.addEventListener("pause", () => {
  if (live.ended || live.error || from !== null) return;
  wanted = false;
  letGo();
});

function playAgain() {
  if (!wanted || retry) return;
  retry = setTimeout(() => {
    retry = 0;
    if (!wanted) return;
    if (from !== null) from = playsNow();
    letGo();
    live.play().catch(() => {});
  }, 3000);
}

live.addEventListener("ended", playAgain);
live.addEventListener("error", playAgain);

// One sound at a time.
document.addEventListener("play", (event) => {
  for (const audio of document.querySelectorAll("audio")) {
    if (audio !== event.target) audio.pause();
  }
}, true);

let since = 0;

function sayState(status) {
  const number = (name) => {
    const line = status.match(new RegExp("^kudzuturret_" + name + " (\\d+)$", "m"));
    return line ? Number(line[1]) : 0;
  };
  if (!number("on_air")) {
    since = 0;
    say(byId("state"), "Nothing is recorded now.");
    return;
  }
  const began = Date.now() - 1000 * number("on_air_seconds");
  if (Math.abs(began - since) > 5000) since = began;
  say(byId("state"), "On the air since " + new Date(since).toLocaleString([], {
    dateStyle: "medium", timeStyle: "short",
  }) + ".");
}

// ---- what was on the air

const hour = 3600000;
let files = [];
let day = "";

const dayOf = (time) => new Date(time).toLocaleDateString([], { dateStyle: "medium" });

live.addEventListener("playing", () => {
  if (origin === null) origin = live.currentTime;
});

// Which time plays now.
function playsNow() {
  if (from === null) return Date.now();
  return Math.min(from + 1000 * (origin === null ? 0 : live.currentTime - origin), Date.now());
}

function playFrom(time) {
  from = time;
  wanted = true;
  letGo();
  byId("back").hidden = time === null;
  if (time !== null) say(byId("playing"), "From " + new Date(time).toLocaleString([], {
    dateStyle: "medium", timeStyle: "medium",
  }));
  live.play().catch(() => {});
}

byId("to-live").addEventListener("click", () => playFrom(null));

byId("then").addEventListener("submit", (event) => {
  event.preventDefault();
  const time = new Date(byId("then").elements.at.value).getTime();
  if (!Number.isNaN(time)) playFrom(time);
});

// Has a line these buttons: each its text, whether it is chosen, and what it does.
function showLine(line, buttons) {
  while (line.children.length > buttons.length) line.lastChild.remove();
  buttons.forEach(([text, chosen, act], index) => {
    const button = line.children[index] || add(line, "button");
    button.type = "button";
    say(button, text);
    button.setAttribute("aria-pressed", chosen);
    button.onclick = act;
  });
}

function showHours() {
  const hours = new Map();
  for (const { begin, end } of files) {
    for (let time = begin; time <= end; time = Math.floor(time / hour + 1) * hour) {
      if (dayOf(time) === day) {
        const name = new Date(time).toLocaleTimeString([], { hour: "2-digit", minute: "2-digit" });
        if (!hours.has(Math.floor(time / hour))) hours.set(Math.floor(time / hour), [name, time]);
      }
    }
  }
  showLine(byId("hours"), [...hours.values()].map(([name, time]) => [name, false, () => playFrom(time)]));
}

function showDays() {
  const days = [];
  for (const { begin, end } of files) {
    for (let time = begin; time < end + 24 * hour; time += 24 * hour) {
      const name = dayOf(Math.min(time, end));
      if (days[days.length - 1] !== name) days.push(name);
    }
  }
  if (!days.includes(day)) day = days[days.length - 1] || "";
  showLine(byId("days"), days.map((name) => [name, name === day, () => {
    day = name;
    showDays();
  }]));
  showHours();
}

// The files of a list, with their times.
function filesOf(list) {
  return list.split("\n").map((line) => line.split(" ")).filter((words) => words[0] === "file").map((words) => (
    { begin: Date.parse(words[2]), end: Date.parse(words[3]) }));
}

// The value of a field for this time: as the clock here shows it.
function fieldOf(time) {
  const shown = new Date(time - 60000 * new Date(time).getTimezoneOffset());
  return shown.toISOString().slice(0, 19);
}

function showCut() {
  const [since, until] = ["since", "until"].map((id) => new Date(byId(id).value).getTime());
  const good = since < until && until <= Date.now();
  byId("cut").hidden = !good;
  if (good) byId("cut").href = pathOf(since) + "/to/" + new Date(until).toISOString();
}

for (const id of ["since", "until"]) {
  byId(id).addEventListener("input", showCut);
  byId("set-" + id).addEventListener("click", () => {
    byId(id).value = fieldOf(playsNow());
    showCut();
  });
}

// A station over one file lists none.
async function refreshFiles() {
  files = filesOf(await textOf("files"));
  byId("past").hidden = byId("between").hidden = !files.length;
  showDays();
}

// ---- what was recorded

// The links of a listing, each with its streams.
function linksOf(listing) {
  const links = [];
  for (const line of listing.split("\n")) {
    const words = line.split(" ");
    if (words[0] === "link") {
      links.push({ number: Number(words[1]), size: Number(words[3]), streams: [] });
    } else if (words[0] === "stream" && links.length) {
      links[links.length - 1].streams.push({
        serial: words[1], size: Number(words[2]), open: words[4] === "open",
      });
    }
  }
  return links;
}

const shown = [];

function newRow(number) {
  const name = "link " + number;
  const row = document.createElement("li");
  add(row, "h3").textContent = "Link " + number;
  const what = add(row, "p");
  const streams = add(row, "ul");
  streams.setAttribute("role", "list");
  streams.setAttribute("aria-label", "Streams of " + name);
  const actions = add(row, "div");
  actions.className = "actions";
  const play = add(actions, "button");
  play.type = "button";
  play.textContent = "Play";
  play.setAttribute("aria-label", "Play " + name);
  play.addEventListener("click", () => {
    const audio = document.createElement("audio");
    audio.controls = true;
    audio.preload = "none";
    audio.src = "link/" + number;
    audio.setAttribute("aria-label", "Player of " + name);
    actions.before(audio);
    play.remove();
    audio.focus();
    audio.play().catch(() => {});
  });
  const fetched = add(actions, "a");
  fetched.href = "link/" + number;
  fetched.download = "link-" + number + ".ogg";
  fetched.textContent = "Download";
  fetched.setAttribute("aria-label", "Download " + name);
  byId("list").prepend(row);
  return { row, what, streams };
}

function showLinks(links) {
  while (shown.length > links.length) shown.pop().row.remove();
  for (const link of links) {
    if (link.number === shown.length) shown.push(newRow(link.number));
    const { what, streams } = shown[link.number];
    const open = link.streams.some((stream) => stream.open);
    say(what, sizeOf(link.size) + ", " + plural(link.streams.length, "stream")
      + (open ? ", still being recorded" : ""));
    link.streams.forEach((stream, index) => {
      const item = streams.children[index] || add(streams, "li");
      say(item, "Stream " + stream.serial + ": " + sizeOf(stream.size)
        + (stream.open ? ", open" : ", ended"));
    });
    while (streams.children.length > link.streams.length) streams.lastChild.remove();
  }
  byId("none").hidden = links.length > 0;
  byId("recorded").hidden = false;
}

// ---- both, every few seconds

async function textOf(path) {
  const response = await fetch(path, { cache: "no-store" });
  if (!response.ok) throw new Error(path);
  return response.text();
}

async function refresh() {
  try {
    if (!document.hidden) {
      sayState(await textOf("status"));
      showLinks(linksOf(await textOf("./")));
      await refreshFiles();
    }
  } catch (fault) {
    since = 0;
    say(byId("state"), "The station doesn't answer.");
  }
  setTimeout(refresh, 5000);
}

refresh();
</script>
</body>
</html>
"##;
