//! What stands before the parts of a page and behind them, whatever they say.
ghost use Rattle.std.specs.Prelude.{◌≡◌, ◌++◌, OnOk};
ghost use Rattle.page_parts.specs.Fixed.{front, back};

use appending::append;
use cov_ground::Memory;

/// The front of a page: its title, its style, what a reader can choose, and the first tag of its main part.
pub const HEAD: &str = "\
<!DOCTYPE html>
<html lang=\"en\">
<head>
<meta charset=\"utf-8\"/>
<meta name=\"viewport\" content=\"width=device-width, initial-scale=1\"/>
<title>Functional coverage</title>
<style>
:root{color-scheme:light dark;--page:#f6f7f9;--card:#fff;--text:#1b2430;--soft:#5b6675;--line:#dde2e9;--met:#1a7f4b;--miss:#b45309;--bad:#b42318;--bar:#2563eb;--rail:#e5e9f0}
@media (prefers-color-scheme:dark){:root{--page:#12161c;--card:#1a2029;--text:#e6eaf0;--soft:#9aa5b4;--line:#2c3543;--met:#4ade80;--miss:#fbbf24;--bad:#f87171;--bar:#60a5fa;--rail:#2c3543}}
*{box-sizing:border-box}
body{margin:0;background:var(--page);color:var(--text);font:15px/1.5 system-ui,sans-serif}
header,main{max-width:76rem;margin:0 auto;padding:1rem}
h1{font-size:1.6rem;margin:.4rem 0}
h2{font-size:1.15rem;margin:0 0 .8rem}
nav{display:flex;flex-wrap:wrap;gap:.3rem 1rem}
a{color:var(--bar)}
section{background:var(--card);border:1px solid var(--line);border-radius:.6rem;padding:1rem;margin:0 0 1rem}
#illegal{border-color:var(--bad)}
#illegal h2,#illegal td{color:var(--bad)}
.overall{display:flex;align-items:center;gap:1rem;margin:0 0 1rem}
.overall strong{font-size:2.6rem;line-height:1}
progress{appearance:none;border:0;border-radius:.3rem;background:var(--rail);height:.6rem;width:8rem;overflow:hidden}
.overall progress{flex:1;height:1rem}
progress::-webkit-progress-bar{background:var(--rail)}
progress::-webkit-progress-value{background:var(--bar)}
progress::-moz-progress-bar{background:var(--bar)}
.met>summary progress::-webkit-progress-value{background:var(--met)}
.met>summary progress::-moz-progress-bar{background:var(--met)}
.miss>summary progress::-webkit-progress-value{background:var(--miss)}
.miss>summary progress::-moz-progress-bar{background:var(--miss)}
dl{display:grid;grid-template-columns:repeat(auto-fill,minmax(8.5rem,1fr));gap:.6rem;margin:0}
dl div{border:1px solid var(--line);border-radius:.4rem;padding:.4rem .6rem}
dl div:last-child{grid-column:1/-1}
dt{color:var(--soft);font-size:.85rem}
dd{margin:0;font-weight:600;overflow-wrap:anywhere}
details{border-top:1px solid var(--line);padding-left:.6rem}
section>details{padding-left:0}
summary{display:flex;flex-wrap:wrap;align-items:center;gap:.2rem .8rem;padding:.35rem .2rem;cursor:pointer}
summary::before{content:\"\\25b8\";color:var(--soft)}
details[open]>summary::before{content:\"\\25be\"}
summary:focus-visible,th:focus-visible{outline:2px solid var(--bar)}
.name{font-weight:600;overflow-wrap:anywhere;flex:1 1 8rem}
.kind,.goal,.share{color:var(--soft);font-size:.85rem}
.kind{width:5.2rem}
.share{min-width:4rem;text-align:right}
summary b{min-width:4.2rem;text-align:right;font-variant-numeric:tabular-nums}
.mark{min-width:2.6rem;font-size:.85rem;font-weight:600}
.met>summary .mark{color:var(--met)}
.miss>summary .mark{color:var(--miss)}
s,tr.out th,tr.out td{color:var(--soft);text-decoration:line-through}
table{border-collapse:collapse;width:100%;display:block;overflow-x:auto;margin:.4rem 0 .8rem}
caption{text-align:left;color:var(--soft);font-size:.85rem;padding:.2rem 0}
th,td{border-bottom:1px solid var(--line);padding:.25rem .6rem;text-align:left;font-weight:400}
thead th{color:var(--soft);font-weight:600;white-space:nowrap}
tbody th{overflow-wrap:anywhere;min-width:8rem;width:60%}
.n{text-align:right;font-variant-numeric:tabular-nums}
tr.hole td,tr.hole th,tr.WARNING td.t:nth-child(2){color:var(--miss)}
tr.covered td.t{color:var(--met)}
tr.ERROR td.t:nth-child(2),tr.FATAL td.t:nth-child(2){color:var(--bad);font-weight:600}
pre{margin:0;overflow-x:auto;font:13px/1.5 ui-monospace,monospace;max-height:30rem}
.curve{margin:0 0 1rem;border-left:1px solid var(--soft);border-bottom:1px solid var(--soft);position:relative}
.curve svg{display:block;width:100%;height:12rem;transform:scaleY(-1)}
.curve polyline{fill:none;stroke:var(--bar);stroke-width:2;vector-effect:non-scaling-stroke}
.curve p{margin:0;color:var(--soft);font-size:.85rem;padding:0 .4rem}
.curve .x{text-align:right}
form{display:flex;flex-wrap:wrap;gap:.6rem 1.2rem;margin:.6rem 0 0}
form[hidden],[data-gone]{display:none}
input[type=search]{font:inherit;padding:.25rem .5rem;border:1px solid var(--line);border-radius:.4rem;background:var(--card);color:inherit;width:16rem;max-width:100%}
@media (max-width:40rem){.kind{width:auto}summary progress{flex:1 1 5rem;width:auto}.goal{display:none}}
@media print{body{background:none}section{border:0;padding:0}form,nav{display:none}progress{print-color-adjust:exact}pre{max-height:none}details::details-content{display:block;content-visibility:visible}}
</style>
</head>
<body>
<header>
<h1>Functional coverage</h1>
<nav aria-label=\"Parts of this page\"><a href=\"#verdict\">Verdict</a> <a href=\"#types\">Types</a> <a href=\"#holes\">Holes</a> <a href=\"#tests\">Tests</a> <a href=\"#ranking\">Ranking</a></nav>
<form id=\"tools\" hidden=\"hidden\">
<label>Filter <input id=\"filter\" type=\"search\"/></label>
<label><input id=\"worst\" type=\"checkbox\"/> Worst first</label>
<label><input id=\"opened\" type=\"checkbox\"/> All open</label>
</form>
</header>
<main>
";

/// The end of a page: its script, which filters and sorts, and the last tags. Without it all is read as it stands.
pub const TAIL: &str = "\
</main>
<script>
\"use strict\";
const all = (where, what) => Array.from(where.querySelectorAll(what));
const byId = (id) => document.getElementById(id);
const blocks = all(document, \"details\");
const rows = all(document, \"tbody > tr\");
blocks.concat(rows).forEach((it, place) => { it.place = place; });
const nameOf = (it) => it.querySelector(\"summary .name, th\").textContent.toLowerCase();

// What has the word in its name is shown, with what it stands in and what stands in it.
function show() {
  const word = byId(\"filter\").value.toLowerCase();
  const hit = (it) => nameOf(it).includes(word);
  const above = (it) => { const up = it.parentElement.closest(\"details\"); return up !== null && (hit(up) || above(up)); };
  const within = (it) => all(it, \"details, tbody > tr\").some(hit);
  for (const it of blocks.concat(rows)) {
    const shown = word === \"\" || hit(it) || above(it) || within(it);
    it.toggleAttribute(\"data-gone\", !shown);
    if (word !== \"\" && it.tagName === \"DETAILS\" && within(it)) it.open = true;
  }
}

// Those beside one another, the least covered first, or as they stood.
function order() {
  const worst = byId(\"worst\").checked;
  const key = (it) => worst ? Number(it.dataset.millionths) : it.place;
  const parents = new Set(blocks.map((it) => it.parentElement));
  for (const parent of parents) {
    const own = Array.from(parent.children).filter((it) => it.tagName === \"DETAILS\");
    own.sort((a, b) => key(a) - key(b) || a.place - b.place).forEach((it) => parent.append(it));
  }
}

function textIn(row, column) { return row.children[column].textContent; }

function compare(a, b) {
  const digits = /^[0-9]+$/;
  if (digits.test(a) && digits.test(b)) { const x = BigInt(a), y = BigInt(b); return x < y ? -1 : x > y ? 1 : 0; }
  return a < b ? -1 : a > b ? 1 : 0;
}

// A table by a column: upwards, downwards, and as it stood.
function sort(head) {
  const body = head.closest(\"table\").tBodies[0];
  const next = { ascending: \"descending\", descending: \"none\" }[head.ariaSort] || \"ascending\";
  all(head.parentElement, \"th\").forEach((it) => it.removeAttribute(\"aria-sort\"));
  head.ariaSort = next;
  const sign = next === \"descending\" ? -1 : 1;
  const column = head.cellIndex;
  const later = (a, b) => next === \"none\" ? 0 : sign * compare(textIn(a, column), textIn(b, column));
  Array.from(body.rows).sort((a, b) => later(a, b) || a.place - b.place).forEach((it) => body.append(it));
}

for (const head of all(document, \"thead th\")) {
  head.tabIndex = 0;
  head.style.cursor = \"pointer\";
  head.title = \"Sort by this column\";
  head.addEventListener(\"click\", () => sort(head));
  head.addEventListener(\"keydown\", (event) => {
    if (event.key === \"Enter\" || event.key === \" \") { event.preventDefault(); sort(head); }
  });
}
const openAll = (open) => blocks.forEach((it) => { it.open = open; });
byId(\"filter\").addEventListener(\"input\", show);
byId(\"worst\").addEventListener(\"change\", order);
byId(\"opened\").addEventListener(\"change\", (event) => openAll(event.target.checked));
byId(\"tools\").addEventListener(\"submit\", (event) => event.preventDefault());
addEventListener(\"beforeprint\", () => openAll(true));
byId(\"tools\").hidden = false;
</script>
</body>
</html>
";

/// Adds what stands before the parts of a page.
#[tactic(auto, unfolding(crate::specs::Fixed::front))]
pub fn append_front(text: &mut Vec<u8>) -> Result<(), Memory>
    ensures { OnOk result (text.new.items ≡ text.old.items ++ front) }
{
    append(text, HEAD.as_bytes())
}

/// Adds what stands behind the parts of a page.
#[tactic(auto, unfolding(crate::specs::Fixed::back))]
pub fn append_back(text: &mut Vec<u8>) -> Result<(), Memory>
    ensures { OnOk result (text.new.items ≡ text.old.items ++ back) }
{
    append(text, TAIL.as_bytes())
}
