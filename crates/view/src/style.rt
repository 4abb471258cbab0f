//! The style of the page.

/// The style of the page.
pub(crate) const STYLE: &str = r##":root {
  color-scheme: light dark;
  --paper: #ffffff; --side: #f5f6f8; --ink: #1a1e24; --faint: #56606b; --rule: #d3d8de;
  --link: #8a94a0; --down: #b4bcc5; --disc: #ffffff; --halo: #ffffff;
  --published: #0b5cad; --chosen: #8a2f9e; --dead: #b3261e; --local: #0b7a4b;
  --query: #b45309; --reply: #0b5cad; --update: #0b7a4b; --notice: #56606b;
  --trace: #f3c9f9; --present: #fff1c9; --mark: #ffe59a; --focus: #0b5cad;
  --origin-0: #b3261e; --origin-0-ink: #ffffff; --origin-1: #f2a900; --origin-1-ink: #000000;
  --origin-2: #174ea6; --origin-2-ink: #ffffff; --origin-3: #86cbf7; --origin-3-ink: #000000;
}
@media (prefers-color-scheme: dark) {
  :root {
    --paper: #14171b; --side: #1c2026; --ink: #e8ebee; --faint: #a3adb8; --rule: #363d46;
    --link: #75808c; --down: #4d5661; --disc: #232931; --halo: #14171b;
    --published: #6db3f2; --chosen: #dc8cf0; --dead: #ff8a80; --local: #5bd69d;
    --query: #ffb454; --reply: #6db3f2; --update: #5bd69d; --notice: #a3adb8;
    --trace: #5a2f63; --present: #4a3d12; --mark: #5e4d14; --focus: #6db3f2;
    --origin-0: #ff8a80; --origin-0-ink: #000000; --origin-1: #f2b632; --origin-1-ink: #000000;
    --origin-2: #4f86e8; --origin-2-ink: #000000; --origin-3: #9ad7fb; --origin-3-ink: #000000;
  }
}
* { box-sizing: border-box; }
html, body { height: 100%; margin: 0; }
body { display: flex; flex-direction: column; background: var(--paper); color: var(--ink); font: 14px/1.4 system-ui, sans-serif; }
[hidden] { display: none !important; }
header { display: flex; flex-wrap: wrap; align-items: baseline; gap: 4px 20px; padding: 8px 14px; border-bottom: 1px solid var(--rule); }
h1 { margin: 0; font-size: 17px; }
h2 { margin: 0 0 4px; font-size: 14px; }
h3 { margin: 6px 0 2px; font-size: 13px; }
p { margin: 0; }
#summary, .faint { color: var(--faint); }
.faint { font-size: 12px; }
.choice { display: flex; gap: 6px; align-items: baseline; }
#fault { margin: 14px; padding: 10px; border: 2px solid var(--dead); }
main { flex: 1; min-height: 0; display: grid; grid-template-columns: minmax(0, 1fr) minmax(340px, 420px); }
#stage { display: flex; flex-direction: column; min-height: 0; min-width: 0; }
#map { position: relative; flex: 1; min-height: 240px; }
#graph { position: absolute; inset: 0; width: 100%; height: 100%; cursor: grab; touch-action: none; user-select: none; }
#zoom { margin-left: auto; display: flex; gap: 4px; }
#controls { padding: 6px 14px 10px; border-top: 1px solid var(--rule); }
#step { font-size: 16px; min-height: 1.5em; font-variant-numeric: tabular-nums; }
#told, #sparse { color: var(--faint); font-size: 14px; }
#activity { display: block; width: 100%; height: 36px; margin-top: 4px; padding: 0 8px; border-bottom: 1px solid var(--rule); }
#activity-active { fill: var(--origin-1); stroke: var(--origin-1); stroke-width: 1; vector-effect: non-scaling-stroke; }
#activity-asked { stroke: var(--query); stroke-width: 1; vector-effect: non-scaling-stroke; }
#activity-now { stroke: var(--ink); stroke-width: 1.5; vector-effect: non-scaling-stroke; }
#slider { display: block; width: 100%; margin: 2px 0 6px; accent-color: var(--published); }
.row { display: flex; flex-wrap: wrap; gap: 6px; align-items: baseline; }
.gap { flex: 1; }
button, select, input { font: inherit; color: inherit; background: var(--paper); border: 1px solid var(--link); border-radius: 5px; padding: 2px 8px; }
input[type="checkbox"], #slider { padding: 0; }
button { cursor: pointer; }
button:disabled { color: var(--faint); border-color: var(--rule); cursor: default; }
#play { min-width: 5em; }
#goto { width: 7em; }
input[aria-invalid="true"] { border-color: var(--dead); outline: 1px solid var(--dead); }
:focus-visible { outline: 2px solid var(--focus); outline-offset: 1px; }
aside { overflow-y: auto; padding: 10px 14px; background: var(--side); border-left: 1px solid var(--rule); }
aside section, aside details { padding-bottom: 10px; margin-bottom: 10px; border-bottom: 1px solid var(--rule); }
.check { font-size: 13px; }
#log { list-style: none; margin: 4px 0 0; padding: 0; font-size: 12.5px; }
#log li { height: 21px; border-left: 3px solid transparent; }
#log li.present { background: var(--present); border-color: var(--ink); }
#log li.empty button { visibility: hidden; }
#log button { display: flex; gap: 6px; width: 100%; height: 21px; padding: 1px 4px; border: 0; background: none; text-align: left; white-space: nowrap; overflow: hidden; }
#log li.coming .words, #log li.coming .number { color: var(--faint); }
#log .number { flex: none; min-width: var(--digits); text-align: right; font-variant-numeric: tabular-nums; }
#log .sign { flex: none; width: 1em; text-align: center; }
#log .words { overflow: hidden; text-overflow: ellipsis; }
.sign.query, li.query { color: var(--query); }
.sign.reply, li.reply { color: var(--reply); }
.sign.update, li.update { color: var(--update); }
.sign.active { color: var(--query); }
.sign.passive { color: var(--ink); }
li.notice { color: var(--notice); }
#trace-line { margin-top: 4px; font-weight: 600; overflow-wrap: anywhere; max-height: 124px; overflow-y: auto; }
#trace-hops, #link-queues ol { margin: 2px 0; padding-left: 2.2em; font-size: 13px; max-height: 220px; overflow-y: auto; }
.wide { overflow-x: auto; margin-top: 4px; }
table { border-collapse: collapse; font-size: 12.5px; white-space: nowrap; }
th, td { text-align: left; padding: 1px 8px 1px 0; font-weight: 400; border-bottom: 1px solid var(--rule); }
thead th { color: var(--faint); }
tr.chosen th { font-weight: 700; }
td:last-child { white-space: normal; min-width: 7em; }
td.active { font-weight: 700; }
#router-links { list-style: none; display: flex; flex-wrap: wrap; gap: 4px; margin: 6px 0 0; padding: 0; }
#router-links button { font-size: 12px; padding: 0 6px; }
#legend summary { font-weight: 700; cursor: pointer; }
#signs { list-style: none; margin: 6px 0; padding: 0; font-size: 13px; }
#signs li { display: flex; gap: 8px; align-items: center; margin: 3px 0; }
#signs svg { flex: none; overflow: visible; --size: 0.8; }
kbd { font: inherit; border: 1px solid var(--rule); border-radius: 3px; padding: 0 4px; background: var(--paper); }

/* The drawing. */
svg text { fill: var(--ink); text-anchor: middle; dominant-baseline: central; font-family: system-ui, sans-serif; pointer-events: none; }
.link { stroke: var(--link); stroke-width: calc(0.7px + 1.1px * var(--size)); }
.link.down { stroke: var(--down); stroke-dasharray: 3 5; stroke-width: calc(0.6px + 0.9px * var(--size)); }
.dense .link.up { stroke-opacity: 0.32; }
.dense .link.down { stroke-opacity: 0.5; }
.link.link.selected { stroke: var(--ink); stroke-opacity: 1; stroke-width: calc(1px + 2.2px * var(--size)); }
#link-acting { stroke: var(--mark); stroke-width: calc(5px + 9px * var(--size)); stroke-linecap: round; pointer-events: none; }
.hit { stroke: transparent; stroke-width: calc(4px + 8px * var(--size)); cursor: pointer; }
.cost { font-size: calc(2px + 10px * var(--size)); fill: var(--faint); paint-order: stroke; stroke: var(--halo); stroke-width: 2.5px; }
.cost.down { opacity: 0.75; }
.crowded .cost { display: none; }
.crowded .cost.near, .enlarged .cost { display: inline; }
.dense.enlarged:not(.close) .cost:not(.near) { display: none; }
.dense .name { display: none; }
.dense.enlarged .name, .dense .selected .name, .dense .acting .name, .dense .active .name, .dense .local .name { display: inline; }
.crowded .cost.near { fill: var(--ink); }
.router { cursor: pointer; }
.disc { fill: var(--disc); stroke: var(--ink); stroke-width: calc(0.5px + 1px * var(--size)); }
.home { fill: none; stroke: none; pointer-events: none; }
.local .home { stroke: var(--local); stroke-width: calc(1px + 1.5px * var(--size)); }
.local-chosen .home { stroke: var(--local); stroke-width: calc(1px + 1.2px * var(--size)); stroke-dasharray: 4 3; }
.unheard .disc { stroke-dasharray: 2 3; stroke: var(--faint); }
.unreachable .disc { stroke: var(--dead); stroke-dasharray: calc(5px * var(--size)) calc(3px * var(--size)); stroke-width: calc(0.8px + 1.6px * var(--size)); }
.distance { font-size: calc(3px + 12px * var(--size)); font-weight: 600; }
.distance.infinite { font-size: calc(4px + 16px * var(--size)); }
.distance.long { font-size: calc(1.5px + 8px * var(--size)); }
.name { font-size: calc(3.5px + 9px * var(--size)); fill: var(--faint); paint-order: stroke; stroke: var(--halo); stroke-width: 2.5px; }
.badge { display: none; }
.active .badge { display: inline; }
.badge circle { stroke: var(--paper); stroke-width: 1; }
.digit { font-size: calc(3px + 8.5px * var(--size)); font-weight: 700; }
.active .disc { stroke-width: calc(1.2px + 2.6px * var(--size)); }
.origin-0 .disc { stroke: var(--origin-0); } .origin-0 .badge circle, .origin-0 rect:not(.home) { fill: var(--origin-0); } .origin-0 .digit, .await.origin-0 text { fill: var(--origin-0-ink); }
.origin-1 .disc { stroke: var(--origin-1); } .origin-1 .badge circle, .origin-1 rect:not(.home) { fill: var(--origin-1); } .origin-1 .digit, .await.origin-1 text { fill: var(--origin-1-ink); }
.origin-2 .disc { stroke: var(--origin-2); } .origin-2 .badge circle, .origin-2 rect:not(.home) { fill: var(--origin-2); } .origin-2 .digit, .await.origin-2 text { fill: var(--origin-2-ink); }
.origin-3 .disc { stroke: var(--origin-3); } .origin-3 .badge circle, .origin-3 rect:not(.home) { fill: var(--origin-3); } .origin-3 .digit, .await.origin-3 text { fill: var(--origin-3-ink); }
.await { pointer-events: none; }
.await rect { stroke: var(--paper); stroke-width: 0.8; }
.await text { font-size: calc(2.5px + 9px * var(--size)); font-weight: 700; }
#ring-acting { fill: var(--mark); stroke: var(--ink); stroke-width: 0.8; stroke-dasharray: 1 2; pointer-events: none; }
#ring-selected { fill: none; stroke: var(--ink); stroke-width: 1.6; pointer-events: none; }
.none { display: none; }
.router.acting .name, .router.selected .name { fill: var(--ink); font-weight: 700; }
.arrow { pointer-events: none; fill: none; }
.arrow.published { stroke: var(--published); stroke-width: calc(0.6px + 1.7px * var(--size)); }
.arrow.chosen { stroke: var(--chosen); stroke-width: calc(0.6px + 1.4px * var(--size)); stroke-dasharray: calc(6px * var(--size)) calc(4px * var(--size)); }
.arrow.dead { stroke: var(--dead); stroke-dasharray: 4 3; stroke-width: calc(1px + 1.7px * var(--size)); }
.head path { stroke: none; fill: none; }
#head-published path { fill: var(--published); }
#head-chosen path { stroke: var(--chosen); stroke-width: 1.8; }
#head-dead path { stroke: var(--dead); stroke-width: 2.4; }
#layer-queues, #layer-moving { pointer-events: none; }
.item.query > * { fill: var(--query); }
.item.reply > * { fill: var(--reply); }
.item.update > * { fill: var(--update); }
.item > * { stroke: var(--halo); stroke-width: 0.7; }
.item.notice > circle { fill: var(--halo); stroke: var(--notice); stroke-width: 1.1; }
.item.notice > text { fill: var(--notice); stroke: none; font-size: calc(2px + 8px * var(--size)); font-weight: 700; }
.item.other { opacity: 0.35; }
.count { font-size: calc(2.5px + 8px * var(--size)); font-weight: 700; paint-order: stroke; stroke: var(--halo); stroke-width: 2px; }
#layer-trace { pointer-events: none; }
.trace { fill: none; stroke: var(--trace); stroke-width: calc(4px + 10px * var(--size)); stroke-linejoin: round; stroke-linecap: round; }
.trace-start { fill: var(--trace); }
.trace-end { fill: var(--trace); stroke: var(--chosen); stroke-width: 2; }
.trace-end.bad { stroke: var(--dead); stroke-dasharray: 5 3; }

@media (max-width: 900px) {
  html, body { height: auto; }
  main { display: block; }
  #map { height: 60vh; }
}
@media (prefers-reduced-motion: reduce) {
  * { scroll-behavior: auto; }
}
"##;
