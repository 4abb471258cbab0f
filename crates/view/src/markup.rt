//! The markup of the page, up to the style, from there up to the states, and so on.

/// The page up to its style.
pub(crate) const HEAD: &str = r##"<!DOCTYPE html>
<html lang="en-GB">
<head>
<meta charset="utf-8">
<meta http-equiv="Content-Security-Policy" content="default-src 'none'; script-src 'unsafe-inline'; style-src 'unsafe-inline'; base-uri 'none'; form-action 'none'">
<meta name="viewport" content="width=device-width, initial-scale=1">
<meta name="color-scheme" content="light dark">
<title>A run of a network that routes by DUAL</title>
<style>
"##;

/// The page from its style up to the states.
pub(crate) const BODY: &str = r##"</style>
</head>
<body>
<header>
  <h1>Run of a network</h1>
  <p id="summary">The states are being read.</p>
  <div id="zoom" role="group" aria-label="Size of the drawing">
    <button type="button" id="zoom-in" aria-label="Larger">+</button>
    <button type="button" id="zoom-out" aria-label="Smaller">&minus;</button>
    <button type="button" id="zoom-fit">Fit</button>
  </div>
  <div class="choice">
    <label for="prefix">Prefix</label>
    <input id="filter" type="search" size="12" placeholder="filter" aria-label="Show only prefixes that contain this" autocomplete="off" spellcheck="false" hidden>
    <select id="prefix"></select>
  </div>
</header>
<p id="fault" role="alert" hidden></p>
<main>
  <section id="stage" aria-label="Network and steps">
    <div id="map">
      <svg id="graph" role="img" aria-labelledby="graph-title" preserveAspectRatio="xMidYMid meet">
        <title id="graph-title">The network</title>
        <defs>
          <marker id="head-published" class="head" viewBox="0 0 10 10" refX="8" refY="5" markerWidth="10" markerHeight="10" markerUnits="userSpaceOnUse" orient="auto"><path d="M0 0L10 5L0 10Z"></path></marker>
          <marker id="head-chosen" class="head" viewBox="0 0 10 10" refX="8" refY="5" markerWidth="9" markerHeight="9" markerUnits="userSpaceOnUse" orient="auto"><path d="M1 1L9 5L1 9"></path></marker>
          <marker id="head-dead" class="head" viewBox="0 0 10 10" refX="5" refY="5" markerWidth="11" markerHeight="11" markerUnits="userSpaceOnUse" orient="auto"><path d="M1 1L9 9M1 9L9 1"></path></marker>
        </defs>
        <line id="link-acting" class="none"></line>
        <g id="layer-links"></g>
        <circle id="ring-acting" class="none"></circle>
        <circle id="ring-selected" class="none"></circle>
        <g id="layer-trace"></g>
        <g id="layer-arrows"></g>
        <g id="layer-costs"></g>
        <g id="layer-queues"></g>
        <g id="layer-awaits"></g>
        <g id="layer-routers"></g>
        <g id="layer-moving"></g>
      </svg>
    </div>
    <div id="controls">
      <p id="step" aria-live="polite"><span id="number"></span> <strong id="command"></strong> <span id="told"></span></p>
      <p id="sparse" hidden></p>
      <svg id="activity" viewBox="0 0 1000 36" preserveAspectRatio="none" aria-hidden="true">
        <path id="activity-asked"></path>
        <path id="activity-active"></path>
        <path id="activity-now"></path>
      </svg>
      <input id="slider" type="range" min="0" max="0" value="0" step="1" aria-label="State">
      <div class="row">
        <button type="button" id="first" title="Home">First</button>
        <button type="button" id="back" title="Left arrow">Back</button>
        <button type="button" id="play" title="Space" aria-pressed="false">Play</button>
        <button type="button" id="on" title="Right arrow">On</button>
        <button type="button" id="last" title="End">Last</button>
        <label for="speed">Speed</label>
        <select id="speed">
          <option value="1">1 a second</option>
          <option value="3" selected>3 a second</option>
          <option value="10">10 a second</option>
          <option value="60">60 a second</option>
          <option value="600">600 a second</option>
        </select>
        <label class="check" id="time" hidden><input type="checkbox" id="by-time"> Slider by time</label>
        <label for="goto">Go to step</label>
        <input id="goto" type="number" min="0" step="1" inputmode="numeric">
        <span class="gap"></span>
        <button type="button" id="event-before" title="p">Previous event (p)</button>
        <button type="button" id="event-after" title="n">Next event (n)</button>
      </div>
      <p class="faint" id="activity-words"></p>
    </div>
  </section>
  <aside>
    <section aria-labelledby="log-title">
      <h2 id="log-title">Events of the prefix</h2>
      <label class="check"><input type="checkbox" id="waves"> Only queries, replies and changes of mode</label>
      <ol id="log"></ol>
    </section>
    <section aria-labelledby="trace-title">
      <h2 id="trace-title">Trace of a packet</h2>
      <div class="row">
        <label for="trace-from">From</label>
        <select id="trace-from"></select>
        <label for="trace-addr">to</label>
        <input id="trace-addr" type="text" size="15" placeholder="10.1.2.3" autocomplete="off" spellcheck="false">
        <button type="button" id="trace-clear">Clear</button>
      </div>
      <p id="trace-line" aria-live="polite"></p>
      <ol id="trace-hops"></ol>
    </section>
    <section id="router-panel" aria-labelledby="router-title">
      <h2 id="router-title">Router</h2>
      <div class="row">
        <label for="router">Show</label>
        <select id="router"></select>
      </div>
      <div id="router-shown" hidden>
        <p id="router-words"></p>
        <div class="wide"><table aria-labelledby="router-title"><thead><tr><th scope="col">Prefix</th><th scope="col">RD</th><th scope="col">FD</th><th scope="col">In force</th><th scope="col">Chosen</th><th scope="col">Mode</th></tr></thead><tbody id="router-table"></tbody></table></div>
        <p class="faint" id="router-more" hidden><span id="router-left"></span> <button type="button" id="router-all">Show all</button></p>
        <ul id="router-links" aria-label="Links of the router"></ul>
      </div>
    </section>
    <section id="link-panel" aria-labelledby="link-title">
      <h2 id="link-title">Link</h2>
      <p id="link-words">Choose a link in the drawing, or at its router above.</p>
      <div id="link-queues"></div>
    </section>
    <details id="legend">
      <summary>What the drawing means</summary>
      <ul id="signs"></ul>
      <p>Keys: <kbd>←</kbd> <kbd>→</kbd> one state; <kbd>Page up</kbd> <kbd>Page down</kbd> a tenth of the run; <kbd>Home</kbd> <kbd>End</kbd>; <kbd>Space</kbd> play and pause; <kbd>n</kbd> <kbd>p</kbd> next event of the prefix and the one before; <kbd>+</kbd> <kbd>-</kbd> <kbd>0</kbd> size of the drawing. The wheel and a drag move it, too.</p>
    </details>
  </aside>
</main>
<noscript><p>This page shows its states by a script, which is part of it.</p></noscript>
<script type="application/x-ndjson" id="states">
"##;

/// The page from the states up to its script.
pub(crate) const FOOT: &str = r##"</script>
<script type="module">
"##;

/// The page after its script.
pub(crate) const END: &str = r##"</script>
</body>
</html>
"##;
