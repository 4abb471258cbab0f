//! The script of the page.

/// The script of the page.
pub(crate) const SCRIPT: &str = r##"'use strict';

// ---- The run: its lines, and the state at any of them.
//
// A place is the position of a state in the list of states, from 0; its number is that of the step
// after which it is. A state's parts are the records as the lines have them, and are never changed.

const run = { text: '', starts: [], opening: null, places: 0, moments: null, interval: 1, copies: [], now: null, scan: null };

// Gives where each line of a text begins that is not empty.
function lineStarts(text) {
  const starts = [];
  for (let at = 0; at < text.length;) {
    const end = text.indexOf('\n', at);
    const next = end < 0 ? text.length : end + 1;
    if (next - at > 2) starts.push(at);
    at = next;
  }
  return starts;
}

// Gives what the state at a place says; at -1 is the opening.
function readChange(place) {
  return JSON.parse(run.text.slice(run.starts[place + 1], run.starts[place + 2]));
}

// Reads the opening, and gives the run its first state.
function readRun(text) {
  run.text = text;
  run.starts = lineStarts(text);
  if (run.starts.length < 2) throw new Error('This page has no states.');
  run.opening = readChange(-1);
  if (run.opening.kind !== 'opening' || run.opening.format !== 1) {
    throw new Error('The states of this page are of a format that it cannot read.');
  }
  run.places = run.starts.length - 1;
  run.moments = readMoments();
  run.interval = Math.max(32, Math.ceil(run.places / 400));
  run.now = emptyState();
  apply(run.now, readChange(0));
  run.copies = [copyOf(run.now)];
  run.scan = newScan();
}

// Gives the moment of each state, in microseconds since the opening; null where the run has none. A text within a
// line has no plain quotation mark, so only the member itself is found.
function readMoments() {
  const momentAt = (place) => /"moment":(\d+)/.exec(run.text.slice(run.starts[place + 1], run.starts[place + 2]));
  if (run.places < 2 || momentAt(1) === null) return null;
  return Array.from({ length: run.places }, (_, place) => Number(momentAt(place)?.[1] ?? 0));
}

// Gives a state without anything in it.
function emptyState() {
  const { routers, links } = run.opening;
  return {
    place: 0,
    links: links.map(() => ({ up: false, session: 0, costs: ['', ''] })),
    routers: routers.map(() => ({ generation: 0, held: 0, ripe: 0, notices: 0 })),
    machines: routers.map(() => []),
    own: routers.map(() => true),
    queues: new Array(2 * links.length).fill([]),
  };
}

// Gives a copy of a state. The two share each router's machines until one of them changes these.
function copyOf(state) {
  state.own.fill(false);
  return {
    place: state.place,
    links: state.links.slice(),
    routers: state.routers.slice(),
    machines: state.machines.slice(),
    own: state.own.slice(),
    queues: state.queues.slice(),
  };
}

// Gives a router's machines such that they may be changed.
function ownMachines(state, router) {
  if (!state.own[router]) {
    state.machines[router] = state.machines[router].slice();
    state.own[router] = true;
  }
  return state.machines[router];
}

// Tells whether an item of a link is a notice of the link itself.
function isNotice(item) {
  return item[0] === 'up' || item[0] === 'down' || item[0] === 'cost';
}

// Parts the items of a queue by a change of it: those that are taken, those that are lost, and those that are left.
function parted(items, { take = 0, lose }) {
  const rest = items.slice(take);
  const [lost, left] = lose ? [rest.filter((item) => !isNotice(item)), rest.filter(isNotice)] : [[], rest];
  return { taken: items.slice(0, take), lost, left };
}

// Changes a state by what a line says.
function apply(state, change) {
  for (const it of change.links ?? []) state.links[it.link] = it;
  for (const it of change.routers ?? []) state.routers[it.router] = it;
  for (const it of change.machines ?? []) ownMachines(state, it.router)[it.prefix] = it;
  for (const it of change.queues ?? []) {
    const place = 2 * it.link + it.end;
    state.queues[place] = parted(state.queues[place], it).left.concat(it.put ?? []);
  }
}

// Changes a state into the next one; keeps a copy at each interval.
function stepOn(state, change) {
  apply(state, change);
  state.place += 1;
  if (state.place === run.copies.length * run.interval) run.copies.push(copyOf(state));
}

// Makes the present state that at a place.
function seek(place) {
  const kept = Math.min(Math.floor(place / run.interval), run.copies.length - 1);
  if (run.now.place > place || run.now.place < kept * run.interval) run.now = copyOf(run.copies[kept]);
  while (run.now.place < place) stepOn(run.now, readChange(run.now.place + 1));
}

// Gives the number of the step after which the state at a place is.
function numberAt(place) {
  return Math.min(place * run.opening.every, run.opening.steps);
}

// Gives the place of the last state that is not after the step of that number.
function placeOf(number) {
  if (number >= run.opening.steps) return run.places - 1;
  return Math.max(0, Math.min(Math.floor(number / run.opening.every), run.places - 1));
}

// Tells whether the slider goes by time, and not by states.
function isByTime() {
  return run.moments !== null && byId('by-time').checked;
}

// Gives where the slider stands for a place.
function slot(place) {
  return isByTime() ? run.moments[place] : place;
}

// Gives the last place for which the slider stands there or before.
function placeAtSlot(value) {
  return isByTime() ? Math.max(0, lastUpTo(run.moments, value)) : value;
}

// Gives how far along the slider a place is, from 0 to 1.
function share(place) {
  return slot(place) / Math.max(1, slot(run.places - 1));
}

// ---- The events of each prefix, found by one walk over all states while the page is idle.

// Gives a walk that is at the first state.
function newScan() {
  const length = Math.max(1, run.opening.prefixes.length);
  return {
    state: copyOf(run.now),
    events: Array.from({ length }, () => ({ places: [], notes: [], waves: [] })),
  };
}

// Tells whether the walk has seen all states.
function isScanned() {
  return run.scan.state.place === run.places - 1;
}

// Notes at a place what happened to a prefix.
function note(prefix, place, what, isWave) {
  const events = run.scan.events[prefix];
  const last = events.places.length - 1;
  if (events.places[last] === place) {
    events.notes[last].push(what);
    events.waves[last] ||= isWave;
  } else {
    events.places.push(place);
    events.notes.push([what]);
    events.waves.push(isWave);
  }
}

// Notes what a change does to the messages of a link.
function noteQueue(state, place, change) {
  const { taken, lost } = parted(state.queues[2 * change.link + change.end], change);
  for (const [how, list] of [['take', taken], ['lose', lost], ['put', change.put ?? []]]) {
    for (const item of list) {
      if (isNotice(item)) continue;
      note(item[1], place, { how, link: change.link, end: change.end, item }, item[0] !== 'update');
    }
  }
}

// Notes what became of a machine.
function noteMachine(state, place, machine) {
  const before = state.machines[machine.router][machine.prefix];
  note(machine.prefix, place, { how: 'machine', before, machine }, before?.active !== machine.active);
}

// Gives by how many the active machines of a prefix are more after what was noted.
function riseOf(notes) {
  const isActive = (machine) => (machine?.active === undefined ? 0 : 1);
  return notes.reduce((sum, { before, machine }) => sum + isActive(machine) - isActive(before), 0);
}

// Walks over one state more.
function scanOne() {
  const { state } = run.scan;
  const place = state.place + 1;
  const change = readChange(place);
  for (const it of change.queues ?? []) noteQueue(state, place, it);
  for (const it of change.machines ?? []) noteMachine(state, place, it);
  stepOn(state, change);
}

// Walks for so many milliseconds.
function scanFor(span) {
  const end = performance.now() + span;
  while (!isScanned() && performance.now() < end) scanOne();
}

// Gives the position of the last of ascending numbers that is not above a bound; -1 where all are.
function lastUpTo(numbers, bound) {
  let low = 0;
  let high = numbers.length;
  while (low < high) {
    const middle = (low + high) >> 1;
    if (numbers[middle] <= bound) low = middle + 1;
    else high = middle;
  }
  return low - 1;
}

// Gives the place of the next event of a prefix, or of the one before; -1 where there is none.
function eventFrom(prefix, place, way, wavesOnly) {
  const events = run.scan.events[prefix];
  let at = way > 0 ? lastUpTo(events.places, place) + 1 : lastUpTo(events.places, place - 1);
  for (;;) {
    while (at >= events.places.length && way > 0 && !isScanned()) scanOne();
    if (at < 0 || at >= events.places.length) return -1;
    if (!wavesOnly || events.waves[at]) return events.places[at];
    at += way;
  }
}

// ---- The network: names, prefixes, and words as the program prints them.

const net = { prefixes: [], order: [], names: new Map(), ports: [] };

// Gives an address of four numbers with points as a number; null where it is none.
function readAddress(text) {
  const parts = text.trim().split('.');
  const isPart = (part) => /^(0|[1-9][0-9]{0,2})$/.test(part) && Number(part) < 256;
  if (parts.length !== 4 || !parts.every(isPart)) return null;
  return parts.reduce((sum, part) => sum * 256 + Number(part), 0);
}

// Gives a prefix as address and length.
function readPrefix(text) {
  const [addr, length] = text.split('/');
  return { text, addr: readAddress(addr), length: Number(length) };
}

// Reads the names, the prefixes in their order, and the links of each router.
function readNetwork() {
  const { routers, links, prefixes } = run.opening;
  net.prefixes = prefixes.map(readPrefix);
  net.order = net.prefixes.map((_, number) => number);
  net.order.sort((p, q) => {
    const [one, other] = [net.prefixes[p], net.prefixes[q]];
    return one.addr - other.addr || one.length - other.length;
  });
  routers.forEach((name, number) => net.names.set(name, number));
  net.ports = routers.map(() => []);
  links.forEach(([a, b], link) => {
    net.ports[a].push({ link, end: 0, other: b });
    net.ports[b].push({ link, end: 1, other: a });
  });
}

// Gives the name of a router.
function nameOf(router) {
  return run.opening.routers[router];
}

// Gives the router at the other end of a link.
function across(link, router) {
  const [a, b] = run.opening.links[link];
  return a === router ? b : a;
}

// Gives the end of a link at which a router is.
function endOf(link, router) {
  return run.opening.links[link][0] === router ? 0 : 1;
}

// Tells whether a row leads over a link.
function isVia(entry) {
  return Array.isArray(entry);
}

// Tells whether two rows are the same.
function isSameEntry(one, other) {
  if (isVia(one) && isVia(other)) return one[0] === other[0] && one[1] === other[1];
  return one === other;
}

// Tells whether a row's link is up in the row's session.
function isLive(state, [link, session]) {
  return state.links[link].up && state.links[link].session === session;
}

// Gives a router's row as the program prints it.
function entryWords(router, entry) {
  if (entry === null || entry === undefined) return 'no row';
  return isVia(entry) ? `via ${nameOf(across(entry[0], router))} ${entry[1]}` : entry;
}

// Gives a distance as the program prints it.
function distanceWords(distance) {
  return distance === null || distance === undefined ? 'inf' : String(distance);
}

// Gives a machine's mode.
function modeWords(machine) {
  return machine.active === undefined ? 'passive' : `active ${machine.active}`;
}

// Gives the names of the neighbours whose replies a machine awaits.
function awaitedWords(machine) {
  return (machine.awaits ?? []).map((link) => nameOf(across(link, machine.router))).join(', ');
}

// Gives the rows that a router published, as the program's `table` prints them.
function tableOf(state, router) {
  const rows = [];
  for (const prefix of net.order) {
    const entry = state.machines[router][prefix]?.published ?? null;
    if (entry !== null) rows.push(`${nameOf(router)} ${net.prefixes[prefix].text} ${entryWords(router, entry)}`);
  }
  return rows;
}

// Gives the prefixes that match an address, the longest first.
function matches(addr) {
  const found = net.order.filter((number) => {
    const { addr: base, length } = net.prefixes[number];
    return length === 0 || ((addr ^ base) >>> (32 - length)) === 0;
  });
  return found.sort((p, q) => net.prefixes[q].length - net.prefixes[p].length);
}

// Gives where a packet goes by the rows in force: its hops, and how it ends.
function traceOf(state, router, addr) {
  const candidates = matches(addr);
  const hops = [];
  const met = new Set();
  for (let at = router, first = -1; ;) {
    const prefix = candidates.find((number) => (state.machines[at][number]?.published ?? null) !== null) ?? -1;
    const entry = prefix < 0 ? null : state.machines[at][prefix].published;
    const again = met.has(at);
    hops.push({ router: at, prefix, entry });
    met.add(at);
    if (again) return { hops, end: 'loop' };
    if (prefix < 0) return { hops, end: 'no route' };
    if (first >= 0 && prefix !== first) return { hops, end: 'crossed' };
    if (entry === 'local') return { hops, end: 'delivered' };
    if (!isVia(entry)) return { hops, end: 'unreachable' };
    if (!isLive(state, entry)) return { hops, end: 'dead link' };
    first = prefix;
    at = across(entry[0], at);
  }
}

// Gives a trace as the program prints it.
function traceWords(router, text, trace) {
  return `trace ${nameOf(router)} ${text}: ${trace.hops.map((hop) => nameOf(hop.router)).join(' ')} ${trace.end}`;
}

// Gives an item of a link in words.
function itemWords(item) {
  if (item[0] === 'down') return 'notice: down';
  if (isNotice(item)) return item[0] === 'up' ? `notice: up, cost ${item[1]}` : `notice: cost ${item[1]}`;
  return `${item[0]} ${net.prefixes[item[1]].text} ${distanceWords(item[2])}`;
}

// Gives what was noted of a message, in words.
function messageNoteWords({ how, link, end, item }) {
  const to = nameOf(run.opening.links[link][end]);
  const from = nameOf(run.opening.links[link][1 - end]);
  const what = `${item[0]} ${distanceWords(item[2])}`;
  if (how === 'put') return `${from} → ${to} ${what} sent`;
  return how === 'take' ? `${to} takes ${what} of ${from}` : `${what} of ${from} to ${to} lost`;
}

// Gives what was noted of a machine, in words.
function machineNoteWords({ before, machine }) {
  const name = nameOf(machine.router);
  const words = [];
  const awaited = awaitedWords(machine);
  if (machine.active !== before?.active) {
    words.push(machine.active === undefined ? 'passive again' : `${modeWords(machine)}, awaits ${awaited}`);
  } else if (machine.active !== undefined && awaited !== awaitedWords(before)) {
    words.push(`still awaits ${awaited}`);
  }
  if (machine.rd !== before?.rd) words.push(`RD ${distanceWords(machine.rd)}`);
  if (machine.fd !== before?.fd) words.push(`FD ${distanceWords(machine.fd)}`);
  for (const [verb, now, then] of [
    ['chooses', machine.chosen, before?.chosen],
    ['publishes', machine.published, before?.published ?? null],
  ]) {
    if (!isSameEntry(now, then)) words.push(`${verb} ${entryWords(machine.router, now)}`);
  }
  return `${name}: ${words.join(', ')}`;
}

const LOG_SIGNS = { active: '◆', passive: '◇', query: '▲', reply: '■', update: '●', row: '·' };

// Gives the sign that stands for notes in the log, and its class.
function signOf(notes) {
  const kinds = notes.map((what) => (what.how === 'machine' ? modeSign(what) : what.item[0]));
  const kind = Object.keys(LOG_SIGNS).find((it) => kinds.includes(it));
  return { kind, sign: LOG_SIGNS[kind] };
}

// Gives whether a machine's note is of its mode.
function modeSign({ before, machine }) {
  if (machine.active === before?.active) return 'row';
  return machine.active === undefined ? 'passive' : 'active';
}

// ---- The layout: computed once, the same each time.

const WIDTH = 1000;
const HEIGHT = 680;
const MARGIN = 44;
const WHOLE = { x: 0, y: 0, width: WIDTH, height: HEIGHT };

// Gives a source of numbers from 0 to 1 that is the same each time.
function sameNumbers() {
  let seed = 1993;
  return () => {
    seed = (Math.imul(seed, 1664525) + 1013904223) >>> 0;
    return seed / 4294967296;
  };
}

// Gives how many links lie between a router and each that it reaches.
function hopsFrom(start) {
  const hops = new Map([[start, 0]]);
  for (const router of hops.keys()) {
    for (const { other } of net.ports[router]) {
      if (!hops.has(other)) hops.set(other, hops.get(router) + 1);
    }
  }
  return hops;
}

// Gives the routers in groups: those that links join, in the order of their first.
function groups() {
  const seen = new Set();
  const found = [];
  net.ports.forEach((_, router) => {
    if (seen.has(router)) return;
    const members = [...hopsFrom(router).keys()];
    members.forEach((member) => seen.add(member));
    found.push(members);
  });
  return found.sort((one, other) => other.length - one.length || one[0] - other[0]);
}

// Gives the routers of a line or a ring in the order in which they stand.
function inLine(members) {
  const start = members.find((router) => net.ports[router].length < 2) ?? members[0];
  const line = [start];
  for (let at = start, from = -1; ;) {
    const next = net.ports[at].map((port) => port.other).filter((other) => other !== from && other !== start);
    if (next.length === 0 || line.length === members.length) return line;
    from = at;
    at = next[0];
    line.push(at);
  }
}

// Gives places for a line of routers: rows that are read to and fro.
function snake(count) {
  const columns = count <= 10 ? count : Math.ceil(Math.sqrt(count * 1.5));
  return Array.from({ length: count }, (_, at) => {
    const row = Math.floor(at / columns);
    const column = at % columns;
    return [row % 2 === 0 ? column : columns - 1 - column, row];
  });
}

// Gives places for a ring: a circle, or where it is long a closed band of rows.
function ringPlaces(count) {
  if (count <= 40) {
    return Array.from({ length: count }, (_, at) => {
      const angle = 2 * Math.PI * (at / count - 0.25 - 0.5 / count * ((count + 1) % 2));
      return [Math.cos(angle) * count / 6, Math.sin(angle) * count / 6];
    });
  }
  const rows = 2 * Math.round(Math.sqrt(count / 1.5) / 2);
  const columns = Math.ceil(count / rows);
  const corners = [];
  for (let row = 0; row < rows; row += 1) {
    for (let column = 1; column < columns; column += 1) corners.push([row % 2 === 0 ? column : columns - column, row]);
  }
  for (let row = rows - 1; row >= 0; row -= 1) corners.push([0, row]);
  return Array.from({ length: count }, (_, at) => corners[Math.floor(at * corners.length / count)]);
}

// Gives places whose distances are near the numbers of links between them, by steps of stress.
function stressPlaces(members) {
  const random = sameNumbers();
  const spots = members.map(() => [random() * 2 * Math.sqrt(members.length), random() * 2 * Math.sqrt(members.length)]);
  const pairs = [];
  members.forEach((router, i) => {
    const hops = hopsFrom(router);
    for (let j = i + 1; j < members.length; j += 1) pairs.push([i, j, hops.get(members[j])]);
  });
  const farthest = Math.max(...pairs.map((pair) => pair[2]));
  const rounds = 80;
  for (let round = 0; round < rounds; round += 1) {
    shuffle(pairs, random);
    const rate = farthest * farthest * Math.pow(0.02 / (farthest * farthest), round / (rounds - 1));
    for (const [i, j, hops] of pairs) pull(spots[i], spots[j], hops, Math.min(1, rate / (hops * hops)));
  }
  return spots;
}

// Puts a list into another order.
function shuffle(list, random) {
  for (let i = list.length - 1; i > 0; i -= 1) {
    const j = Math.floor(random() * (i + 1));
    [list[i], list[j]] = [list[j], list[i]];
  }
}

// Moves two spots towards a distance of each other.
function pull(one, other, wanted, share) {
  const dx = one[0] - other[0] || 1e-6;
  const dy = one[1] - other[1];
  const length = Math.hypot(dx, dy);
  const move = share * (length - wanted) / 2 / length;
  one[0] -= dx * move;
  one[1] -= dy * move;
  other[0] += dx * move;
  other[1] += dy * move;
}

// Gives the least and greatest of the spots.
function boundsOf(spots) {
  const xs = spots.map((spot) => spot[0]);
  const ys = spots.map((spot) => spot[1]);
  const [left, top] = [Math.min(...xs), Math.min(...ys)];
  return { left, top, width: Math.max(...xs) - left, height: Math.max(...ys) - top };
}

// Gives spots turned by an angle.
function turned(spots, angle) {
  const [c, s] = [Math.cos(angle), Math.sin(angle)];
  return spots.map(([x, y]) => [c * x - s * y, s * x + c * y]);
}

// Gives spots turned so that links stand upright or level and the whole fits the drawing.
function wellTurned(spots, members) {
  const at = new Map(members.map((router, i) => [router, i]));
  const joined = run.opening.links.filter(([a]) => at.has(a)).map(([a, b]) => [at.get(a), at.get(b)]);
  let best = { score: Infinity, spots };
  for (let degrees = 0; degrees < 180; degrees += 1) {
    const tried = turned(spots, degrees * Math.PI / 180);
    const slant = joined.reduce((sum, [a, b]) => {
      return sum + Math.sin(2 * Math.atan2(tried[a][1] - tried[b][1], tried[a][0] - tried[b][0])) ** 2;
    }, 0) / Math.max(1, joined.length);
    const { width, height } = boundsOf(tried);
    const filled = Math.sqrt(Math.max(width * height, 1e-9) / (WIDTH * HEIGHT));
    const score = slant + 0.25 * Math.min(Math.max(width / WIDTH, height / HEIGHT) / filled, 4);
    if (score < best.score - 1e-9) best = { score, slant, spots: tried };
  }
  return squared(firstAtLeft(best.spots), best.slant, joined);
}

// Gives spots mirrored so that the first is at the left and at the top.
function firstAtLeft(spots) {
  const { left, top, width, height } = boundsOf(spots);
  const [fx, fy] = [spots[0][0] > left + width / 2 ? -1 : 1, spots[0][1] > top + height / 2 ? -1 : 1];
  return spots.map(([x, y]) => [fx * x, fy * y]);
}

// Gives spots in rows and columns, where links are nearly upright or level and no two spots fall together.
function squared(spots, slant, joined) {
  const [columns, rows] = [0, 1].map((way) => ranksOf(spots, joined, way));
  const whole = spots.map((_, i) => [columns[i], rows[i]]);
  const isFree = new Set(whole.map(String)).size === spots.length;
  return slant < 0.1 && isFree ? whole : spots;
}

// Gives the columns (way 0) or the rows (way 1) of spots by number: upright links join columns, level ones rows.
function ranksOf(spots, joined, way) {
  const group = spots.map((_, i) => i);
  const first = (i) => (group[i] === i ? i : first(group[i]));
  for (const [a, b] of joined) {
    const [aside, ahead] = [way, 1 - way].map((it) => Math.abs(spots[a][it] - spots[b][it]));
    if (3 * aside < ahead) group[first(a)] = first(b);
  }
  const means = new Map();
  spots.forEach((_, i) => {
    const members = spots.filter((__, j) => first(j) === i);
    if (members.length > 0) means.set(i, members.reduce((sum, spot) => sum + spot[way], 0) / members.length);
  });
  const ranks = new Map();
  [...means].sort((a, b) => a[1] - b[1]).reduce(([rank, last], [root, mean]) => {
    const next = mean - last > 0.5 ? rank + 1 : rank;
    ranks.set(root, next);
    return [next, mean];
  }, [-1, -Infinity]);
  return spots.map((_, i) => ranks.get(first(i)));
}

// Spreads spots over a disc so that it is filled evenly; spots of equal rank by distance move along their rays.
function spread(spots) {
  const bounds = boundsOf(spots);
  const [cx, cy] = [bounds.left + bounds.width / 2, bounds.top + bounds.height / 2];
  const ranks = spots.map((spot, i) => [Math.hypot(spot[0] - cx, spot[1] - cy), i]);
  ranks.sort((a, b) => a[0] - b[0] || a[1] - b[1]);
  ranks.forEach(([distance, i], rank) => {
    const radius = Math.sqrt((rank + 0.5) / spots.length) * Math.sqrt(spots.length) / 2;
    const scale = distance === 0 ? 0 : radius / distance;
    spots[i] = [(spots[i][0] - cx) * scale, (spots[i][1] - cy) * scale];
  });
}

// Pushes spots apart until none are nearer than a distance, or the rounds are over.
function pushApart(spots, least) {
  for (let round = 0; round < 120; round += 1) {
    let moved = false;
    for (let i = 0; i < spots.length; i += 1) {
      for (let j = i + 1; j < spots.length; j += 1) {
        const near = Math.abs(spots[i][0] - spots[j][0]) < least && Math.abs(spots[i][1] - spots[j][1]) < least;
        if (near && Math.hypot(spots[i][0] - spots[j][0], spots[i][1] - spots[j][1]) < least) {
          pull(spots[i], spots[j], least, 0.9);
          moved = true;
        }
      }
    }
    if (!moved) return;
  }
}

// Gives the order of a group's routers and a spot for each, about one apart.
function groupPlaces(members) {
  const degrees = members.map((router) => net.ports[router].length);
  if (Math.max(...degrees) <= 2) {
    const isRing = Math.min(...degrees) === 2;
    const line = inLine(members);
    return { members: line, spots: isRing ? ringPlaces(line.length) : snake(line.length) };
  }
  let spots = stressPlaces(members);
  const dense = degrees.reduce((sum, degree) => sum + degree, 0) / members.length > 5 && members.length > 40;
  if (dense) spread(spots);
  spots = wellTurned(spots, members);
  if (dense) spots = spots.map(([x, y]) => [x * Math.sqrt(WIDTH / HEIGHT), y * Math.sqrt(HEIGHT / WIDTH)]);
  pushApart(spots, dense ? 0.82 : 0.5);
  return { members, spots };
}

// Gives each router's place in the drawing. Groups stand side by side in rows.
function layout() {
  const placed = groups().map(groupPlaces).map((group) => ({ ...group, bounds: boundsOf(group.spots) }));
  const area = placed.reduce((sum, { bounds }) => sum + (bounds.width + 1.5) * (bounds.height + 1.5), 0);
  const widest = Math.max(Math.sqrt(area * WIDTH / HEIGHT), ...placed.map(({ bounds }) => bounds.width + 1.5));
  const spots = [];
  let [x, y, deep] = [0, 0, 0];
  for (const { members, spots: own, bounds } of placed) {
    if (x > 0 && x + bounds.width > widest) [x, y, deep] = [0, y + deep, 0];
    members.forEach((router, i) => {
      spots[router] = [x + own[i][0] - bounds.left, y + own[i][1] - bounds.top];
    });
    x += bounds.width + 1.5;
    deep = Math.max(deep, bounds.height + 1.5);
  }
  return fitted(spots);
}

// Gives spots that fill the drawing, each way stretched by at most a third more than the other.
function fitted(spots) {
  const { left, top, width, height } = boundsOf(spots);
  const across = (WIDTH - 2 * MARGIN) / Math.max(width, 1e-9);
  const down = (HEIGHT - 2 * MARGIN) / Math.max(height, 1e-9);
  const least = Math.min(across, down, 280);
  const [sx, sy] = [Math.min(across, least * 1.33), Math.min(down, least * 1.33)];
  return spots.map(([x, y]) => [
    WIDTH / 2 + (x - left - width / 2) * (width ? sx : 0),
    HEIGHT / 2 + (y - top - height / 2) * (height ? sy : 0),
  ]);
}

// Gives how large a router is drawn: by the distance of the nearest ones.
function radiusFor(spots) {
  const nearest = spots.map(([x, y], i) => {
    return spots.reduce((least, [u, v], j) => (i === j ? least : Math.min(least, Math.hypot(x - u, y - v))), 200);
  }).sort((a, b) => a - b);
  return Math.max(6, Math.min(22, 0.3 * nearest[Math.floor(nearest.length / 20)]));
}

// ---- Elements.

const page = {};

// Gives the element of that name.
function byId(id) {
  return document.getElementById(id);
}

// Gives a new element of the drawing.
function svg(tag, attributes = {}, ...children) {
  const element = document.createElementNS('http://www.w3.org/2000/svg', tag);
  for (const [name, value] of Object.entries(attributes)) element.setAttribute(name, value);
  element.append(...children);
  return element;
}

// Gives a new element of the page with a text, and with these properties.
function html(tag, text = '', kind = '', properties = {}) {
  const element = document.createElement(tag);
  if (text !== '') element.textContent = text;
  if (kind !== '') element.className = kind;
  return Object.assign(element, properties);
}

// Sets a text only where it is another.
function setText(element, text) {
  if (element.textContent !== text) element.textContent = text;
}

// ---- The drawing.

// The rest is set when it is drawn. Spots are those of the layout times the factor; sizes follow a router's radius.
const drawing = { timer: 0, queues: new Map() };

const MOST_ROWS = 60;

// What the reader has chosen.
const shown = { place: 0, prefix: 0, router: -1, link: -1, rows: MOST_ROWS, playing: false, owed: 0, time: 0 };

// Gives where a link's end is, and the way from there to the other end.
function wayFrom(link, end) {
  const [x0, y0] = drawing.spots[run.opening.links[link][end]];
  const [x1, y1] = drawing.spots[run.opening.links[link][1 - end]];
  const length = Math.max(1, Math.hypot(x1 - x0, y1 - y0));
  return { x0, y0, length, ux: (x1 - x0) / length, uy: (y1 - y0) / length };
}

// Gives the spot so far along a way and so far to its right.
function along(way, far, right) {
  return [way.x0 + way.ux * far - way.uy * right, way.y0 + way.uy * far + way.ux * right];
}

// Lays the network out, and draws it for the first time.
function placeNetwork() {
  const { links, routers } = run.opening;
  drawing.places = layout();
  drawing.radius = radiusFor(drawing.places);
  drawing.scale = drawing.radius / 18;
  const graph = byId('graph');
  const isDense = links.length > 80 && links.length > 2.5 * routers.length;
  graph.classList.toggle('dense', isDense);
  graph.classList.toggle('crowded', drawing.radius < 16 || links.length > Math.max(80, 1.9 * routers.length));
  graph.style.setProperty('--size', Math.max(0.5, drawing.scale).toFixed(3));
  for (const marker of document.querySelectorAll('.head')) {
    const wide = (marker.id === 'head-published' ? 12 : 11) * Math.max(0.6, drawing.scale);
    marker.setAttribute('markerWidth', wide);
    marker.setAttribute('markerHeight', wide);
  }
  drawing.view = WHOLE;
  drawNetwork(1);
}

// Draws all that does not change, with the ways between the routers stretched by a factor.
function drawNetwork(factor) {
  for (const name of ['links', 'arrows', 'costs', 'queues', 'routers', 'moving']) byId(`layer-${name}`).replaceChildren();
  drawing.factor = factor;
  drawing.spots = drawing.places.map(([x, y]) => [x * factor, y * factor]);
  drawing.queues.clear();
  drawing.names = [];
  drawing.lines = run.opening.links.map((_, link) => drawLink(link));
  drawing.routers = run.opening.routers.map((_, router) => drawRouter(router));
  drawing.arrows = run.opening.routers.map(() => drawArrows());
  drawing.awaits = run.opening.routers.map(() => svg('g'));
  byId('layer-awaits').replaceChildren(...drawing.awaits);
  showView();
}

// Draws a link: its line, a broad one to be hit, and the costs from its ends.
function drawLink(link) {
  const way = wayFrom(link, 0);
  const [x1, y1] = along(way, way.length, 0);
  const ends = { x1: way.x0, y1: way.y0, x2: x1, y2: y1 };
  const line = svg('line', { ...ends, class: 'link' });
  const hit = svg('line', { ...ends, class: 'hit', 'data-link': link });
  byId('layer-links').append(line, hit);
  const costs = [0, 1].map((end) => {
    const there = wayFrom(link, end);
    const far = Math.max(drawing.radius + 12 * drawing.scale, Math.min(there.length * 0.36, drawing.radius * 4));
    const [x, y] = along(there, far, 12 * drawing.scale);
    const text = svg('text', { x, y, class: 'cost' });
    byId('layer-costs').append(text);
    return text;
  });
  return { line, costs, drawn: '' };
}

// Draws a router: its disc, its distance, its name and the marks that it may have.
function drawRouter(router) {
  const [x, y] = drawing.spots[router];
  const r = drawing.radius;
  const half = r + 3.5 * Math.max(0.6, drawing.scale);
  const name = nameSpot(router, half);
  const parts = {
    home: svg('rect', { x: -half, y: -half, width: 2 * half, height: 2 * half, rx: 2.5, class: 'home' }),
    disc: svg('circle', { r, class: 'disc' }),
    distance: svg('text', { class: 'distance', y: 0 }),
    name: svg('text', { class: 'name', x: name.x, y: name.y, style: `text-anchor: ${name.anchor}` }, nameOf(router)),
    badge: svg('g', { class: 'badge', transform: `translate(${badgeSpot(router, r * 1.25, name).join(' ')})` }),
  };
  const b = Math.max(5, 8 * drawing.scale);
  parts.digit = svg('text', { class: 'digit' });
  parts.badge.append(svg('circle', { r: b }), parts.digit);
  parts.title = svg('title');
  const { title, home, disc, distance, badge } = parts;
  const kind = { transform: `translate(${x} ${y})`, 'data-router': router, class: 'router' };
  const group = svg('g', kind, title, home, disc, distance, parts.name, badge);
  byId('layer-routers').append(group);
  return { ...parts, group, drawn: '' };
}

// Gives how far a way from a router leads from its links: 0 along one, 2 away from it.
function freedom(router, x, y) {
  const length = Math.hypot(x, y);
  return net.ports[router].reduce((least, { link, end }) => {
    const way = wayFrom(link, end);
    return Math.min(least, 1 - (way.ux * x + way.uy * y) / length);
  }, 2);
}

// The sides of a router at which its name may stand, the best first.
const SIDES = [
  [0, 1, 'middle'],
  [1, 0, 'start'],
  [-1, 0, 'end'],
  [0, -1, 'middle'],
  [0.75, 0.75, 'start'],
  [-0.75, 0.75, 'end'],
  [-0.75, -0.75, 'end'],
];

// Gives where a router's name stands: on the side that is farthest from its links, below where it may be.
function nameSpot(router, half) {
  const gap = half + 7.5 * Math.max(0.5, drawing.scale);
  const spots = SIDES.map(([x, y, anchor]) => ({ x: x * (anchor === 'middle' ? gap : half + 3), y: y * gap, anchor }));
  const free = spots.map((spot, at) => {
    return Math.min(0.45, freedom(router, SIDES[at][0], SIDES[at][1])) - (isTaken(router, spot) ? 0.4 : 0);
  });
  const best = spots[free.indexOf(Math.max(...free))];
  drawing.names.push(nameMiddle(router, best));
  return best;
}

// Gives the middle of a router's name that stands at a spot beside it.
function nameMiddle(router, { x, y, anchor }) {
  const half = nameOf(router).length * (1.5 + 3 * drawing.scale);
  const [cx, cy] = drawing.spots[router];
  return [cx + x + { start: half, middle: 0, end: -half }[anchor], cy + y, half];
}

// Tells whether another name or another router is where a name would stand.
function isTaken(router, spot) {
  const [x, y, half] = nameMiddle(router, spot);
  const high = 4 + 5 * drawing.scale;
  const meets = (u, v, wide, tall) => Math.abs(u - x) < half + wide && Math.abs(v - y) < high + tall;
  return (
    drawing.names.some(([u, v, other]) => meets(u, v, other, high * 0.6)) ||
    drawing.spots.some(([u, v], at) => at !== router && meets(u, v, drawing.radius, drawing.radius))
  );
}

// Gives where the mark of an active router stands: away from links and name, at the upper right where it may be.
function badgeSpot(router, far, name) {
  const spots = Array.from({ length: 16 }, (_, at) => {
    const angle = (at * 5 % 16) * Math.PI / 8 - Math.PI / 4;
    return [Math.cos(angle), Math.sin(angle)];
  });
  const length = Math.hypot(name.x, name.y);
  const free = spots.map(([x, y]) => Math.min(0.5, freedom(router, x, y), 1 - (x * name.x + y * name.y) / length));
  return spots[free.indexOf(Math.max(...free))].map((part) => part * far);
}

// Draws the two arrows of a router, which lead nowhere yet.
function drawArrows() {
  const arrows = ['published', 'chosen'].map((kind) => svg('line', { class: `arrow ${kind} none` }));
  byId('layer-arrows').append(...arrows);
  return arrows;
}

// Draws the links as they are.
function showLinks(state) {
  drawing.lines.forEach((drawn, link) => {
    const { up, session, costs } = state.links[link];
    const near = link === shown.link || run.opening.links[link].includes(shown.router);
    const key = `${up} ${session} ${costs} ${near} ${link === shown.link}`;
    if (drawn.drawn === key) return;
    drawn.drawn = key;
    const kinds = ['link', up ? 'up' : 'down', link === shown.link ? 'selected' : ''];
    drawn.line.setAttribute('class', kinds.join(' ').trim());
    drawn.costs.forEach((text, end) => {
      setText(text, String(costs[end]));
      text.setAttribute('class', `cost${near ? ' near' : ''}${up ? '' : ' down'}`);
    });
  });
}

// Marks the link or the router that did the step, and the router that the reader chose.
function showRings(place) {
  const { link, router: acting } = actors(place);
  const mark = byId('link-acting');
  mark.classList.toggle('none', link < 0);
  for (const name of link < 0 ? [] : ['x1', 'y1', 'x2', 'y2']) {
    mark.setAttribute(name, drawing.lines[link].line.getAttribute(name));
  }
  for (const [id, router] of [['ring-acting', acting], ['ring-selected', shown.router]]) {
    const ring = byId(id);
    ring.classList.toggle('none', router < 0);
    if (router < 0) continue;
    const [cx, cy] = drawing.spots[router];
    Object.entries({ cx, cy, r: drawing.radius * 1.65 }).forEach(([name, value]) => ring.setAttribute(name, value));
  }
}

// Draws the routers as they are for the chosen prefix.
function showRouters(state) {
  const acting = actors(state.place).router;
  drawing.routers.forEach((drawn, router) => {
    const machine = state.machines[router][shown.prefix];
    const key = `${shown.prefix} ${routerKey(state, machine)} ${router === shown.router} ${router === acting}`;
    if (drawn.drawn === key) return;
    drawn.drawn = key;
    showRouter(drawn, router, machine, router === acting);
    showArrows(state, router, machine);
    showAwaits(router, machine);
  });
}

// Gives all of a machine that the drawing shows.
function routerKey(state, machine) {
  if (!machine) return '';
  const live = [machine.published, machine.chosen].map((entry) => isVia(entry) && isLive(state, entry));
  return [machine.rd, machine.active, machine.awaits, machine.published, machine.chosen, live].join('|');
}

// Draws a router's disc and marks.
function showRouter(drawn, router, machine, isActing) {
  const kinds = ['router'];
  if (router === shown.router) kinds.push('selected');
  if (isActing) kinds.push('acting');
  if (!machine) kinds.push('unheard');
  if (machine?.active !== undefined) kinds.push('active', `origin-${machine.active}`);
  if (machine?.published === 'local') kinds.push('local');
  else if (machine?.chosen === 'local') kinds.push('local-chosen');
  if (machine?.published === 'unreachable') kinds.push('unreachable');
  drawn.group.setAttribute('class', kinds.join(' '));
  setText(drawn.distance, machine ? (machine.rd === null ? '∞' : String(machine.rd)) : '');
  drawn.distance.classList.toggle('long', drawn.distance.textContent.length > 3);
  drawn.distance.classList.toggle('infinite', machine?.rd === null);
  setText(drawn.digit, machine?.active === undefined ? '' : String(machine.active));
  setText(drawn.title, routerWords(router, machine));
}

// Gives a router's machine in one sentence.
function routerWords(router, machine) {
  if (!machine) return `${nameOf(router)} has not heard of the prefix.`;
  const awaits = machine.active === undefined ? '' : `, awaits ${awaitedWords(machine)}`;
  const distances = `RD ${distanceWords(machine.rd)} FD ${distanceWords(machine.fd)}`;
  const rows = `in force: ${entryWords(router, machine.published)}; chosen: ${entryWords(router, machine.chosen)}`;
  return `${nameOf(router)} ${modeWords(machine)} ${distances}${awaits}; ${rows}.`;
}

// Draws the arrow of the published row, and that of the chosen one where it is another.
function showArrows(state, router, machine) {
  const [published, chosen] = drawing.arrows[router];
  const entry = machine?.published ?? null;
  const other = machine && !isSameEntry(machine.chosen, entry) ? machine.chosen : null;
  showArrow(state, published, router, entry, 3.2);
  showArrow(state, chosen, router, other, 7);
}

// Draws an arrow along a row's link, at the right of it; where the hop is dead it ends at the middle, by a cross.
function showArrow(state, line, router, entry, right) {
  const kind = line.classList[1];
  if (!isVia(entry)) {
    line.setAttribute('class', `arrow ${kind} none`);
    return;
  }
  const live = isLive(state, entry);
  const way = wayFrom(entry[0], endOf(entry[0], router));
  const gap = drawing.radius + 2;
  const [x1, y1] = along(way, gap, right * drawing.scale);
  const [x2, y2] = along(way, live ? way.length - gap - 1 : Math.max(gap + 6, way.length * 0.5), right * drawing.scale);
  Object.entries({ x1, y1, x2, y2 }).forEach(([name, value]) => line.setAttribute(name, value.toFixed(2)));
  line.setAttribute('class', `arrow ${kind} ${live ? 'live' : 'dead'}`);
  line.setAttribute('marker-end', `url(#head-${live ? kind : 'dead'})`);
}

// Draws a mark on each link over which a router awaits a reply.
function showAwaits(router, machine) {
  const marks = (machine?.awaits ?? []).map((link) => drawAwait(link, router, machine.active));
  drawing.awaits[router].replaceChildren(...marks);
}

// Gives the mark of a reply that a router, active in an origin state, awaits over a link.
function drawAwait(link, router, origin) {
  const size = Math.max(4.2, 7.5 * drawing.scale);
  const way = wayFrom(link, endOf(link, router));
  const [x, y] = along(way, drawing.radius + size + 6 * Math.max(0.5, drawing.scale), size * 0.95);
  const text = svg('text', {}, '?');
  const box = svg('rect', { x: -size, y: -size, width: 2 * size, height: 2 * size, rx: size / 2.5 });
  return svg('g', { transform: `translate(${x} ${y})`, class: `await origin-${origin}`, 'data-of': router }, box, text);
}

// Gives the shape of an item: update a disc, query a triangle, reply a square, notice a ring with a sign.
function shapeOf(item, size) {
  const kind = isNotice(item) ? 'notice' : item[0];
  const pale = kind !== 'notice' && item[1] !== shown.prefix ? ' other' : '';
  const group = svg('g', { class: `item ${kind}${pale}` });
  const [half, low] = [1.2 * size, 0.9 * size];
  if (kind === 'query') group.append(svg('path', { d: `M0 ${-half}L${half} ${low}L${-half} ${low}Z` }));
  else if (kind === 'reply') group.append(svg('rect', { x: -size, y: -size, width: 2 * size, height: 2 * size }));
  else group.append(svg('circle', { r: size * 1.05 }));
  if (kind === 'notice') group.append(svg('text', {}, { up: '+', down: '−', cost: '=' }[item[0]]));
  return group;
}

// Gives the spot of the item that is taken so many items from now, beside its link near the router that takes it.
function itemSpot(link, end, at) {
  const way = wayFrom(link, end);
  return along(way, drawing.radius + (9 + 13 * at) * Math.max(0.45, drawing.scale), -14 * Math.max(0.5, drawing.scale));
}

// Gives how many items can be drawn beside half a link.
function roomFor(link) {
  const room = wayFrom(link, 0).length * 0.55 - drawing.radius - 9 * drawing.scale;
  return Math.max(1, Math.min(6, Math.floor(room / (13 * Math.max(0.45, drawing.scale)))));
}

// Draws what stands on the links.
function showQueues(state) {
  state.queues.forEach((items, key) => {
    const kept = drawing.queues.get(key);
    if (kept ? kept.items === items && kept.prefix === shown.prefix : items.length === 0) return;
    const group = kept?.group ?? svg('g');
    if (!kept) byId('layer-queues').append(group);
    drawing.queues.set(key, { group, items, prefix: shown.prefix });
    group.replaceChildren(...queueShapes(key >> 1, key & 1, items));
  });
}

// Gives the shapes of a queue: the first items, and a count of the others.
function queueShapes(link, end, items) {
  const size = Math.max(2.4, 5 * drawing.scale);
  const room = roomFor(link);
  const count = items.length <= room ? items.length : Math.max(1, room - 1);
  const shapes = items.slice(0, count).map((item, at) => {
    const [x, y] = itemSpot(link, end, at);
    return svg('g', { transform: `translate(${x} ${y})` }, shapeOf(item, size));
  });
  if (count < items.length) {
    const [x, y] = itemSpot(link, end, count);
    shapes.push(svg('text', { x, y, class: 'count' }, `+${items.length - count}`));
  }
  return shapes;
}

// Moves what a step put and took.
function moveItems(before, change) {
  const changes = change.queues ?? [];
  if (changes.length > 24) return;
  for (const it of changes) {
    movePut(it);
    moveTaken(it, before[2 * it.link + it.end]);
  }
}

// Moves the items that were put from their sender to their spots.
function movePut({ link, end, put = [] }) {
  const kept = drawing.queues.get(2 * link + end);
  const [x, y] = drawing.spots[run.opening.links[link][1 - end]];
  const count = kept ? kept.items.length : 0;
  const isSent = put.some((item) => !isNotice(item));
  for (let at = count - put.length; at < count && isSent; at += 1) {
    const shape = kept.group.children[at]?.firstElementChild;
    if (!shape) return;
    const [u, v] = itemSpot(link, end, at);
    const from = `translate(${x - u}px, ${y - v}px)`;
    shape.animate([{ transform: from }, { transform: 'none' }], { duration: 260, easing: 'ease-out' });
  }
}

// Moves the items that were taken into their router.
function moveTaken({ link, end, take = 0 }, items) {
  const [x, y] = drawing.spots[run.opening.links[link][end]];
  items.slice(0, Math.min(take, 6)).forEach((item, at) => {
    const [u, v] = itemSpot(link, end, at);
    const shape = svg('g', { transform: `translate(${u} ${v})` }, shapeOf(item, Math.max(2.4, 5 * drawing.scale)));
    byId('layer-moving').append(shape);
    const moving = shape.firstElementChild.animate(
      [{ transform: 'none', opacity: 1 }, { transform: `translate(${x - u}px, ${y - v}px)`, opacity: 0.2 }],
      { duration: 260, easing: 'ease-in' },
    );
    moving.onfinish = () => shape.remove();
  });
}

// Gives the words of the step that led to a place.
function stepWords(place) {
  return place === 0 ? '' : readChange(place).step ?? '';
}

// Gives the router and the link that did the step at a place; the one that did not is -1.
function actors(place) {
  const [kind, one, other] = stepWords(place).split(' ');
  const [a, b] = [net.names.get(one), net.names.get(other)];
  const isOfRouter = ['deliver', 'publish', 'release', 'attach', 'detach'].includes(kind);
  const port = ['up', 'down', 'cost'].includes(kind) ? net.ports[a]?.find((it) => it.other === b) : undefined;
  return { router: isOfRouter ? a ?? -1 : -1, link: port?.link ?? -1 };
}

// Sets which part of the layout is seen. Where it is larger, routers grow less than the ways between them.
function setView(view) {
  drawing.view = view;
  showView();
  const factor = Math.max(1, WIDTH / view.width) ** 0.45;
  clearTimeout(drawing.timer);
  if (Math.abs(factor / drawing.factor - 1) > 0.03) drawing.timer = setTimeout(() => { drawNetwork(factor); show(); }, 90);
}

// Shows the part of the layout that is to be seen.
function showView() {
  const { x, y, width, height } = drawing.view;
  const graph = byId('graph');
  graph.setAttribute('viewBox', [x, y, width, height].map((length) => (length * drawing.factor).toFixed(2)).join(' '));
  graph.classList.toggle('enlarged', width < 480);
  graph.classList.toggle('close', width < 260);
}

// Makes the drawing larger or smaller around a spot of it.
function zoomBy(factor, x, y) {
  const { view } = drawing;
  const width = Math.max(60, Math.min(4 * WIDTH, view.width * factor));
  const scale = width / view.width;
  setView({ x: x - (x - view.x) * scale, y: y - (y - view.y) * scale, width, height: view.height * scale });
}

// Makes the drawing larger or smaller around its middle.
function zoomMiddle(factor) {
  const { view } = drawing;
  zoomBy(factor, view.x + view.width / 2, view.y + view.height / 2);
}

// Gives the spot of the layout at which a pointer is.
function spotOf(event) {
  const matrix = byId('graph').getScreenCTM().inverse();
  const point = new DOMPoint(event.clientX, event.clientY).matrixTransform(matrix);
  return [point.x / drawing.factor, point.y / drawing.factor];
}

// ---- The panels.

// Shows the number and the words of the step, and what the prefix is at.
function showStep(state) {
  const { steps, every } = run.opening;
  const moment = run.moments === null ? '' : `, at ${run.moments[state.place]} µs`;
  setText(byId('number'), `Step ${numberAt(state.place)} of ${steps}${moment}:`);
  setText(byId('command'), state.place === 0 ? 'the opening' : stepWords(state.place));
  setText(byId('told'), toldWords(state));
  byId('sparse').hidden = every === 1;
  const slider = byId('slider');
  slider.max = slot(run.places - 1);
  slider.value = slot(state.place);
  slider.setAttribute('aria-valuetext', `step ${numberAt(state.place)} of ${steps}${moment}`);
  byId('back').disabled = byId('first').disabled = state.place === 0;
  byId('on').disabled = byId('last').disabled = state.place === run.places - 1;
}

// Gives what the chosen prefix and the network are at, in words.
function toldWords(state) {
  const active = state.machines.filter((machines) => machines[shown.prefix]?.active !== undefined).length;
  const dead = state.machines.filter((machines) => {
    const entry = machines[shown.prefix]?.published;
    return isVia(entry) && !isLive(state, entry);
  }).length;
  const items = state.queues.reduce((sum, queue) => sum + queue.length, 0);
  const hops = dead === 0 ? '' : `, ${dead} dead ${dead === 1 ? 'hop' : 'hops'}`;
  return `(${active} active${hops}, ${items} on links)`;
}

// Shows how many routers are active over the run, and ticks where something of a diffusing computation happens.
function showActivity() {
  const { places, notes, waves } = run.scan.events[shown.prefix];
  const seen = run.scan.state.place;
  const last = Math.max(1, run.places - 1);
  const columns = new Float64Array(1001);
  let active = 0;
  places.forEach((place, at) => {
    active += riseOf(notes[at]);
    const from = Math.floor(share(place) * 1000);
    const to = Math.floor(share(places[at + 1] ?? seen) * 1000);
    for (let x = from; x <= to; x += 1) columns[x] = Math.max(columns[x], active);
  });
  const peak = Math.max(...columns);
  let path = 'M0 36';
  columns.forEach((count, x) => { path += `L${x} ${(36 - 28 * count / Math.max(1, peak)).toFixed(1)}`; });
  byId('activity-active').setAttribute('d', `${path}L1000 36Z`);
  const ticked = places.filter((_, at) => waves[at]).map((place) => Math.round(share(place) * 1000));
  byId('activity-asked').setAttribute('d', [...new Set(ticked)].map((x) => `M${x} 0V6`).join(''));
  const words = isScanned() ? '' : ` ${Math.floor(100 * seen / last)} per cent of the run has been looked through.`;
  const above = `Above the slider: how many routers are active for the prefix (at most ${peak})`;
  const ticks = 'and ticks where a query or a reply moves or a router’s mode changes.';
  setText(byId('activity-words'), `${above}, ${ticks}${words}`);
}

// Shows where in the run the present state is.
function showNow() {
  const x = (share(shown.place) * 1000).toFixed(1);
  byId('activity-now').setAttribute('d', `M${x} 0V36`);
}

const LOG_SIDE = 8;

// Gives the lines of the log, which are filled anew for each state.
function makeLog() {
  page.log = Array.from({ length: 2 * LOG_SIDE + 1 }, () => {
    const [number, sign, words] = ['number', 'sign', 'words'].map((kind) => html('span', '', kind));
    const parts = { number, sign, words, button: html('button', '', '', { type: 'button' }), item: html('li') };
    parts.sign.setAttribute('aria-hidden', 'true');
    parts.button.append(parts.number, parts.sign, parts.words);
    parts.item.append(parts.button);
    parts.button.addEventListener('click', () => goPlace(Number(parts.button.dataset.place)));
    byId('log').append(parts.item);
    return parts;
  });
}

// Gives the positions of the events that the log shows: those up to a place, and those after it.
function eventsAround(place) {
  const { places, waves } = run.scan.events[shown.prefix];
  const wavesOnly = byId('waves').checked;
  const last = lastUpTo(places, place);
  const listed = (at, way, most) => {
    const found = [];
    for (; at in places && found.length < most; at += way) {
      if (!wavesOnly || waves[at]) found.push(at);
    }
    return found;
  };
  return { before: listed(last, -1, LOG_SIDE + 1).reverse(), after: listed(last + 1, 1, LOG_SIDE) };
}

// Shows the events of the prefix around the present state.
function showLog(place) {
  const { places, notes } = run.scan.events[shown.prefix];
  const { before, after } = eventsAround(place);
  const listed = [...new Array(LOG_SIDE + 1 - before.length).fill(-1), ...before, ...after];
  page.log.forEach((line, row) => {
    const at = listed[row] ?? -1;
    line.item.classList.toggle('empty', at < 0);
    line.button.disabled = at < 0;
    if (at >= 0) showLogLine(line, places[at], notes[at], place);
  });
}

// Shows one event in a line of the log.
function showLogLine(line, at, notes, place) {
  const { kind, sign } = signOf(notes);
  const words = notes.map((it) => (it.how === 'machine' ? machineNoteWords(it) : messageNoteWords(it))).join('; ');
  line.button.dataset.place = at;
  setText(line.number, String(numberAt(at)));
  setText(line.sign, sign);
  line.sign.className = `sign ${kind}`;
  setText(line.words, words);
  line.button.title = `${stepWords(at)}: ${words}`;
  line.item.className = at === place ? 'present' : at < place ? 'past' : 'coming';
  if (at === place) line.button.setAttribute('aria-current', 'step');
  else line.button.removeAttribute('aria-current');
}

// Shows the trace that is asked for, in the drawing and in words.
function showTrace(state) {
  const text = byId('trace-addr').value.trim();
  const addr = text === '' ? null : readAddress(text);
  byId('layer-trace').replaceChildren();
  byId('trace-hops').replaceChildren();
  byId('trace-addr').setAttribute('aria-invalid', String(text !== '' && addr === null));
  if (addr === null) {
    setText(byId('trace-line'), text === '' ? '' : 'An address is four numbers from 0 to 255 with points between.');
    return;
  }
  const router = Number(byId('trace-from').value);
  const trace = traceOf(state, router, addr);
  setText(byId('trace-line'), traceWords(router, text, trace));
  drawTrace(trace);
  byId('trace-hops').append(...trace.hops.slice(0, 64).map(hopLine));
  if (trace.hops.length > 64) byId('trace-hops').append(html('li', `and ${trace.hops.length - 64} routers more`));
}

// Gives one hop of a trace in words.
function hopLine({ router, prefix, entry }) {
  const match = prefix < 0 ? 'no row' : `${net.prefixes[prefix].text} ${entryWords(router, entry)}`;
  return html('li', `${nameOf(router)}: ${match}`);
}

// Draws a trace along its links.
function drawTrace({ hops, end }) {
  const spots = hops.map((hop) => drawing.spots[hop.router]);
  const points = spots.map((spot) => spot.join(',')).join(' ');
  const [x, y] = spots[spots.length - 1];
  byId('layer-trace').append(
    svg('polyline', { points, class: 'trace' }),
    svg('circle', { cx: spots[0][0], cy: spots[0][1], r: drawing.radius * 1.5, class: 'trace-start' }),
    svg('circle', { cx: x, cy: y, r: drawing.radius * 1.7, class: `trace-end ${end === 'delivered' ? '' : 'bad'}` }),
  );
}

// Tells whether the filter lets a prefix through.
function passes(prefix) {
  return net.prefixes[prefix].text.includes(byId('filter').value.trim());
}

// Gives the prefixes that the table of a router shows: the chosen one, then those that the filter lets through.
function tablePrefixes() {
  const others = net.order.filter((prefix) => prefix !== shown.prefix && passes(prefix));
  return shown.prefix in net.prefixes ? [shown.prefix, ...others] : others;
}

// Shows the chosen router's table.
function showTable(state) {
  byId('router-shown').hidden = shown.router < 0;
  if (shown.router < 0) return;
  const { generation, held, ripe, notices } = state.routers[shown.router];
  const holds = `holds ${held}, of which ${ripe} ripe`;
  setText(byId('router-words'), `published ${generation} times; ${holds}; notices to take: ${notices}`);
  const prefixes = tablePrefixes();
  byId('router-table').replaceChildren(...prefixes.slice(0, shown.rows).map((prefix) => tableRow(state, prefix)));
  const left = prefixes.length - shown.rows;
  byId('router-more').hidden = left <= 0;
  setText(byId('router-left'), `${left} prefixes more; the filter of prefixes narrows them.`);
}

// Gives the row of a prefix in a router's table.
function tableRow(state, prefix) {
  const router = shown.router;
  const machine = state.machines[router][prefix];
  const row = html('tr', '', prefix === shown.prefix ? 'chosen' : '');
  row.append(html('th', net.prefixes[prefix].text, '', { scope: 'row' }));
  if (!machine) {
    row.append(html('td', 'unheard', 'faint', { colSpan: 5 }));
    return row;
  }
  const isDead = isVia(machine.published) && !isLive(state, machine.published);
  const force = entryWords(router, machine.published) + (isDead ? ' (dead)' : '');
  const chosen = isSameEntry(machine.published, machine.chosen) ? 'same' : entryWords(router, machine.chosen);
  const awaits = machine.active === undefined ? '' : `, awaits ${awaitedWords(machine)}`;
  const cells = [distanceWords(machine.rd), distanceWords(machine.fd), force, chosen, modeWords(machine) + awaits];
  row.append(...cells.map((cell) => html('td', cell)));
  if (machine.active !== undefined) row.lastElementChild.className = 'active';
  return row;
}

// Shows the links of the chosen router, to choose from.
function showRouterLinks() {
  const list = byId('router-links');
  const ports = shown.router < 0 ? [] : net.ports[shown.router];
  list.replaceChildren(...ports.map(({ link, other }) => {
    const properties = { type: 'button', onclick: () => chooseLink(link) };
    const button = html('button', `link to ${nameOf(other)}`, '', properties);
    const item = html('li');
    item.append(button);
    return item;
  }));
}

// Shows both queues of the chosen link.
function showLink(state) {
  if (shown.link < 0) return;
  const [a, b] = run.opening.links[shown.link].map(nameOf);
  const { up, session, costs } = state.links[shown.link];
  const cost = `cost ${costs[0]} from ${a}, ${costs[1]} from ${b}`;
  setText(byId('link-words'), `${a} and ${b}: ${up ? 'up' : 'down'}, session ${session}; ${cost}.`);
  byId('link-queues').replaceChildren(...[0, 1].map((end) => queueList(state, end)));
}

// Gives the list of what one end of the chosen link has to take.
function queueList(state, end) {
  const items = state.queues[2 * shown.link + end];
  const section = html('div');
  const count = items.length === 0 ? 'nothing' : `${items.length}, the next first`;
  section.append(html('h3', `${nameOf(run.opening.links[shown.link][end])} has to take: ${count}`));
  const list = html('ol');
  for (const item of items.slice(0, MOST_ROWS)) {
    list.append(html('li', itemWords(item), isNotice(item) ? 'notice' : item[0]));
  }
  if (items.length > MOST_ROWS) list.append(html('li', `and ${items.length - MOST_ROWS} more`));
  section.append(list);
  return section;
}

// Shows all of the present state.
function show() {
  const state = run.now;
  showLinks(state);
  showRings(state.place);
  showRouters(state);
  showQueues(state);
  showStep(state);
  showNow();
  showLog(state.place);
  showTrace(state);
  showTable(state);
  showLink(state);
}

// ---- What the reader does.

// Goes to the state at a place; moves items where it is the next one.
function goPlace(place) {
  const to = Math.max(0, Math.min(run.places - 1, place));
  const isNext = to === shown.place + 1 && mayMove();
  const before = run.now.queues.slice();
  isDone(() => seek(to));
  shown.place = run.now.place;
  byId('layer-moving').replaceChildren();
  show();
  if (isNext && shown.place === to) moveItems(before, readChange(to));
}

// Does something with the states, and tells whether it could be done; where they cannot be read, the page says why.
function isDone(act) {
  try {
    act();
    return true;
  } catch (fault) {
    byId('fault').hidden = false;
    setText(byId('fault'), `The states cannot be read: ${fault.message}`);
    return false;
  }
}

// Tells whether items may move: the reader has not asked for less motion, and nothing plays fast.
function mayMove() {
  return !page.still.matches && (!shown.playing || Number(byId('speed').value) <= 3);
}

// Goes to the next event of the prefix, or to the one before.
function goEvent(way) {
  const place = eventFrom(shown.prefix, shown.place, way, byId('waves').checked);
  if (place >= 0) goPlace(place);
}

// Begins or ends to play.
function play(isPlaying) {
  shown.playing = isPlaying;
  if (isPlaying && shown.place === run.places - 1) goPlace(0);
  shown.owed = 0;
  shown.time = performance.now();
  setText(byId('play'), isPlaying ? 'Pause' : 'Play');
  byId('play').setAttribute('aria-pressed', String(isPlaying));
  for (const id of ['step', 'trace-line']) byId(id).setAttribute('aria-live', isPlaying ? 'off' : 'polite');
  if (isPlaying) requestAnimationFrame(playOn);
}

// Plays as many states as the time since the last frame asks for.
function playOn(time) {
  if (!shown.playing) return;
  shown.owed += Math.min(1, Math.max(0, time - shown.time) / 1000) * Number(byId('speed').value);
  shown.time = time;
  const whole = Math.floor(shown.owed);
  shown.owed -= whole;
  if (whole > 0) goPlace(shown.place + whole);
  if (shown.place === run.places - 1) play(false);
  else requestAnimationFrame(playOn);
}

// Chooses a prefix by its number.
function choosePrefix(prefix) {
  shown.prefix = prefix;
  byId('prefix').value = String(prefix);
  showActivity();
  show();
}

// Chooses a router by its number.
function chooseRouter(router) {
  shown.router = router;
  shown.rows = MOST_ROWS;
  byId('router').value = String(router);
  if (router >= 0) byId('trace-from').value = String(router);
  showRouterLinks();
  show();
}

// Chooses a link by its number.
function chooseLink(link) {
  shown.link = link;
  show();
}

const MOST_OPTIONS = 400;

// Lists the prefixes that the filter lets through, and keeps the chosen one among them.
function listPrefixes() {
  const found = net.order.filter(passes).slice(0, MOST_OPTIONS);
  if (shown.prefix in net.prefixes && !found.includes(shown.prefix)) found.unshift(shown.prefix);
  byId('prefix').replaceChildren(...found.map((prefix) => option(net.prefixes[prefix].text, prefix)));
  byId('prefix').value = String(shown.prefix);
}

// Gives one choice of a list.
function option(text, value) {
  return html('option', text, '', { value: String(value) });
}

// The button that a key presses.
const KEYS = {
  ArrowLeft: 'back', ArrowRight: 'on', Home: 'first', End: 'last', ' ': 'play', n: 'event-after', p: 'event-before',
  '+': 'zoom-in', '-': 'zoom-out', 0: 'zoom-fit',
};

// Does what a key asks for, and tells whether it asks for anything.
function doKey(key) {
  const tenth = Math.max(1, Math.round(run.places / 10));
  if (Object.hasOwn(KEYS, key)) byId(KEYS[key]).click();
  else if (key === 'PageUp' || key === 'PageDown') goPlace(shown.place + (key === 'PageUp' ? -tenth : tenth));
  else return false;
  return true;
}

// Tells whether an element takes a key itself.
function takesKey(element, key) {
  if (element.matches('#slider')) return false;
  if (element.matches('input[type="checkbox"], button, summary')) return key === ' ' || key === 'Enter';
  return element.matches('input, select, textarea');
}

// Hears the keys.
function hearKeys() {
  document.addEventListener('keydown', (event) => {
    if (event.ctrlKey || event.metaKey || event.altKey || takesKey(event.target, event.key)) return;
    if (doKey(event.key)) event.preventDefault();
  });
}

// Hears the pointer over the drawing: a click chooses, a drag moves, the wheel makes larger and smaller.
function hearPointer() {
  const graph = byId('graph');
  let held = null;
  graph.addEventListener('wheel', (event) => {
    event.preventDefault();
    zoomBy(event.deltaY > 0 ? 1.15 : 1 / 1.15, ...spotOf(event));
  }, { passive: false });
  graph.addEventListener('pointerdown', (event) => {
    held = { spot: spotOf(event), x: event.clientX, y: event.clientY, moved: false };
  });
  graph.addEventListener('pointermove', (event) => {
    if (!held || event.buttons === 0) return;
    held.moved ||= Math.hypot(event.clientX - held.x, event.clientY - held.y) > 4;
    if (!held.moved) return;
    const [x, y] = spotOf(event);
    setView({ ...drawing.view, x: drawing.view.x + held.spot[0] - x, y: drawing.view.y + held.spot[1] - y });
  });
  graph.addEventListener('click', (event) => {
    const hit = held?.moved ? null : event.target.closest('[data-router], [data-link]');
    held = null;
    if (hit?.dataset.router) chooseRouter(Number(hit.dataset.router));
    else if (hit?.dataset.link) chooseLink(Number(hit.dataset.link));
    if (hit) byId(hit.dataset.router ? 'router-panel' : 'link-panel').scrollIntoView({ block: 'nearest' });
  });
}

// Hears the buttons and fields.
function hearControls() {
  const clicks = {
    first: () => goPlace(0),
    back: () => goPlace(shown.place - 1),
    play: () => play(!shown.playing),
    on: () => goPlace(shown.place + 1),
    last: () => goPlace(run.places - 1),
    'event-before': () => goEvent(-1),
    'event-after': () => goEvent(1),
    'zoom-in': () => zoomMiddle(0.7),
    'zoom-out': () => zoomMiddle(1 / 0.7),
    'zoom-fit': () => setView(WHOLE),
    'router-all': () => { shown.rows = Infinity; show(); },
    'trace-clear': () => { byId('trace-addr').value = ''; show(); },
  };
  for (const [id, act] of Object.entries(clicks)) byId(id).addEventListener('click', act);
  const inputs = {
    slider: (element) => goPlace(placeAtSlot(Number(element.value))),
    'by-time': () => { show(); showActivity(); },
    prefix: (element) => choosePrefix(Number(element.value)),
    router: (element) => chooseRouter(Number(element.value)),
    filter: () => { listPrefixes(); show(); },
    waves: () => show(),
    'trace-from': () => show(),
    'trace-addr': () => show(),
  };
  for (const [id, act] of Object.entries(inputs)) byId(id).addEventListener('input', (event) => act(event.target));
  const found = () => [shown.prefix, ...net.order].find(passes) ?? shown.prefix;
  byId('filter').addEventListener('change', () => choosePrefix(found()));
  byId('goto').addEventListener('change', (event) => {
    if (event.target.value !== '') goPlace(placeOf(Number(event.target.value)));
  });
}

// ---- The beginning.

// Gives a line as a sign, with or without a head.
function lineSign(kind, head) {
  const end = head ? { 'marker-end': `url(#${head})` } : {};
  return svg('line', { x1: -20, y1: 0, x2: 18, y2: 0, class: kind, ...end });
}

// Gives a router as a sign, with its origin state where it is active.
function routerSign(kind, origin = '') {
  const home = svg('rect', { x: -11, y: -11, width: 22, height: 22, rx: 2, class: 'home' });
  const digit = svg('text', { class: 'digit' }, origin);
  const badge = svg('g', { class: 'badge', transform: 'translate(9 -4)' }, svg('circle', { r: 7 }), digit);
  return svg('g', { class: `router ${kind}` }, home, svg('circle', { r: 8, class: 'disc' }), badge);
}

// Gives the signs of lines and routers, and what they mean.
function networkSigns() {
  const box = svg('rect', { x: -7, y: -7, width: 14, height: 14, rx: 3 });
  return [
    [lineSign('link up'), 'a link that is up; the number near a router is the cost from there'],
    [lineSign('link down'), 'a link that is down'],
    [lineSign('arrow published', 'head-published'), 'the published row, in force: to the successor'],
    [lineSign('arrow chosen', 'head-chosen'), 'the chosen row, where it is not the published one'],
    [lineSign('arrow published dead', 'head-dead'), 'a dead hop: its link is down, or up in another session'],
    [routerSign('local'), 'the row in force is local; dashed: chosen, not yet in force. The number is the distance'],
    [routerSign('unreachable'), 'the row in force is unreachable'],
    [routerSign('unheard'), 'the router has not heard of the prefix'],
    [routerSign('active origin-1', 1), 'active, origin state 1: it began the computation'],
    [routerSign('active origin-0', 0), 'active 0: so, and its distance rose or its successor was lost since'],
    [routerSign('active origin-3', 3), 'active 3: its successor’s query began it, and it owes a reply'],
    [routerSign('active origin-2', 2), 'active 2: it owes a reply, and its distance rose or its successor asked since'],
    [svg('g', { class: 'await origin-1' }, box, svg('text', {}, '?')), 'the reply over this link is awaited'],
  ];
}

// Gives the signs of items, and what they mean.
function itemSigns() {
  return [
    [shapeOf(['query', shown.prefix, 1], 6), 'a query, near the router that will take it; pale: of another prefix'],
    [shapeOf(['reply', shown.prefix, 1], 6), 'a reply'],
    [shapeOf(['update', shown.prefix, 1], 6), 'an update'],
    [shapeOf(['up', 1], 6), 'a notice of the link: + up, − down, = cost'],
  ];
}

// Lists what the drawing means.
function listSigns() {
  for (const [sign, words] of [...networkSigns(), ...itemSigns()]) {
    const entry = html('li');
    const box = { viewBox: '-22 -11 44 22', width: 44, height: 22, 'aria-hidden': 'true' };
    entry.append(svg('svg', box, sign), html('span', words));
    byId('signs').append(entry);
  }
}

// Gives a number of things in words.
function count(number, word) {
  const ending = word.endsWith('x') ? 'es' : 's';
  return `${number} ${word}${number === 1 ? '' : ending}`;
}

// Fills the fields.
function fillControls() {
  const { routers, links, prefixes, steps, every } = run.opening;
  const network = `${count(routers.length, 'router')}, ${count(links.length, 'link')}`;
  setText(byId('summary'), `${network}, ${count(prefixes.length, 'prefix')}; ${count(steps, 'step')}.`);
  setText(byId('sparse'), `Of each ${every} steps only the state after the last is shown.`);
  setText(byId('graph-title'), `The network: ${network}. The tables beside it say the same in words.`);
  byId('time').hidden = run.moments === null;
  byId('goto').max = steps;
  byId('filter').hidden = prefixes.length <= 12;
  byId('router').append(option('none', -1), ...routers.map((name, router) => option(name, router)));
  byId('trace-from').append(...routers.map((name, router) => option(name, router)));
  byId('log').style.setProperty('--digits', `${String(steps).length}ch`);
  shown.prefix = net.order[0] ?? 0;
  listPrefixes();
}

// Looks through the run in short stretches, and shows what it found now and then.
function scanOn() {
  if (!isDone(() => scanFor(16))) return;
  const now = performance.now();
  if (isScanned() || now - (page.scanShown ?? 0) > 400) {
    page.scanShown = now;
    showActivity();
    showLog(shown.place);
  }
  if (!isScanned()) setTimeout(scanOn, 4);
}

// Gives a router's number by its name, or by its number.
function routerOf(router) {
  const number = typeof router === 'number' ? router : net.names.get(router);
  if (!(number in net.ports)) throw new Error(`there is no router ${router}`);
  return number;
}

// What tests ask the page.
const view = {
  // Goes to the last state that is not after the step of that number.
  go: (number) => goPlace(placeOf(number)),
  // Gives the number of the present state.
  state: () => numberAt(shown.place),
  // Gives the moment of the present state, in microseconds; null where the run has no moments.
  moment: () => (run.moments === null ? null : run.moments[shown.place]),
  // Gives a router's rows in force.
  table: (router) => tableOf(run.now, routerOf(router)),
  // Chooses a prefix by its text.
  choose: (text) => {
    const prefix = net.prefixes.findIndex((it) => it.text === text);
    if (prefix < 0) throw new Error(`there is no prefix ${text}`);
    choosePrefix(prefix);
  },
  // Gives the line of a packet's trace.
  trace: (router, text) => traceWords(routerOf(router), text, traceOf(run.now, routerOf(router), readAddress(text))),
};

// Begins, or says why it cannot.
function begin() {
  page.still = matchMedia('(prefers-reduced-motion: reduce)');
  if (!isDone(() => { readRun(byId('states').textContent); readNetwork(); })) return;
  placeNetwork();
  makeLog();
  fillControls();
  listSigns();
  hearKeys();
  hearPointer();
  hearControls();
  goPlace(placeOf(Number(/^#(\d+)$/.exec(location.hash)?.[1] ?? 0)));
  window.view = view;
  scanOn();
}

begin();
"##;
