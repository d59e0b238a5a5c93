//! What the page does by itself: it renews its figures each second, and keeps those of the last minute.

/// The hash of the script, by which the browser runs it: SHA-256, in base64. `tests/page.sh` compares it.
pub const SCRIPT_HASH: [u8; 44] = *b"oMgGzRbjgFunGUD2qYEMbH15pIFFIO3PSu13SzT3caM=";

/// The script. Without it the page shows the figures of the moment at which it was loaded.
pub(crate) const SCRIPT: &str = r#"
'use strict';
const minute = [], bounds = [.05, .1, .25, .5, 1, 2.5, 5, 10, 25, 50, 100, 250, 500, 1000, 2500, 5000, 10000, Infinity];
const told = document.getElementById('told'), pause = document.getElementById('pause');
let paused = false, last = 0;
const buckets = main => Object.fromEntries([...main.querySelectorAll('tr[data-buckets]')]
  .map(row => [row.dataset.kind, row.dataset.buckets.split(',').map(Number)]));
const total = list => list.reduce((a, b) => a + b, 0);
const between = (now, then) => now.map((n, i) => n - (then ? then[i] : 0));
function quantile(list, part) {
  const all = total(list);
  if (!all) return '';
  let seen = 0;
  for (let i = 0; i < list.length; i++) {
    seen += list[i];
    if (seen >= all * part) return (i === 17 ? '> 10000' : '≤ ' + bounds[i]) + ' ms';
  }
}
function spark(points) {
  const most = Math.max(1, ...points), space = 'http://www.w3.org/2000/svg';
  const svg = document.createElementNS(space, 'svg'), line = document.createElementNS(space, 'polyline');
  svg.setAttribute('class', 'spark');
  svg.setAttribute('viewBox', '0 0 60 20');
  svg.setAttribute('preserveAspectRatio', 'none');
  svg.setAttribute('role', 'img');
  svg.setAttribute('aria-label', 'a second, at most ' + Math.round(most));
  line.setAttribute('points', points.map((n, i) => (60 - points.length + i) + ',' + (19 - 18 * n / most)).join(' '));
  svg.append(line);
  return svg;
}
function show(main) {
  const first = minute[0], now = minute[minute.length - 1];
  for (const row of main.querySelectorAll('tr[data-buckets]')) {
    const kind = row.dataset.kind, cells = row.cells;
    const rates = minute.slice(1).map((m, i) => total(between(m.kinds[kind], minute[i].kinds[kind])) * 1000 / (m.time - minute[i].time));
    if (!rates.length) continue;
    const list = between(now.kinds[kind], first.kinds[kind]);
    cells[2].textContent = Math.round(rates[rates.length - 1]);
    cells[3].textContent = quantile(list, .5);
    cells[4].textContent = quantile(list, .99);
    cells[5].replaceChildren(spark(rates));
  }
}
function take(main) {
  minute.push({time: performance.now(), kinds: buckets(main)});
  if (minute.length > 61) minute.shift();
  show(main);
}
function replace(main) {
  const scrolls = () => [...document.querySelectorAll('.scroll')];
  const kept = scrolls().map(it => [it.scrollLeft, it === document.activeElement]);
  document.querySelector('main').replaceChildren(...main.childNodes);
  take(document.querySelector('main'));
  scrolls().forEach((it, i) => {
    if (!kept[i]) return;
    it.scrollLeft = kept[i][0];
    if (kept[i][1]) it.focus({preventScroll: true});
  });
}
function take_page(page) {
  if (paused) return;
  replace(page.querySelector('main'));
  document.getElementById('up').textContent = page.getElementById('up').textContent;
  last = Date.now();
  if (told.textContent !== 'renewed each second') told.textContent = 'renewed each second';
  told.className = '';
}
async function renew() {
  if (!paused) {
    try {
      const got = await fetch('/', {cache: 'no-store'});
      if (!got.ok) throw new Error(got.status);
      take_page(new DOMParser().parseFromString(await got.text(), 'text/html'));
    } catch (e) {
      told.textContent = 'no answer' + (last ? ' since ' + new Date(last).toLocaleTimeString() : '');
      told.className = 'lost';
    }
  }
  setTimeout(renew, 1000);
}
pause.hidden = false;
pause.addEventListener('click', () => {
  paused = !paused;
  pause.textContent = paused ? 'Go on' : 'Pause';
  pause.setAttribute('aria-pressed', paused);
  told.textContent = paused ? 'paused' : 'renewed each second';
});
take(document.querySelector('main'));
setTimeout(renew, 1000);
"#;
