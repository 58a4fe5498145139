//! The page at `/`.

/// A page for people: plain HTML with a script that reads the four other pages once in five
/// seconds. It takes nothing from elsewhere, and shows what it reads as text alone.
pub const FRONT: &str = "<!doctype html>
<html lang='en'>
<meta charset='utf-8'>
<meta name='viewport' content='width=device-width'>
<meta http-equiv='Content-Security-Policy' content='default-src &#39;none&#39;; connect-src &#39;self&#39;; style-src &#39;unsafe-inline&#39;; script-src &#39;unsafe-inline&#39;'>
<title>Nimhazel</title>
<style>
body { font: 15px/1.4 sans-serif; margin: 1.5em; color: #222; background: #fff }
h1 { font-size: 1.3em } h2 { font-size: 1.05em; margin: 1.4em 0 .4em }
table { border-collapse: collapse } th, td { padding: .15em .7em .15em 0; text-align: left }
th { font-weight: normal; color: #666 } td { font-family: monospace; white-space: nowrap }
#health { padding: .1em .6em; border-radius: .3em; background: #ddd }
#health.ok { background: #bfe5c2 } #health.ill { background: #f4b6ae }
tr.bad td { background: #fbe3df }
</style>
<h1><span id='name'>Nimhazel</span> <span id='health'>asking</span></h1>
<p id='clock'></p>
<h2>Gateway</h2><table id='gateway'></table>
<h2>To look at</h2><table id='alarms'></table>
<h2>Links</h2><table id='links'></table>
<h2>Messages known, by the gateway that put them</h2><table id='known'></table>
<h2>Clients</h2><table id='clients'></table>
<h2>Events</h2><table id='log'></table>
<script>
const line = String.fromCharCode(10), tab = String.fromCharCode(9);
const shown = ['up_seconds', 'shift', 'shift_calls', 'clients_owned', 'clients_bound',
  'waiting_messages', 'waiting_most', 'stuck_seconds_most', 'datagrams_received_total',
  'turn_seconds_max', 'tick_seconds_max', 'set_mark'];
const alarms = ['halted', 'clients_full', 'clients_near_full', 'topics_near_full',
  'datagrams_dropped_total', 'datagrams_unsent_total', 'stood_still_seconds_total',
  'links_turned_away_total', 'link_refused_total', 'reopenings_total', 'events_lost_total'];
const get = async path => {
  const answer = await fetch(path, { cache: 'no-store' });
  return { ok: answer.ok, text: await answer.text() };
};
const rows = text => text.split(line).filter(it => it).map(it => it.split(tab));
function table(id, head, body, bad) {
  const made = (kind, cells) => {
    const row = document.createElement('tr');
    for (const cell of cells) row.appendChild(document.createElement(kind)).textContent = cell;
    return row;
  };
  const all = head ? [made('th', head)] : [];
  for (const cells of body) {
    const row = made('td', cells);
    if (bad && bad(cells)) row.className = 'bad';
    all.push(row);
  }
  document.getElementById(id).replaceChildren(...all);
}
function numbers(text) {
  return text.split(line).filter(it => it.startsWith('nimhazel_')).map(it => {
    const at = it.lastIndexOf(' '), name = it.slice(9, at), open = name.indexOf('{');
    return { name: open < 0 ? name : name.slice(0, open), full: name,
      label: open < 0 ? '' : name.slice(open + 1, -1).split(String.fromCharCode(34)).join(''),
      value: it.slice(at + 1).endsWith('e-3') ? String(Number(it.slice(at + 1))) : it.slice(at + 1) };
  });
}
function links(all) {
  const names = [...new Set(all.filter(it => it.name.startsWith('link_') && it.label.startsWith('place='))
    .map(it => it.name))].filter(it => it !== 'link_refused_total');
  const value = (name, label) => (all.find(it => it.name === name && it.label === label) || {}).value;
  const places = all.filter(it => it.name === 'link_up').map(it => it.label)
    .filter(it => it.startsWith('place=dialled') || value('link_number', it) !== '0');
  table('links', ['place', ...names.map(it => it.slice(5).replace('_total', '').split('_').join(' '))],
    places.map(it => [it.slice(6), ...names.map(name => value(name, it))]), it => it[1] === '0');
}
async function look() {
  const health = document.getElementById('health');
  try {
    const well = await get('/healthz');
    health.textContent = well.text.trim().split(line).join(', ');
    health.className = well.ok ? 'ok' : 'ill';
    const all = numbers((await get('/metrics')).text);
    table('gateway', null, all.filter(it => shown.includes(it.name) || it.name === 'clients')
      .map(it => [it.full, it.value]));
    const found = all.filter(it => alarms.includes(it.name) && it.value !== '0');
    table('alarms', null, found.length ? found.map(it => [it.full, it.value]) : [['nothing']],
      () => found.length > 0);
    table('known', null, all.filter(it => it.name === 'messages_known')
      .map(it => [it.label.slice(7), it.value]));
    links(all);
    const clients = rows((await get('/clients')).text);
    table('clients', clients[0], clients.slice(1), it => Number(it[13]) > 767);
    table('log', null, rows((await get('/log')).text).reverse(), it => it[1] === 'err');
    document.getElementById('clock').textContent = 'As of ' + new Date().toLocaleTimeString();
  } catch (fault) {
    health.textContent = 'no answer';
    health.className = 'ill';
  }
  setTimeout(look, 5000);
}
document.title = document.getElementById('name').textContent = 'Nimhazel at ' + location.host;
look();
</script>
</html>
";
