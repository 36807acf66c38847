//! What `msi --help` says behind the commands, and the help of each command behind its options: what standard input is, what is
//! printed and what its words mean, the exit statuses, and an example with what it prints.

/// What stands behind the commands.
pub const MSI: &str = r#"A tour, from the top of the repository:
  msi batch --caches 2 --seed 1 --trials 1000 --limit 1000 --until broke \
      --tables examples/tables/inv-answered-at-once.json \
      < examples/scenarios/eviction-meets-load.json
  the line that it prints last makes that trial again:  .. > race.rec
  msi show < race.rec                     what each step did, as a table
  msi chart < race.rec > race.svg         the same as a picture
  msi replay < race.rec                   the same steps, and their violation
  msi certify --tables FILE               what is proved of changed tables
  msi check --tables FILE < SCENARIO      what msi makes of your own
  msi play --caches 2                     steps by hand: ask 0 0 load, ..

With --explain a command says where a text is wrong that it refuses, and what
may stand there. docs/GUIDE.md is a half hour with it, docs/FORMATS.md has
what is read and printed, docs/PROTOCOL.md the protocols, docs/CERTIFY.md and
docs/PROOFS.md what is proved."#;

/// What stands behind the options of `msi play`.
pub const PLAY: &str = r#"Standard input: steps, one a line. Caches, blocks and places count from 0.
  ask C B load, ask C B store V     a core asks its cache
  ask C B replace                   it gives up the block
  request B I, response B I         the message at place I is served
  forward B C                       the first one from the home to cache C is

Printed is what each step came to: sent or moved (it acted), load C V or
store C V (an ask completed), held (it has to wait), absent (there is no such
cache or message), idle (a replacement of nothing) or blank (no rule: the
world is broken). Behind the first step that shows a violation it says so and
ends.

Status: 0 played, 1 violation, 2 wrong words or line, 3 device or memory.

Example:
  $ printf 'ask 0 0 load\nrequest 0 0\nresponse 0 0\n' | ./msi play --caches 2
  sent
  moved
  load 0 0"#;

/// What stands behind the options of `msi trial`.
pub const TRIAL: &str = r#"Standard input: a scenario in JSON, what the cores may ask.
  {"op":"load","core":0,"block":0}, the same with "replace";
  {"op":"store","core":0,"block":0,"value":7}
  {"seq":[..]} one behind the other, {"both":[..]} interleaved,
  {"any":[..]} one of them, {"times":N,"of":..} so many times

Printed is the trial's recording, for msi replay, show and chart; and on
standard error its verdict, with the number of steps: quiet (all is done),
stuck (nothing can happen, and something waits), cut (the limit) or broke (a
violation, which follows).

Status: 0, but 1 where it broke; 2 wrong words, tables or scenario, 3 device
or memory.

Example:
  $ printf '{"op":"load","core":0,"block":0}' |
      ./msi trial --caches 1 --seed 1 --number 0 --limit 9
  msi-recording 2
  protocol msi
  shape 1 1
  seats 0
  opening 0
  cells 0
  entries 3
  ask 0 0 load = sent
  request 0 0 = moved
  response 0 0 = load 0 0
  end
  verdict quiet 3"#;

/// What stands behind the options of `msi batch`.
pub const BATCH: &str = r#"Standard input: a scenario in JSON, what the cores may ask.
  {"op":"load","core":0,"block":0}, the same with "replace";
  {"op":"store","core":0,"block":0,"value":7}
  {"seq":[..]} one behind the other, {"both":[..]} interleaved,
  {"any":[..]} one of them, {"times":N,"of":..} so many times

Printed is a line a trial, its number and what it came to after N steps:
quiet N (all is done), stuck N (nothing can happen, and something waits),
cut N (the limit) or broke N VIOLATION; then totals.

Status: 0, but 1 where a trial broke or --until met one; 2 wrong words, tables
or scenario, 3 device or memory.

Example:
  $ printf '{"op":"load","core":0,"block":0}' |
      ./msi batch --caches 1 --seed 1 --trials 3 --limit 9
  0 quiet 3
  1 quiet 3
  2 quiet 3
  total quiet 3"#;

/// What stands behind the options of `msi replay`.
pub const REPLAY: &str = r#"Standard input: a recording, as msi trial, play --recording and
floor --recording print it.

Printed is `same N` where its N steps had the outcomes that it tells, and
`violation K ..` where entry K shows one, counted from 0; or
`differs K told .. found ..` at the first step with another outcome.

Status: 0 the same, 1 a violation or a difference, 2 wrong words or recording,
3 device or memory.

Example:
  $ ./msi replay < examples/recordings/load-without-asking.rec
  same 4
  violation 3 writer 0 beside reader 1 block 0"#;

/// What stands behind the options of `msi show`.
pub const SHOW: &str = r#"Standard input: a recording, as msi trial, play --recording and
floor --recording print it.

Printed is the state before the part, and a line a step: its number, step and
outcome, the cell that it met (with * where that isn't the protocol's own),
the message that it served, what it changed and sent, and what is found: a
violation, or another outcome than is told. Where nothing can go on behind the
last entry, what waits follows.

Status: 0, but 1 where something is found; 2 wrong words or recording,
3 device or memory.

Example:
  $ ./msi show --tsv < examples/recordings/load-without-asking.rec |
      cut -f 2-4 | tr '\t' '|'
  step|outcome|cell
  ask 0 0 store 7|sent|cache I Store
  request 0 0|moved|directory I GetM
  response 0 0|store 0 7|cache IM^AD Data-Dir-Zero
  ask 1 0 load|load 1 0|cache I Load *"#;

/// What stands behind the options of `msi chart`.
pub const CHART: &str = r#"Standard input: a recording, as msi trial, play --recording and
floor --recording print it.

Printed is a picture in SVG: time goes down, a lane is a controller, a box a
step, and an arrow a message from the step that sent it to the one that served
it (thin: request, dashed: forward, thick: response).

Status: 0, but 1 where a violation or a difference is found; 2 wrong words or
recording, or more than 2000 steps; 3 device or memory.

Example:
  $ ./msi chart --steps 3 < examples/recordings/load-from-owner.rec |
      grep '<title>'
  <title>3 steps of a recording, as a message sequence chart</title>"#;

/// What stands behind the options of `msi move`.
pub const MOVE: &str = r#"Standard input: a recording of version 1 or 2.

Printed is the same recording in version 2.

Status: 0 printed, 2 wrong words or recording, 3 device or memory.

Example:
  $ printf 'msi-recording 1\nshape 1 1\nopening 0\ncells 0\nentries 0\nend\n' |
      ./msi move
  msi-recording 2
  protocol msi
  shape 1 1
  seats 0
  opening 0
  cells 0
  entries 0
  end"#;

/// What stands behind the options of `msi floor`.
pub const FLOOR: &str = r#"Standard input: asks, one a line: ask C B load, ask C B store V,
ask C B replace. Each seat puts those of the caches whose number, divided by
the number of seats, leaves its own.

Each seat is a thread; they take turns as they come, and what they did is
recorded and replayed. Printed is `safe`, or `violation K ..`; with
--recording the recording. Seats times turns are at most 1000000.

Status: 0 safe, 1 violation, 2 wrong words, tables or lines, 3 device or
memory.

Example:
  $ ./msi floor --caches 3 --seats 3 --turns 100 --seed 7 \
      < examples/asks/three-caches.txt
  safe"#;

/// What stands behind the options of `msi tables`.
pub const TABLES: &str =
    r#"FILE has changed cells, in JSON (docs/FORMATS.md, section 6; examples/tables):
  {"cache":[{"state":"IS^D","event":"Inv",
             "entry":{"next":"IS^D","do":["inv-ack"]}}],"directory":[..]}
  an entry is "stall", "blank", or an object with the next state and at most
  eight actions

Printed are all cells, the caches' first, one a line: blank, stall, or
act NEXT ACTION .. With --changes they are those alone that aren't the
protocol's own, in JSON, as FILE has them.

Status: 0 printed, 2 wrong words or tables, 3 device or memory.

Example:
  $ ./msi tables | grep 'IS^D Inv '
  cell cache IS^D Inv stall"#;

/// What stands behind the options of `msi certify`.
pub const CERTIFY: &str =
    r#"FILE has changed cells, in JSON (docs/FORMATS.md, section 6; examples/tables).

Printed is `safe` where it is proved that no run breaks coherence, for any
number of caches, and what is known of waiting: `never stuck`, or that asks
may be held or messages get stuck; or `unknown`, the cell that stands against
a proof, and two caches that aren't ruled out. That doesn't say unsafe:
examples/decide looks for a race of a few caches. Each changed cell follows,
with why it may be so; where it is known, steps that get stuck; and with
--pairs the pairs of caches that show it, an object in JSON a line
(docs/CERTIFY.md).

Status: 0 safe, 1 unknown, 2 wrong words or tables, 3 device or memory.

Example:
  $ ./msi certify
  safe
  never stuck"#;

/// What stands behind the options of `msi model`.
pub const MODEL: &str =
    r#"FILE has changed cells, in JSON (docs/FORMATS.md, section 6; examples/tables).

Printed is a model of one block with so many caches, 1 to 8, in Murphi: a
checker as rumur tries every schedule of it. `examples/exhaust/run CACHES`
does that, and turns what it finds into a recording (docs/EXHAUST.md).

Status: 0 printed, 2 wrong words or tables, 3 device or memory.

Example:
  $ ./msi model --caches 2 | sed -n 1p
  -- One block of msi with 2 caches, as msi has it, in Murphi for rumur."#;

/// What stands behind the options of `msi check`.
pub const CHECK: &str =
    r#"Standard input: a scenario in JSON, or nothing: then the tables are told alone.
FILE has changed cells, in JSON (docs/FORMATS.md, sections 6 and 7).

Printed is what they are: the cells that differ from the protocol's own and
what msi certify says of them; what each core asks at most, what is offered at
the start, and how many asks the longest word has.

Status: 0 accepted, 2 wrong words, tables or scenario, 3 device or memory.

Example:
  $ printf '{"times":3,"of":{"op":"load","core":0,"block":0}}' | ./msi check
  protocol msi
  certify safe, never stuck
  shape 1 1
  core 0 loads 3 stores 0 replacements 0
  offer 0 ask 0 0 load
  longest 3"#;
