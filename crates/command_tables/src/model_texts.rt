//! The parts of a model that are the same under all tables.

/// How the model is read.
pub const HEAD: &str = r#"--
-- A rule is a step of `msi play`: what a core asks for, or a message served. Requests and responses are served in any order,
-- those of a link in the order of sending. Of a value it is kept whether it is that of the latest store.
-- "no room" says nothing of the tables: more messages are on their way than ROOM says.

"#;

/// What a block consists of, and what the actions of cells do to it.
pub const STATE: &str = r#"  ask: enum { none, load, store };
  forward_kind: enum { FwdGetS, FwdGetM, Inv, PutAck };
  count: 0..ROOM;
  acks_count: -ACKS..ACKS;
  acks_number: 0..CACHES-1;
  forward_message: record
    kind: forward_kind;
    requestor: cache;
  end;
  link: record
    used: count;
    items: array [0..ROOM-1] of forward_message;
  end;

var
  -- of each line its state, whether it has the value of the latest store, its acks, and what is pending
  state: array [cache] of cache_state;
  latest: array [cache] of boolean;
  acks: array [cache] of acks_count;
  pending: array [cache] of ask;
  -- the home
  home: home_state;
  owner: cache;
  sharers: array [cache] of boolean;
  memory: boolean;
  -- how many messages are on their way, and on links in which order; those with a value by whether it is the latest
  gets: array [cache] of count;
  getm: array [cache] of count;
  puts: array [cache] of count;
  putm: array [cache] of array [boolean] of count;
  links: array [cache] of link;
  data_from_home: array [cache] of array [acks_number] of array [boolean] of count;
  data_from_cache: array [cache] of array [cache] of array [boolean] of count;
  data_to_home: array [cache] of array [boolean] of count;
  data_excl: array [cache] of array [boolean] of count;
  inv_ack: array [cache] of array [cache] of count;
  -- what has gone wrong
  blank: boolean;
  stale: boolean;
  overflow: boolean;

procedure add(var n: count);
begin
  if n = ROOM then overflow := true; else n := n + 1; end;
end;

procedure push(target: cache; kind: forward_kind; requestor: cache);
begin
  if links[target].used = ROOM then
    overflow := true;
  else
    links[target].items[links[target].used].kind := kind;
    links[target].items[links[target].used].requestor := requestor;
    links[target].used := links[target].used + 1;
  end;
end;

procedure pop(target: cache);
begin
  for k: 0..ROOM-2 do
    links[target].items[k] := links[target].items[k + 1];
  end;
  undefine links[target].items[ROOM - 1];
  links[target].used := links[target].used - 1;
end;

procedure forward(kind: forward_kind; requestor: cache);
begin
  if !isundefined(owner) then push(owner, kind, requestor); end;
end;

procedure invalidate(requestor: cache);
begin
  for c: cache do
    if sharers[c] & c != requestor then push(c, Inv, requestor); end;
  end;
end;

function others(requestor: cache): acks_number;
var n: acks_number;
begin
  n := 0;
  for c: cache do
    if sharers[c] & c != requestor then n := n + 1; end;
  end;
  return n;
end;

procedure add_owner();
begin
  if !isundefined(owner) then sharers[owner] := true; end;
end;

procedure clear_sharers();
begin
  for c: cache do sharers[c] := false; end;
end;

procedure add_acks(c: cache; n: acks_count);
begin
  if acks[c] + n > ACKS | acks[c] + n < -ACKS then overflow := true; else acks[c] := acks[c] + n; end;
end;

"#;

/// How asks complete.
pub const COMPLETING: &str = r#"procedure age(var fresh: count; var old: count);
begin
  if fresh + old > ROOM then overflow := true; else old := old + fresh; end;
  fresh := 0;
end;

-- a store completes: nothing else has its value
procedure store_at(c: cache);
begin
  memory := false;
  for d: cache do
    latest[d] := d = c;
    age(putm[d][true], putm[d][false]);
    age(data_to_home[d][true], data_to_home[d][false]);
    age(data_excl[d][true], data_excl[d][false]);
    for n: acks_number do age(data_from_home[d][n][true], data_from_home[d][n][false]); end;
    for e: cache do age(data_from_cache[d][e][true], data_from_cache[d][e][false]); end;
  end;
end;

function completes(c: cache; wanted: ask): boolean;
begin
  return (wanted = load & reads(state[c])) | (wanted = store & state[c] = cM);
end;

procedure complete(c: cache; wanted: ask);
begin
  if wanted = load then
    if !latest[c] then stale := true; end;
  else
    store_at(c);
  end;
end;

procedure ask_for(c: cache; wanted: ask);
begin
  if completes(c, wanted) then complete(c, wanted); else pending[c] := wanted; end;
end;

procedure settle(c: cache);
begin
  if completes(c, pending[c]) then
    complete(c, pending[c]);
    pending[c] := none;
  end;
end;

"#;

/// Which event a message is, how a block opens, and the steps.
pub const STEPS: &str = r#"function data_event(c: cache; n: acks_number): cache_event;
begin
  if acks[c] + n = 0 then return eDataDirZero; else return eDataDirMore; end;
end;

function ack_event(c: cache): cache_event;
begin
  if acks[c] = 1 then return eLastInvAck; else return eInvAck; end;
end;

function puts_event(c: cache): home_event;
begin
  if sharers[c] & others(c) = 0 then return gPutSLast; else return gPutSNotLast; end;
end;

function putm_event(c: cache): home_event;
begin
  if !isundefined(owner) then
    if owner = c then return gPutMOwner; end;
  end;
  return gPutMNonOwner;
end;

function forward_event(kind: forward_kind): cache_event;
begin
  switch kind
  case FwdGetS: return eFwdGetS;
  case FwdGetM: return eFwdGetM;
  case Inv: return eInv;
  case PutAck: return ePutAck;
  end;
end;

startstate
begin
  home := hI;
  undefine owner;
  memory := true;
  blank := false; stale := false; overflow := false;
  for c: cache do
    state[c] := cI; latest[c] := true; acks[c] := 0; pending[c] := none; sharers[c] := false;
    gets[c] := 0; getm[c] := 0; puts[c] := 0;
    links[c].used := 0;
    for k: 0..ROOM-1 do undefine links[c].items[k]; end;
    for v: boolean do
      putm[c][v] := 0; data_to_home[c][v] := 0; data_excl[c][v] := 0;
      for n: acks_number do data_from_home[c][n][v] := 0; end;
      for d: cache do data_from_cache[c][d][v] := 0; end;
    end;
    for d: cache do inv_ack[c][d] := 0; end;
  end;
end;

ruleset c: cache do
  rule "ask load"
    !cache_holds(state[c], eLoad)
  ==>
    cache_acts(c, state[c], eLoad, c); if !blank then ask_for(c, load); end;
  end;
  rule "ask store"
    !cache_holds(state[c], eStore)
  ==>
    cache_acts(c, state[c], eStore, c); if !blank then ask_for(c, store); end;
  end;
  rule "ask replace"
    state[c] != cI & !cache_holds(state[c], eReplacement)
  ==>
    cache_acts(c, state[c], eReplacement, c);
  end;
  rule "request GetS"
    gets[c] > 0 & !home_holds(home, gGetS)
  ==>
    gets[c] := gets[c] - 1; home_acts(home, gGetS, c, false);
  end;
  rule "request GetM"
    getm[c] > 0 & !home_holds(home, gGetM)
  ==>
    getm[c] := getm[c] - 1; home_acts(home, gGetM, c, false);
  end;
  rule "request PutS"
    puts[c] > 0 & !home_holds(home, puts_event(c))
  ==>
  var event: home_event;
  begin
    event := puts_event(c);
    puts[c] := puts[c] - 1; home_acts(home, event, c, false);
  end;
  ruleset value: boolean do
    rule "request PutM"
      putm[c][value] > 0 & !home_holds(home, putm_event(c))
    ==>
    var event: home_event;
    begin
      event := putm_event(c);
      putm[c][value] := putm[c][value] - 1; home_acts(home, event, c, value);
    end;
    rule "response Data to home"
      data_to_home[c][value] > 0 & !home_holds(home, gData)
    ==>
      data_to_home[c][value] := data_to_home[c][value] - 1; home_acts(home, gData, c, value);
    end;
    ruleset n: acks_number do
      rule "response Data from home"
        data_from_home[c][n][value] > 0 & !cache_holds(state[c], data_event(c, n))
      ==>
      var event: cache_event;
      begin
        event := data_event(c, n);
        data_from_home[c][n][value] := data_from_home[c][n][value] - 1;
        latest[c] := value; add_acks(c, n);
        cache_acts(c, state[c], event, c); if !blank then settle(c); end;
      end;
    end;
    ruleset source: cache do
      rule "response Data from cache"
        data_from_cache[source][c][value] > 0 & !cache_holds(state[c], eDataOwner)
      ==>
        data_from_cache[source][c][value] := data_from_cache[source][c][value] - 1;
        latest[c] := value;
        cache_acts(c, state[c], eDataOwner, c); if !blank then settle(c); end;
      end;
    end;
"#;

/// The step that serves exclusive Data.
pub const EXCLUSIVE_STEP: &str = r#"    rule "response exclusive Data"
      data_excl[c][value] > 0 & !cache_holds(state[c], eDataDirExcl)
    ==>
      data_excl[c][value] := data_excl[c][value] - 1;
      latest[c] := value;
      cache_acts(c, state[c], eDataDirExcl, c); if !blank then settle(c); end;
    end;
"#;

/// The other steps, whether messages are on their way, and whether one can be served.
pub const MORE_STEPS: &str = r#"  end;
  ruleset source: cache do
    rule "response Inv-Ack"
      inv_ack[source][c] > 0 & !cache_holds(state[c], ack_event(c))
    ==>
    var event: cache_event;
    begin
      event := ack_event(c);
      inv_ack[source][c] := inv_ack[source][c] - 1;
      add_acks(c, -1);
      cache_acts(c, state[c], event, c); if !blank then settle(c); end;
    end;
  end;
  rule "forward"
    links[c].used > 0 & !cache_holds(state[c], forward_event(links[c].items[0].kind))
  ==>
  var event: cache_event; requestor: cache;
  begin
    event := forward_event(links[c].items[0].kind);
    requestor := links[c].items[0].requestor;
    pop(c);
    cache_acts(c, state[c], event, requestor); if !blank then settle(c); end;
  end;
end;

function is_quiet(): boolean;
begin
  for c: cache do
    if gets[c] > 0 | getm[c] > 0 | puts[c] > 0 | links[c].used > 0 then return false; end;
    for v: boolean do
      if putm[c][v] > 0 | data_to_home[c][v] > 0 | data_excl[c][v] > 0 then return false; end;
      for n: acks_number do if data_from_home[c][n][v] > 0 then return false; end; end;
      for d: cache do if data_from_cache[c][d][v] > 0 then return false; end; end;
    end;
    for d: cache do if inv_ack[c][d] > 0 then return false; end; end;
  end;
  return true;
end;

function can_move(): boolean;
begin
  for c: cache do
    if gets[c] > 0 & !home_holds(home, gGetS) then return true; end;
    if getm[c] > 0 & !home_holds(home, gGetM) then return true; end;
    if puts[c] > 0 & !home_holds(home, puts_event(c)) then return true; end;
    if links[c].used > 0 then
      if !cache_holds(state[c], forward_event(links[c].items[0].kind)) then return true; end;
    end;
    for v: boolean do
      if putm[c][v] > 0 & !home_holds(home, putm_event(c)) then return true; end;
      if data_to_home[c][v] > 0 & !home_holds(home, gData) then return true; end;
"#;

/// Whether exclusive Data can be served.
pub const EXCLUSIVE_MOVE: &str =
    r#"      if data_excl[c][v] > 0 & !cache_holds(state[c], eDataDirExcl) then return true; end;
"#;

/// The rest of that, and what has to hold after each step.
pub const INVARIANTS: &str = r#"      for n: acks_number do
        if data_from_home[c][n][v] > 0 & !cache_holds(state[c], data_event(c, n)) then return true; end;
      end;
      for d: cache do
        if data_from_cache[d][c][v] > 0 & !cache_holds(state[c], eDataOwner) then return true; end;
      end;
    end;
    for d: cache do
      if inv_ack[d][c] > 0 & !cache_holds(state[c], ack_event(c)) then return true; end;
    end;
  end;
  return false;
end;

function holds_ask(c: cache): boolean;
begin
  return cache_holds(state[c], eLoad) | cache_holds(state[c], eStore) | (state[c] != cI & cache_holds(state[c], eReplacement));
end;

-- as msi names violations; what is found first by these rows counts
invariant "blank" !blank;
invariant "second writer" forall c: cache do forall d: cache do (c != d & writes(state[c])) -> !writes(state[d]) end end;
invariant "writer beside reader" forall c: cache do forall d: cache do (c != d & writes(state[c])) -> !reads(state[d]) end end;
invariant "stale load" !stale;
invariant "no room" !overflow;
-- nothing gets stuck: what is on its way can be served, and without it no ask waits, and none is held
invariant "stuck" blank | is_quiet() | can_move();
invariant "unanswered" blank | !is_quiet() | forall c: cache do pending[c] = none end;
invariant "held" blank | !is_quiet() | forall c: cache do !holds_ask(c) end;
"#;
