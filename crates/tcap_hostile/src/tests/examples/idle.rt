//! Examples of an engine with an idle limit.

/// Which dialogues are over, when, and in what order.
pub const IDLE: &str = "\
# Idle after the Begin.
engine idle
new
  new 1
invoke 1 1 1 10 1000
  number 1
begin 1
  send 62104804000000016c08a10602010102010a
advance 499
advance 500
  pabort 1 idle
  ended 1 id 1 number 1
raw 65134804000000054904000000016c05a203020101
  send 67094904000000054a0101
# A lapse before the idle end.
engine idle
new
  new 1
invoke 1 1 1 10 300
  number 1
invoke 1 2 1 10 1000
  number 2
begin 1
  send 62184804000000016c10a10602010102010aa10602010202010a
advance 500
  lapsed 1 id 1 number 1
  pabort 1 idle
  ended 1 id 2 number 2
# A Continue renews the limit.
engine idle
new
  new 1
invoke 1 1 1 10 1000
  number 1
begin 1
  send 62104804000000016c08a10602010102010a
advance 400
raw 650c480400000005490400000001
  continue 1 context - info -
advance 899
advance 900
  pabort 1 idle
  ended 1 id 1 number 1
# Two idle dialogues in order.
engine idle
new
  new 1
new
  new 2
begin 2
  send 6206480400000002
advance 100
begin 1
  send 6206480400000001
advance 600
  pabort 2 idle
  pabort 1 idle
# No idle limit before the confirmation, and one from it on.
engine idle
raw 62154804000000016c0da10b02010102010230030401aa
  begin 1 context - info -
  invoked 1 id 1 linked - op local 2 param 30030401aa
advance 500
continue 1
  send 650c480400000001490400000001
advance 999
advance 1000
  pabort 1 idle
# An Invoke that is queued touches no dialogue, and ends with it.
engine idle
new
  new 1
invoke 1 1 1 10 1000
  number 1
begin 1
  send 62104804000000016c08a10602010102010a
advance 400
invoke 1 2 1 10 1000
  number 2
advance 500
  pabort 1 idle
  ended 1 id 1 number 1
  ended 1 id 2 number 2
# A refused request and a dropped message touch no dialogue; a moment below the clock ends none.
engine idle
new
  new 1
begin 1
  send 6206480400000001
advance 499
begin 1
  refused 3
raw 6406490400000009
  dropped nodialogue
advance 0
advance 500
  pabort 1 idle
continue 1
  refused 2
";
