//! Examples of an engine: what is asked of it.

/// What is asked of an engine.
pub const REQUESTS: &str = "\
# Limits and refusals, on one dialogue.
engine
new
  new 1
invoke 1 1 1 10 0
  refused 6
invoke 9 1 1 10 0
  refused 2
invoke 1 1 1 x80 1000
  refused 11
invoke 1 1 1 10 1000 - 0405aa
  refused 12
invoke 1 1 1 10 1000 - 0482ea60+60000
  refused 7
begin 1 - 2800
  refused 15
begin 1 - 0400
  refused 12
continue 1
  refused 3
last 1 1
  refused 3
cancel 1 1
  refused 5
uni 1
  refused 13
invoke 1 1 1 10 1000
  number 1
uni 1
  refused 13
# Unidirectional both ways, sent.
engine
new
  new 1
invoke 1 1 4 7 1000
  number 1
uni 1
  send 610a6c08a106020101020107
  ended 1 id 1 number 1
# Answers sent, in a Continue.
engine
raw 62154804000000016c0da10b02010102010230030401aa
  begin 1 context - info -
  invoked 1 id 1 linked - op local 2 param 30030401aa
more 1 1
  done
error 1 1 13
  done
continue 1
  send 651b4804000000014904000000016c0da703020101a30602010102010d
# Answers sent, in an End.
engine
raw 62154804000000016c0da10b02010102010230030401aa
  begin 1 context - info -
  invoked 1 id 1 linked - op local 2 param 30030401aa
last 1 1
  done
end 1
  send 640d4904000000016c05a203020101
# Dialogue refused and aborted, not supported.
engine
raw 62354804000000016b1e281c060700118605010101a011600f80020780a1090607040000010001036c0da10b02010102010230030401aa
  begin 1 context 04000001000103 info -
  invoked 1 id 1 linked - op local 2 param 30030401aa
abort 1 unsupported
  send 67324904000000016b2a2828060700118605010101a01d611b80020780a109060704000001000103a203020101a305a103020102
# Dialogue refused and aborted, by the user.
engine
raw 62354804000000016b1e281c060700118605010101a011600f80020780a1090607040000010001036c0da10b02010102010230030401aa
  begin 1 context 04000001000103 info -
  invoked 1 id 1 linked - op local 2 param 30030401aa
abort 1 user
  send 671a4904000000016b122810060700118605010101a0056403800100
";

/// What is asked of an engine of other limits or counters, or by its getters; no events for `run`.
pub const CALLS: &str = "\
# Lapse and late result, with the next timer, the clock and the state.
engine
new
  new 1
invoke 1 1 1 10 1000
  number 1
next
  None
begin 1
  send 62104804000000016c08a10602010102010a
next
  Some(1000)
advance 999
advance 1000
  lapsed 1 id 1 number 1
next
  None
raw 65134804000000054904000000016c05a203020101
  continue 1 context - info -
  localreject 1 id 1 result 0
continue 1
  send 65164804000000014904000000056c08a406020101820100
advance 5
now
  now 1000
state 1
  state Some(Active)
state 2
  state None
# Idle after the Begin, with the next timer and the state.
engine idle
new
  new 1
invoke 1 1 1 10 1000
  number 1
next
  None
begin 1
  send 62104804000000016c08a10602010102010a
next
  Some(500)
advance 499
advance 500
  pabort 1 idle
  ended 1 id 1 number 1
state 1
  state None
next
  None
raw 65134804000000054904000000016c05a203020101
  send 67094904000000054a0101
# A Continue renews the limit, with the next timer.
engine idle
new
  new 1
invoke 1 1 1 10 1000
  number 1
begin 1
  send 62104804000000016c08a10602010102010a
advance 400
raw 650c480400000005490400000001
  continue 1 context - info -
next
  Some(900)
advance 899
advance 900
  pabort 1 idle
  ended 1 id 1 number 1
# No idle limit in Received, with the next timer and the state.
engine idle
raw 62154804000000016c0da10b02010102010230030401aa
  begin 1 context - info -
  invoked 1 id 1 linked - op local 2 param 30030401aa
next
  None
advance 500
state 1
  state Some(Received)
# A dialogue that is Fresh stands however long, and an Invoke touches none.
engine idle
new
  new 1
advance 500
invoke 1 1 1 10 1000
  number 1
advance 1000
state 1
  state Some(Fresh)
# Limits and refusals, of dialogues.
engine 1
new
  new 1
new
  refused 8
raw 62154804000000016c0da10b02010102010230030401aa
  send 67094904000000014a0104
# Limits and refusals, of identifiers.
engine from 4294967294 1
new
  new 4294967294
new
  refused 9
# Limits and refusals, of numbers.
engine from 1 18446744073709551615
new
  new 1
invoke 1 1 1 10 1000
  refused 10
# Limits and refusals, of moments.
engine
advance 4611686018427387905
  refused 14
now
  now 0
advance 4611686018427387904
now
  now 4611686018427387904
";
