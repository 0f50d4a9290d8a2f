//! Examples of an engine: how invocations end.

/// How the invocations of an engine end.
pub const OUTCOMES: &str = "\
# Repeated AARE.
engine
new
  new 1
invoke 1 1 1 10 1000
  number 1
invoke 1 2 1 11 1000
  number 2
begin 1 04000001000103
  send 62384804000000016b1e281c060700118605010101a011600f80020780a1090607040000010001036c10a10602010102010aa10602010202010b
raw 653f4804000000054904000000016b2a2828060700118605010101a01d611b80020780a109060704000001000103a203020100a305a1030201006c05a203020101
  continue 1 context 04000001000103 info -
  last 1 id 1 number 1 op - param -
raw 653f4804000000054904000000016b2a2828060700118605010101a01d611b80020780a109060704000001000103a203020100a305a1030201006c05a203020101
  send 671a4904000000056b122810060700118605010101a0056403800101
  pabort 1 abnormal
  ended 1 id 2 number 2
# Result in an End.
engine
new
  new 1
invoke 1 1 1 10 1000
  number 1
begin 1
  send 62104804000000016c08a10602010102010a
raw 640d4904000000016c05a203020101
  end 1 context - info -
  last 1 id 1 number 1 op - param -
advance 2000
raw 640d4904000000016c05a203020101
  dropped nodialogue
# Lapse and late result.
engine
new
  new 1
invoke 1 1 1 10 1000
  number 1
begin 1
  send 62104804000000016c08a10602010102010a
advance 999
advance 1000
  lapsed 1 id 1 number 1
raw 65134804000000054904000000016c05a203020101
  continue 1 context - info -
  localreject 1 id 1 result 0
continue 1
  send 65164804000000014904000000056c08a406020101820100
advance 5
# Answers the class forbids.
engine
new
  new 1
invoke 1 1 2 10 1000
  number 1
invoke 1 2 3 10 1000
  number 2
invoke 1 3 4 10 1000
  number 3
begin 1
  send 62204804000000016c18a10602010102010aa10602010202010aa10602010302010a
raw 65204804000000054904000000016c12a203020101a306020102020101a703020103
  continue 1 context - info -
  rejected 1 id 1 number 1 result 1 by local
  rejected 1 id 2 number 2 error 1 by local
  rejected 1 id 3 number 3 result 1 by local
# Identifier held after a result.
engine
new
  new 1
invoke 1 1 1 10 10000
  number 1
begin 1
  send 62104804000000016c08a10602010102010a
raw 65134804000000054904000000016c05a203020101
  continue 1 context - info -
  last 1 id 1 number 1 op - param -
advance 999
invoke 1 1 1 10 10000
  refused 4
advance 1000
invoke 1 1 1 10 10000
  number 2
continue 1
  send 65164804000000014904000000056c08a10602010102010a
raw 65134804000000054904000000016c05a203020101
  continue 1 context - info -
  last 1 id 1 number 2 op - param -
# Identifier freed by a reject.
engine
new
  new 1
invoke 1 1 1 10 10000
  number 1
begin 1
  send 62104804000000016c08a10602010102010a
raw 65134804000000054904000000016c05a203020101
  continue 1 context - info -
  last 1 id 1 number 1 op - param -
reject 1 1 result 2
  done
invoke 1 1 1 10 10000
  number 2
# Faulty second component.
engine
new
  new 1
invoke 1 -128 1 10 1000
  number 1
invoke 1 127 1 10 1000
  number 2
begin 1
  send 62184804000000016c10a10602018002010aa10602017f02010a
raw 65254804000000054904000000016c17a203020180a503020107a20302017fa30602017f020101
  continue 1 context - info -
  last 1 id -128 number 1 op - param -
  localreject 1 id 7 general 0
continue 1
  send 65164804000000014904000000056c08a406020107800100
# Ways an invocation closes, a cause.
engine
new
  new 1
invoke 1 1 1 10 1000
  number 1
begin 1
  send 62104804000000016c08a10602010102010a
raw 67094904000000014a0104
  pabort 1 cause 4
  ended 1 id 1 number 1
# Ways an invocation closes, an Abort.
engine
new
  new 1
invoke 1 1 1 10 1000
  number 1
begin 1
  send 62104804000000016c08a10602010102010a
raw 6706490400000001
  uabort 1 -
  ended 1 id 1 number 1
# Ways an invocation closes, an error.
engine
new
  new 1
invoke 1 1 1 10 1000
  number 1
begin 1
  send 62104804000000016c08a10602010102010a
raw 64104904000000016c08a30602010102010d
  end 1 context - info -
  error 1 id 1 number 1 code local 13 param -
# Ways an invocation closes, a prearranged end.
engine
new
  new 1
invoke 1 1 1 10 1000
  number 1
begin 1
  send 62104804000000016c08a10602010102010a
prearranged 1
  ended 1 id 1 number 1
# Ways an invocation closes, an abort here.
engine
new
  new 1
invoke 1 1 1 10 1000
  number 1
begin 1
  send 62104804000000016c08a10602010102010a
abort 1 user
  ended 1 id 1 number 1
# Ways an invocation closes, given up.
engine
new
  new 1
invoke 1 1 1 10 1000
  number 1
begin 1
  send 62104804000000016c08a10602010102010a
cancel 1 1
  givenup 1
# No timer outlives its dialogue.
engine
new
  new 1
invoke 1 1 1 10 1000
  number 1
begin 1
  send 62104804000000016c08a10602010102010a
abort 1 user
  ended 1 id 1 number 1
new
  new 2
invoke 2 1 1 10 5000
  number 2
begin 2
  send 62104804000000026c08a10602010102010a
advance 1000
advance 5000
  lapsed 2 id 1 number 2
";
