//! Examples of a dialogue and of its invocations.

/// Of one dialogue.
pub const DIALOGUES: &str = "\
# A fault ends a dialogue.
dialogue
state
  Fresh peer false
invoke 1 1 1 10 1000
  number 1
begin 1
  send 62104804000000016c08a10602010102010a
state
  Sent peer false
fault 2
  pabort 1 cause 2
  ended 1 id 1 number 1
  over
# Remote rejects.
dialogue
state
  Fresh peer false
invoke 1 1 1 10 1000
  number 1
begin 1
  send 62104804000000016c08a10602010102010a
raw 65164804000000054904000000016c08a406020101820100
  continue 1 context - info -
  remotereject 1 id 1 result 0 by provider
raw 65164804000000054904000000016c08a406020101810101
  continue 1 context - info -
  rejected 1 id 1 number 1 invoke 1 by user
raw 67324904000000016b2a2828060700118605010101a01d611b80020780a109060704000001000103a203020101a305a203020102
  pabort 1 nocommon
  over
# A result that is rejected, and an End.
dialogue
state
  Fresh peer false
invoke 1 1 1 10 1000
  number 1
begin 1
  send 62104804000000016c08a10602010102010a
raw 65134804000000054904000000016c05a203020101
  continue 1 context - info -
  last 1 id 1 number 1 op - param -
reject 1 1 result 2
  done
continue 1
  send 65164804000000014904000000056c08a406020101820102
cancel 1 1
  refused 5
raw 6406490400000001
  end 1 context - info -
  over
# A lapse.
dialogue
state
  Fresh peer false
invoke 1 1 1 10 1000
  number 1
begin 1
  send 62104804000000016c08a10602010102010a
due 999
  0
due 1000
  1
first 1000
  Some(1)
next
  Some(1000)
one 1 999
  None
one 1 1000
  Some(1)
next
  None
begin 1
  refused 3
free 1000
# A lapse, once, not before the deadline.
dialogue
state
  Fresh peer false
invoke 1 1 1 10 1000
  number 1
begin 1
  send 62104804000000016c08a10602010102010a
lapse 999
lapse 1000
  (1000, 1, 1)
lapse 1000
# The first Continue alone moves the kept address.
dialogue
kept
  kept -
invoke 1 1 1 10 1000
  number 1
kept
  kept -
beginto 1 0a
  send 62104804000000016c08a10602010102010a to 0a
kept
  kept 0a
rawfrom 0b 65134804000000054904000000016c05a203020101
  continue 1 context - info -
  last 1 id 1 number 1 op - param -
kept
  kept 0b
rawfrom 0c 650c480400000005490400000001
  continue 1 context - info -
kept
  kept 0b
continue 1
  send 650c480400000001490400000005 to 0b
rawfrom 0d 6406490400000001
  end 1 context - info -
  over
# The address that is kept, at the greatest length in place, at one octet more, and at the greatest.
dialogue
beginto 1 0a+29
  send 6206480400000001 to 0a0000000000000000000000000000000000000000000000000000000000
kept
  kept 0a0000000000000000000000000000000000000000000000000000000000
rawfrom 0b+30 650c480400000005490400000001
  continue 1 context - info -
kept
  kept 0b000000000000000000000000000000000000000000000000000000000000
rawfrom 0c+254 650c480400000005490400000001
  continue 1 context - info -
kept
  kept 0b000000000000000000000000000000000000000000000000000000000000
continue 1
  send 650c480400000001490400000005 to 0b000000000000000000000000000000000000000000000000000000000000
";

/// Of the invocations of a dialogue.
pub const INVOCATIONS: &str = "\
# Invocation list walked.
invocations
add 1 1 1 1000
add 1 2 1 5
  fault 2
add 2 2 1 0
  fault 3
sent 0
lapse 1000
  (1000, 1, 1)
add 2 2 1 5
close
  2 2
close
# Class two and waiting.
invocations
add 1 1 2 10
sent 5
result 1 more 6
  unexpected 1
result 1 more 6
  unknown
add 2 2 1 10
sent 5
result 2 last 7
  good 2
open 2
  open false used true
error 2 7
  unknown
lapse 1006
open 2
  open false used true
lapse 1007
open 2
  open false used false
# Lapses in order.
invocations
add 5 3 1 20
add 6 4 1 10
add 7 5 1 10
sent 0
due 20
  3
first 20
  (10, 4, 6)
next
  10
one 5 10
  -
lapse 20
  (10, 4, 6)
  (10, 5, 7)
  (20, 3, 5)
next
  -
free 20
# More than stand one after the other.
invocations
add 1 1 1 110
add 2 2 1 120
add 3 3 1 130
add 4 4 1 140
add 5 5 1 150
add 6 6 1 160
add 7 7 1 170
add 8 8 1 180
sent 0
result 2 last 5
  good 2
giveup 4
  4
add 9 9 1 50
add 10 10 1 40
add 11 11 1 30
sent 20
next
  50
open 2
  open false used true
open 4
  open false used false
lapse 110
  (50, 11, 11)
  (60, 10, 10)
  (70, 9, 9)
  (110, 1, 1)
close
  3 3
  5 5
  6 6
  7 7
  8 8
next
  -
# Rejected and given up.
invocations
add 5 3 1 20
add 6 4 1 10
add 7 5 1 10
sent 0
reject 5 result
  -
reject 5 general
  3
giveup 6
  4
freewait 7
  false
# Three lapse, and one waits.
invocations
add 0 1 1 10
add 1 2 1 10
add 2 3 1 10
add 3 4 1 10
sent 0
error 3 1
  good 4
lapse 10
  (10, 1, 0)
  (10, 2, 1)
  (10, 3, 2)
open 3
  open false used true
add 99 200 1 10
open 99
  open false used true
# Three are closed with the dialogue, and one that waits is not told.
invocations
add 0 1 1 10
add 1 2 1 10
add 2 3 1 10
add 3 4 1 10
sent 0
error 3 1
  good 4
close
  1 0
  2 1
  3 2
open 3
  open false used false
# Where all wait, nothing is told of a lapse or of the end, and an Invoke is refused before memory.
invocations
add 0 1 1 10
add 1 2 1 10
sent 0
error 0 2
  good 1
error 1 2
  good 2
add 1 200 1 0
  fault 3
add 1 200 1 5
  fault 2
lapse 10
close
open 1
  open false used false
";
