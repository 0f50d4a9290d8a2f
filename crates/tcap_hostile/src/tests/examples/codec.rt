//! Examples of a feed, of the writers and of the texts.

/// Of a feed.
pub const FEEDS: &str = "\
# Feed fault after a message.
feed
push 6206
rest
  2
fault
push 48040000000100
  6206480400000001
fault
  fault ber 2
rest
  0
push -
  fault ber 2
# One octet at a time.
feed
push 62
push 80
push 48
push 04
push 00
push 00
push 00
push 01
push 6c
push 80
push a1
push 80
push 02
push 01
push 01
push 02
push 01
push 02
push 30
push 80
push 04
push 01
push aa
push 00
push 00
push 00
push 00
push 00
push 00
push 00
push 00
  62804804000000016c80a18002010102010230800401aa0000000000000000
# The feed at its limit, passed.
feed
push 6282ffff+65531
rest
  65535
fault
push 00
  fault too long
rest
  0
# The feed at its limit, kept.
feed
push 6282fffb+65531
  65535 octets
rest
  0
";

/// Of the writers and of the texts.
pub const CODEC: &str = "\
# Identifiers, heads and elements; integers.
codec
head
  6c81c8
element
  0401aa
longhead
  7f2282012c
longelement
  5f2201aa
int 128
  02020080
# A Begin at the limit.
codec
frame 6282fffb4804000000016c82fff1+65521
  65535 octets
frame 6282fffc4804000000016c82fff2+65522
  fault 2
# An AARQ written.
codec
aarq 04000001000103
  281c060700118605010101a011600f80020780a109060704000001000103
aarq 80 0400
  fault 3
aarq 04000001000103 0400
  fault 4
aarq 04000001000103 2882fffb+65531
  fault 2
# Components written.
codec
invoke 1 10
  a10602010102010a
invoke 1 x80 0405aa
  fault 3
invoke 1 1 0405aa
  fault 2
invoke 1 1 0482fffb+65531
  fault 4
component a406020107800100
  a406020107800100
# A Begin shown.
codec
show 62154804000000016c0da10b02010102010230030401aa
  begin
    otid 00000001
    components 13
      invoke 1 linked - op local 2 param 30030401aa
check 62154804000000016c0da10b02010102010230030401aa
  good
# Canon of indefinite lengths, canon of long lengths.
codec
canon 62804804000000016c80a18002010102010230800401aa0000000000000000
  62174804000000016c0fa10d02010102010230800401aa0000
canon 6281154804000000016c0da10b02010102010230030401aa
  62154804000000016c0da10b02010102010230030401aa
canon 628200154804000000016c0da10b02010102010230030401aa
  62154804000000016c0da10b02010102010230030401aa
# Check verdicts.
codec
check 62084804000000016c00
  good
check 620f4804000000016c07a4050500800102
  good
check 62104804000000016c08a406020101810109
  good
check 6203480107
  good
check 620748050000000001
  fault incorrect
check 62024800
  fault incorrect
canon 62084804000000016c00
  6206480400000001
# Faults shown.
codec
show 6500
  fault incorrect
show 620648040000000100
  fault badly formatted
show 62024800
  fault incorrect
# An Abort shown.
codec
show 67094904000000014a0102
  abort
    dtid 00000001
    cause 2
frame 67094904000000014a0102
  67094904000000014a0102
# An AARQ shown.
codec
show 62354804000000016b1e281c060700118605010101a011600f80020780a1090607040000010001036c0da10b02010102010230030401aa
  begin
    otid 00000001
    dialogue 30
      aarq version yes context 04000001000103 info -
    components 13
      invoke 1 linked - op local 2 param 30030401aa
show 62264804000000016b1e281c060700118605010101a011600f80020700a109060704000001000103
  begin
    otid 00000001
    dialogue 30
      aarq version no context 04000001000103 info -
# A foreign portion.
codec
show 670f4904000000016b07280506012aa000
  abort
    dtid 00000001
    dialogue 7
      foreign 280506012aa000
show 620f4804000000016b07280506012aa000
  begin
    otid 00000001
    dialogue 7
      foreign 280506012aa000
# A faulty component shown.
codec
show 65254804000000054904000000016c17a203020180a503020107a20302017fa30602017f020101
  continue
    otid 00000005
    dtid 00000001
    components 23
      result last -128 op - param -
      faulty 7 general 0
check 65254804000000054904000000016c17a203020180a503020107a20302017fa30602017f020101
  fault component 2
# Canon writes the version.
codec
canon 62224804000000016b1a2818060700118605010101a00d600ba109060704000001000103
  62264804000000016b1e281c060700118605010101a011600f80020780a109060704000001000103
";
