//! Messages that were damaged on their way, and messages that were written wrongly.

use super::rows::all_are_explained;
use std::test::Fail;

/// MAP messages of which some octets were changed or cut off.
const CAPTURED: &str = "\
643e4904712ea6b46b2a2828060700118605010101
fault badly formatted
place 21 element 0: expected 43 more octets, found the end

641d4904f9bd6bbc6c15a213020101300e020102300904079194719187
fault badly formatted
place 29 element 0: expected 2 more octets, found the end

643c49048f58640c6b2a2828060700118605010101a01d611b80020780a109060704000001000e83a203020100a305a1030201006c08a306020101020101
fault dialogue
place 33 element 31: expected an object identifier, found 7 octets from 0x04

641d490438550f656c15a213020101300e02ec023009040791947131215226
fault component 1
place 31 element 17: expected more octets, found the end

655b48049eeee2ff4904d7d29ac56b2a2828060700118605
fault badly formatted
place 24 element 0: expected 69 more octets, found the end

67094904d3cfee
fault badly formatted
place 7 element 0: expected 4 more octets, found the end

643e4904b12904f86b2a282806
fault badly formatted
place 13 element 0: expected 51 more octets, found the end

655b4804f9208bde4904c26f655c6b2a2828060700118605010101a01d611b80020780a1090607040000010001032203020100a305a1030201006c21a11f020101020107301781079194718149678082010a830100a406040111040121
fault dialogue
place 46 element 46: expected the result 0xa2, found 0x22

65134804cb28dcd84904dec27a
fault badly formatted
place 13 element 0: expected 8 more octets, found the end

6200480456072e3f6b802880060700118605010101a080608080020780a180060704000001001302000000000000000000006c80a18002010002013b301304010f040eaa180da682dd6c31192d
fault badly formatted
place 2 element 2: expected the end, found 0x48

651e4804515de1eb4904345ee61a6c10a20e0201013009020107
fault badly formatted
place 26 element 0: expected 6 more octets, found the end

643c49045f2e1f576b2a2855060700118605010101a01d611b80020780a109060704000001000e03a203020100a305a1030201006c08a306020101020101
fault dialogue
place 52 element 10: expected 45 more octets, found the end

6481ae49043c83d8d86b2a2828060700118605010101a01d611b80020780a109140704000001000e03a203020100a305a1030201006c7aa2780201013073020138a36ea06c30220410781269b000000000000000000000000000000000000000000000000000000000000000000000000000000000000000000000000000000000000000000000000000000000000000000000000000000000000000000000000000000000000000000000000000000000
fault dialogue
place 32 element 32: expected the object identifier 0x06, found 0x14

655b48046bb55b90490457f1128d6b2a2828060700118605010101a01d611b80020780a109060704000001000103a203020100a305a1030201006c21a11f020101
fault badly formatted
place 65 element 0: expected 28 more octets, found the end

64554904c2ac82376b2a2828060700118605010101a01d611b8002d080a109060704000001001403a203020100a305a1030201006c21a21f020101301a02012d3015040862027132549951f0a009810791947191559651
fault dialogue
place 27 element 25: expected a protocol version in a bit string, found 2 octets from 0xd0

641d490436c68ed46c15a213020101300e0201
fault badly formatted
place 19 element 0: expected 12 more octets, found the end

64414904a79209c96b2a2828060700118605010101a01d615d80020780a109060704000001001903a203020100a305a1030201006c0da30b02010102010630030a0100
fault dialogue
place 52 element 23: expected 66 more octets, found the end

641e4904fa78ed9c6c16a214020100300f02013b301a04010f0405e8329bfd06
fault component 1
place 32 element 20: expected 16 more octets, found the end

641a4904e301da1f6c16a214020100300f02013b300a04010f0405e8329bfd06
fault badly formatted
place 28 element 28: expected the end, found 0x32

655b48047bac6cc04904c2cb31136b2a2828060700118605010101a01d611b80020780a10906070400
fault badly formatted
place 41 element 0: expected 52 more octets, found the end

624e48046ba7da506b1e281c
fault badly formatted
place 12 element 0: expected 68 more octets, found the end

641e49048141598e6c16a214020100300f02013b300a
fault badly formatted
place 22 element 0: expected 10 more octets, found the end";

/// Messages with one mistake each.
const WRITTEN: &str = "\
64104904beef00026c08a406020101800109
good

64464804dead00014904beef00026c38a2360201013031020102302c04083bfc1e6f93427ecb81202955e5cd8e46dc8ed4b7c2764d2a5a4d767706f85d8690024ad6bda3401be9c8
fault incorrect
place 2 element 2: expected the destination transaction identifier 0x49, found 0x48

620d4804dead00016c05a103020101
fault component 1
place 15 element 15: expected the linked identifier 0x80, the local code 0x02 or the global code 0x06, found the end

67094904beef00024a01c8
fault incorrect
place 10 element 8: expected a P-Abort cause of one octet 0x00 to 0x7f, found 1 octet from 0xc8

62134804dead00016c0ba109800103020101020102
fault component 1
place 12 element 12: expected the invoke identifier 0x02, found 0x80

62114804dead00016c09a10702020102020102
fault component 1
place 14 element 12: expected an identifier of one octet, found 2 octets from 0x01

625b4804dead00016b1e281c060700118605010101a011600f80020780a1090607040000010001036c32a130020101020102302804084dca182530bb1d6d811cd6237b2ed91e3f721fcb1971174494d6493c9d5c3460be31201e69fe
fault badly formatted
place 92 element 0: expected 1 more octet, found the end

623a4804dead00016c32a130020101020102302804084dca182530bb1d6d811cd6237b2ed91e3f721fcb1971174494d6493c9d5c3460be31201e69fe00
fault badly formatted
place 60 element 60: expected the end, found 0x00

62546b1e281c060700118605010101a011600f80020780a1090607040000010001036c32a130020101020102302804084dca182530bb1d6d811cd6237b2ed91e3f721fcb1971174494d6493c9d5c3460be31201e69fe
fault incorrect
place 2 element 2: expected the originating transaction identifier 0x48, found 0x6b

625a4804dead00016b1e281c060700118605010109a011600f80020780a1090607040000010001036c32a130020101020102302804084dca182530bb1d6d811cd6237b2ed91e3f721fcb1971174494d6493c9d5c3460be31201e69fe
fault dialogue
place 14 element 12: expected the abstract syntax of structured or of unstructured dialogues, found 7 octets from 0x00

64104904beef00026c08a406020101840100
fault component 1
place 15 element 15: expected the problem 0x80, 0x81, 0x82 or 0x83, found 0x84

625a4804dead00016c32a130020101020102302804084dca182530bb1d6d811cd6237b2ed91e3f721fcb1971174494d6493c9d5c3460be31201e69fe6b1e281c060700118605010101a011600f80020780a109060704000001000103
fault incorrect
place 60 element 60: expected the end, found 0x6b

65244904beef00024804dead00016c16a214020101300f020102300a0408daa0eee8b9997f5c
fault incorrect
place 2 element 2: expected the originating transaction identifier 0x48, found 0x49

65504804dead00014904beef00026b2a2828060700118605010101a01d611b80020780a109060704000001000103a203020107a305a1030201006c16a214020101300f020102300a04084c81b1baf23e3bf9
fault dialogue
place 50 element 48: expected a result of one octet 0x00 or 0x01, found 1 octet from 0x07

633a4804dead00016c32a130020101020102302804084dca182530bb1d6d811cd6237b2ed91e3f721fcb1971174494d6493c9d5c3460be31201e69fe
fault unknown type
place 0 element 0: expected a message 0x61, 0x62, 0x64, 0x65 or 0x67, found 0x63

624f4804dead00016b132811060700118605010101a0066004800207806c32a130020101020102302804084dca182530bb1d6d811cd6237b2ed91e3f721fcb1971174494d6493c9d5c3460be31201e69fe
fault dialogue
place 29 element 29: expected the application context name 0xa1, found the end

623b4805dead0001016c32a130020101020102302804084dca182530bb1d6d811cd6237b2ed91e3f721fcb1971174494d6493c9d5c3460be31201e69fe
fault incorrect
place 4 element 2: expected a transaction identifier of 1 to 4 octets, found 5 octets from 0xde

623648006c32a130020101020102302804084dca182530bb1d6d811cd6237b2ed91e3f721fcb1971174494d6493c9d5c3460be31201e69fe
fault incorrect
place 4 element 2: expected a transaction identifier of 1 to 4 octets, found 0 octets

65394804dead00014904beef00026c2ba224020101301f020102301a0408cbccc935f6cd1f61810ee15338ae1a34004d33ba0d246ac0a503020101
fault component 2
place 54 element 54: expected a component 0xa1, 0xa2, 0xa3, 0xa4 or 0xa7, found 0xa5

64356c33a231020101302c020102302704087c2999fdafe59325811b54af4dfad71427a0aeb3fee9232f8af2211f9ee491c5b10becb556
fault incorrect
place 2 element 2: expected the destination transaction identifier 0x49, found 0x6c

620748050000000001
fault incorrect
place 4 element 2: expected a transaction identifier of 1 to 4 octets, found 5 octets from 0x00

620c490400000002480400000001
fault incorrect
place 2 element 2: expected the originating transaction identifier 0x48, found 0x49

6100
fault incorrect
place 2 element 2: expected the dialogue portion 0x6b or the component portion 0x6c, found the end

620e4801016c09a10702010702020002
fault component 1
place 14 element 12: expected a local code of 1 to 4 octets in the fewest octets, found 2 octets from 0x00";

#[test]
fn captured_messages(rt: HostRuntime) -> Result<(), Fail> {
    all_are_explained(rt.alloc(), CAPTURED)?;
    Ok(())
}

#[test]
fn written_messages(rt: HostRuntime) -> Result<(), Fail> {
    all_are_explained(rt.alloc(), WRITTEN)?;
    Ok(())
}
