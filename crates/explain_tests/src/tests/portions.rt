//! Each row of the tables of the dialogue portion.

use super::rows::all_are_explained;
use std::test::Fail;

/// Dialogue portions, and what is said of them.
const PORTIONS: &str = "\
62054801016b00
fault dialogue
place 7 element 7: expected the EXTERNAL 0x28, found the end

62074801016b020400
fault dialogue
place 7 element 7: expected the EXTERNAL 0x28, found 0x04

62074801016b022800
fault dialogue
place 9 element 9: expected the abstract syntax 0x06, found the end

62094801016b0428020400
fault dialogue
place 9 element 9: expected the abstract syntax 0x06, found 0x04

620b4801016b06280406022a03
fault dialogue
place 11 element 9: expected the abstract syntax of structured or of unstructured dialogues, found 2 octets from 0x2a

62104801016b0b2809060700118605010101
fault dialogue
place 18 element 18: expected the single-ASN1-type 0xa0, found the end

62124801016b0d280b060700118605010101a100
fault dialogue
place 18 element 18: expected the single-ASN1-type 0xa0, found 0xa1

62124801016b0d280b060700118605010101a000
fault dialogue
place 20 element 20: expected the AARQ 0x60, the AARE 0x61 or the ABRT 0x64, found the end

62144801016b0f280d060700118605010101a0026200
fault dialogue
place 20 element 20: expected the AARQ 0x60, the AARE 0x61 or the ABRT 0x64, found 0x62

62124801016b0d280b060700118605010201a000
fault dialogue
place 20 element 20: expected the AUDT 0x60, found the end

62144801016b0f280d060700118605010201a0026100
fault dialogue
place 20 element 20: expected the AUDT 0x60, found 0x61

621e4801016b192817060700118605010101a00a6008a10406022a03be000400
fault dialogue
place 30 element 30: expected the end, found 0x04

621e4801016b192817060700118605010101a00c6008a10406022a03be000400
fault dialogue
place 30 element 30: expected the end, found 0x04

621e4801016b192815060700118605010101a00a6008a10406022a03be002800
fault dialogue
place 30 element 30: expected the end, found 0x28

62144801016b0f280d060700118605010101a0026000
fault dialogue
place 22 element 22: expected the protocol version 0x80 or the application context name 0xa1, found the end

62164801016b11280f060700118605010101a0046002a200
fault dialogue
place 22 element 22: expected the protocol version 0x80 or the application context name 0xa1, found 0xa2

62184801016b132811060700118605010101a006600480020780
fault dialogue
place 26 element 26: expected the application context name 0xa1, found the end

621e4801016b192817060700118605010101a00c600aa10406022a0380020780
fault dialogue
place 28 element 28: expected the user information 0xbe or the end, found 0x80

621e4801016b192817060700118605010101a00c600aa10406022a03be00be00
fault dialogue
place 30 element 30: expected the end, found 0xbe

62164801016b11280f060700118605010101a0046002a100
fault dialogue
place 24 element 24: expected the object identifier 0x06, found the end

621a4801016b152813060700118605010101a0086006a10404022a03
fault dialogue
place 24 element 24: expected the object identifier 0x06, found 0x04

621c4801016b172815060700118605010101a00a6008a10606022a030400
fault dialogue
place 28 element 28: expected the end, found 0x04

62164801016b11280f060700118605010101a00460028000
fault dialogue
place 24 element 22: expected a protocol version in a bit string, found 0 octets

621e4801016b192817060700118605010101a00c600aa10406022a03be020400
fault dialogue
place 30 element 30: expected an EXTERNAL 0x28 or the end, found 0x04

62144801016b0f280d060700118605010201a0026000
fault dialogue
place 22 element 22: expected the protocol version 0x80 or the application context name 0xa1, found the end

62144801016b0f280d060700118605010101a0026100
fault dialogue
place 22 element 22: expected the protocol version 0x80 or the application context name 0xa1, found the end

621a4801016b152813060700118605010101a0086106a10406022a03
fault dialogue
place 28 element 28: expected the result 0xa2, found the end

621f4801016b1a2818060700118605010101a00d610ba10406022a03a203020100
fault dialogue
place 33 element 33: expected the result source diagnostic 0xa3, found the end

62264801016b21281f060700118605010101a0146112a10406022a03a305a103020100a203020100
fault dialogue
place 28 element 28: expected the result 0xa2, found 0xa3

62264801016b21281f060700118605010101a0146112a10406022a03a203020102a305a103020100
fault dialogue
place 32 element 30: expected a result of one octet 0x00 or 0x01, found 1 octet from 0x02

62234801016b1e281c060700118605010101a011610fa10406022a03a200a305a103020100
fault dialogue
place 30 element 30: expected the integer 0x02, found the end

62214801016b1c281a060700118605010101a00f610da10406022a03a203020100a300
fault dialogue
place 35 element 35: expected the dialogue service user 0xa1 or the dialogue service provider 0xa2, found the end

62264801016b21281f060700118605010101a0146112a10406022a03a203020100a305a303020100
fault dialogue
place 35 element 35: expected the dialogue service user 0xa1 or the dialogue service provider 0xa2, found 0xa3

62264801016b21281f060700118605010101a0146112a10406022a03a203020100a305a103020180
fault dialogue
place 39 element 37: expected a diagnostic of one octet 0x00 to 0x7f, found 1 octet from 0x80

622a4801016b252823060700118605010101a0186116a10406022a03a203020100a305a103020100be00be00
fault dialogue
place 42 element 42: expected the end, found 0xbe

62144801016b0f280d060700118605010101a0026400
fault dialogue
place 22 element 22: expected the abort source 0x80, found the end

62164801016b11280f060700118605010101a0046402be00
fault dialogue
place 22 element 22: expected the abort source 0x80, found 0xbe

62174801016b122810060700118605010101a0056403800102
fault dialogue
place 24 element 22: expected an abort source of one octet 0x00 or 0x01, found 1 octet from 0x02

621b4801016b162814060700118605010101a0096407800100be00be00
fault dialogue
place 27 element 27: expected the end, found 0xbe

621a4801016b152813060700118605010101a0086406800100800100
fault dialogue
place 25 element 25: expected the user information 0xbe or the end, found 0x80

670b4901016b06280406022a83
fault dialogue
place 11 element 9: expected an object identifier, found 2 octets from 0x2a

62144801016b0f280da0026000060700118605010101
fault dialogue
place 9 element 9: expected the abstract syntax 0x06, found 0xa0

62164801016b11280f060700118605010201a0046002a200
fault dialogue
place 22 element 22: expected the protocol version 0x80 or the application context name 0xa1, found 0xa2

621e4801016b192817060700118605010201a00c600aa10406022a0380020780
fault dialogue
place 28 element 28: expected the user information 0xbe or the end, found 0x80

621e4801016b192817060700118605010201a00c600aa10406022a03be00be00
fault dialogue
place 30 element 30: expected the end, found 0xbe

62254801016b20281e060700118605010101a0136111a10406022a03a2020400a305a103020100
fault dialogue
place 30 element 30: expected the integer 0x02, found 0x04

62284801016b232821060700118605010101a0166114a10406022a03a2050201000400a305a103020100
fault dialogue
place 33 element 33: expected the end, found 0x04

62234801016b1e281c060700118605010101a011610fa10406022a03a203020100a302a100
fault dialogue
place 37 element 37: expected the integer 0x02, found the end

62254801016b20281e060700118605010101a0136111a10406022a03a203020100a304a1020400
fault dialogue
place 37 element 37: expected the integer 0x02, found 0x04

62284801016b232821060700118605010101a0166114a10406022a03a203020100a307a1050201000400
fault dialogue
place 40 element 40: expected the end, found 0x04

622b4801016b262824060700118605010101a0196117a10406022a03a203020100a30aa103020100a203020100
fault dialogue
place 40 element 40: expected the end, found 0xa2

62804801016b802880060700118605010101a080608000000000000000000000
fault dialogue
place 22 element 22: expected the protocol version 0x80 or the application context name 0xa1, found the end

62194801016b142812060700118605010101a0076405be00800100
fault dialogue
place 22 element 22: expected the abort source 0x80, found 0xbe

621c4801016b172815060700118605010101a00a6108a10406022a03a400
fault dialogue
place 28 element 28: expected the result 0xa2, found 0xa4

62164801016b11280f060700118605010101a0046402a200
fault dialogue
place 22 element 22: expected the abort source 0x80, found 0xa2";

#[test]
fn tables_of_the_dialogue_portion(rt: HostRuntime) -> Result<(), Fail> {
    all_are_explained(rt.alloc(), PORTIONS)?;
    Ok(())
}
