//! Each row of the table of components.

use super::rows::all_are_explained;
use std::test::Fail;

/// Components, and what is said of them.
const COMPONENTS: &str = "\
62074801016c020400
fault component 1
place 7 element 7: expected a component 0xa1, 0xa2, 0xa3, 0xa4 or 0xa7, found 0x04

620c4801016c07a203020101a500
fault component 2
place 12 element 12: expected a component 0xa1, 0xa2, 0xa3, 0xa4 or 0xa7, found 0xa5

62074801016c02a100
fault component 1
place 9 element 9: expected the invoke identifier 0x02, found the end

620a4801016c05a103040101
fault component 1
place 9 element 9: expected the invoke identifier 0x02, found 0x04

620a4801016c05a103020101
fault component 1
place 12 element 12: expected the linked identifier 0x80, the local code 0x02 or the global code 0x06, found the end

620c4801016c07a1050201010500
fault component 1
place 12 element 12: expected the linked identifier 0x80, the local code 0x02 or the global code 0x06, found 0x05

620d4801016c08a106020101800102
fault component 1
place 15 element 15: expected the local code 0x02 or the global code 0x06, found the end

620e4801016c09a10702010180020102
fault component 1
place 14 element 12: expected an identifier of one octet, found 2 octets from 0x01

62114801016c0ca10a02010102010204000400
fault component 1
place 17 element 17: expected the end, found 0x04

620c4801016c07a1050201010600
fault component 1
place 14 element 12: expected an object identifier, found 0 octets

620c4801016c07a1050201010200
fault component 1
place 14 element 12: expected a local code of 1 to 4 octets in the fewest octets, found 0 octets

62074801016c02a200
fault component 1
place 9 element 9: expected the invoke identifier 0x02, found the end

620c4801016c07a2050201010400
fault component 1
place 12 element 12: expected the sequence 0x30 or the end, found 0x04

620c4801016c07a2053000020101
fault component 1
place 9 element 9: expected the invoke identifier 0x02, found 0x30

620c4801016c07a2050201013000
fault component 1
place 14 element 14: expected the local code 0x02 or the global code 0x06, found the end

62114801016c0ca20a02010130030201023000
fault component 1
place 17 element 17: expected the end, found 0x30

62134801016c0ea20c020101300702010204000400
fault component 1
place 19 element 19: expected the end, found 0x04

620d4801016c08a206020101300102
fault component 1
place 15 element 14: expected more octets, found the end

62094801016c04a7020200
fault component 1
place 11 element 9: expected an identifier of one octet, found 0 octets

62074801016c02a300
fault component 1
place 9 element 9: expected the invoke identifier 0x02, found the end

620a4801016c05a303020101
fault component 1
place 12 element 12: expected the local code 0x02 or the global code 0x06, found the end

620d4801016c08a306020101800102
fault component 1
place 12 element 12: expected the local code 0x02 or the global code 0x06, found 0x80

62074801016c02a400
fault component 1
place 9 element 9: expected the invoke identifier 0x02 or the null 0x05, found the end

620a4801016c05a403020101
fault component 1
place 12 element 12: expected the problem 0x80, 0x81, 0x82 or 0x83, found the end

620d4801016c08a406800100020101
fault component 1
place 9 element 9: expected the invoke identifier 0x02 or the null 0x05, found 0x80

62104801016c0ba409020101800100800100
fault component 1
place 15 element 15: expected the end, found 0x80

620d4801016c08a406050100800100
fault component 1
place 11 element 9: expected a null of no octets, found 1 octet from 0x00

620d4801016c08a406020101830180
fault component 1
place 14 element 12: expected a problem code of one octet 0x00 to 0x7f, found 1 octet from 0x80

62094801016c04a1050201
fault component 1
place 11 element 7: expected 3 more octets, found the end

620b4801016c06a18004000000
fault component 1
place 9 element 9: expected the invoke identifier 0x02, found 0x04

62114801016c0ca30a02010102010204000400
fault component 1
place 17 element 17: expected the end, found 0x04

620d4801016c08a30606012a020101
fault component 1
place 9 element 9: expected the invoke identifier 0x02, found 0x06

62074801016c02a700
fault component 1
place 9 element 9: expected the invoke identifier 0x02, found the end

620a4801016c05a703040101
fault component 1
place 9 element 9: expected the invoke identifier 0x02, found 0x04

620c4801016c07a7050201010400
fault component 1
place 12 element 12: expected the sequence 0x30 or the end, found 0x04

620c4801016c07a7053000020101
fault component 1
place 9 element 9: expected the invoke identifier 0x02, found 0x30

620c4801016c07a7050201013000
fault component 1
place 14 element 14: expected the local code 0x02 or the global code 0x06, found the end

62114801016c0ca70a02010130030201023000
fault component 1
place 17 element 17: expected the end, found 0x30

62812a4801016b8200152813060700118605010101a0086006a10406022a036c82000aa203020101a303020102
fault component 2
place 45 element 45: expected the local code 0x02 or the global code 0x06, found the end

62104801016c0ba109800102020101020102
fault component 1
place 9 element 9: expected the invoke identifier 0x02, found 0x80

620e4801016c09a20702010130020500
fault component 1
place 14 element 14: expected the local code 0x02 or the global code 0x06, found 0x05

62114801016c0ca20a02010130050400020101
fault component 1
place 14 element 14: expected the local code 0x02 or the global code 0x06, found 0x04

620d4801016c08a406020101840100
fault component 1
place 12 element 12: expected the problem 0x80, 0x81, 0x82 or 0x83, found 0x84";

#[test]
fn tables_of_components(rt: HostRuntime) -> Result<(), Fail> {
    all_are_explained(rt.alloc(), COMPONENTS)?;
    Ok(())
}
