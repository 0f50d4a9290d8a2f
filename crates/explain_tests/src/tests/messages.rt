//! Each row of the table of messages: an element missing, another, one too many, out of order.

use super::rows::all_are_explained;
use std::test::Fail;

/// Messages, and what is said of them.
const MESSAGES: &str = "\
6106480400000001
fault incorrect
place 2 element 2: expected the dialogue portion 0x6b or the component portion 0x6c, found 0x48

61046c006c00
fault incorrect
place 4 element 4: expected the end, found 0x6c

61046c006b00
fault incorrect
place 4 element 4: expected the end, found 0x6b

61026b00
fault incorrect
place 4 element 4: expected the component portion 0x6c, found the end

61046b006b00
fault incorrect
place 4 element 4: expected the component portion 0x6c, found 0x6b

6200
fault incorrect
place 2 element 2: expected the originating transaction identifier 0x48, found the end

6206490400000001
fault incorrect
place 2 element 2: expected the originating transaction identifier 0x48, found 0x49

6206480101480102
fault incorrect
place 5 element 5: expected the dialogue portion 0x6b, the component portion 0x6c or the end, found 0x48

62074801016c006b00
fault incorrect
place 7 element 7: expected the end, found 0x6b

62074801016b006b00
fault incorrect
place 7 element 7: expected the component portion 0x6c or the end, found 0x6b

62094801016b006c006c00
fault incorrect
place 9 element 9: expected the end, found 0x6c

6400
fault incorrect
place 2 element 2: expected the destination transaction identifier 0x49, found the end

6403480101
fault incorrect
place 2 element 2: expected the destination transaction identifier 0x49, found 0x48

6406490101490102
fault incorrect
place 5 element 5: expected the dialogue portion 0x6b, the component portion 0x6c or the end, found 0x49

64074901016c006b00
fault incorrect
place 7 element 7: expected the end, found 0x6b

6500
fault incorrect
place 2 element 2: expected the originating transaction identifier 0x48, found the end

6503480101
fault incorrect
place 5 element 5: expected the destination transaction identifier 0x49, found the end

6503490101
fault incorrect
place 2 element 2: expected the originating transaction identifier 0x48, found 0x49

6506490101480102
fault incorrect
place 2 element 2: expected the originating transaction identifier 0x48, found 0x49

65054801016c00
fault incorrect
place 5 element 5: expected the destination transaction identifier 0x49, found 0x6c

6509480101490102490103
fault incorrect
place 8 element 8: expected the dialogue portion 0x6b, the component portion 0x6c or the end, found 0x49

6700
fault incorrect
place 2 element 2: expected the destination transaction identifier 0x49, found the end

6703480101
fault incorrect
place 2 element 2: expected the destination transaction identifier 0x49, found 0x48

67094901014a01004a0101
fault incorrect
place 8 element 8: expected the end, found 0x4a

67064a0100490101
fault incorrect
place 2 element 2: expected the destination transaction identifier 0x49, found 0x4a

67054901016c00
fault incorrect
place 5 element 5: expected the P-Abort cause 0x4a, the dialogue portion 0x6b or the end, found 0x6c

67074901014a020000
fault incorrect
place 7 element 5: expected a P-Abort cause of one octet 0x00 to 0x7f, found 2 octets from 0x00

67054901014a00
fault incorrect
place 7 element 5: expected a P-Abort cause of one octet 0x00 to 0x7f, found 0 octets

62045f080101
fault incorrect
place 2 element 2: expected the originating transaction identifier 0x48, found 0x5f

62054801016c00
good

64104904beef00026c08a406020101800109
good

6703490101
good

670b4901016b06280406022a03
good

65064801014a0101
fault incorrect
place 5 element 5: expected the destination transaction identifier 0x49, found 0x4a";

#[test]
fn tables_of_messages(rt: HostRuntime) -> Result<(), Fail> {
    all_are_explained(rt.alloc(), MESSAGES)?;
    Ok(())
}
