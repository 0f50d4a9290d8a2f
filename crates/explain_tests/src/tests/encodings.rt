//! Each row of the table of faults of an encoding.

use super::rows::all_are_explained;
use std::test::Fail;

/// Encodings, and what is said of them; the first has no octets.
const ENCODINGS: &str = "
fault badly formatted
place 0 element 0: expected an element, found the end

00
fault badly formatted
place 0 element 0: expected a tag, found 0x00

1f80
fault badly formatted
place 1 element 0: expected a tag, found 0x80

1f8181818101
fault badly formatted
place 4 element 0: expected a tag, found 0x81

62ff
fault badly formatted
place 1 element 0: expected a length of at most 65535, found 0xff

6283010000
fault badly formatted
place 4 element 0: expected a length of at most 65535, found 0x00

4280
fault badly formatted
place 1 element 0: expected a definite length behind a primitive tag, found 0x80

628030803080308030803080308030803080308030803080308030803080308030803080308030803080308030803080308030803080308030803080308030803080
fault badly formatted
place 65 element 0: expected at most 32 open elements of indefinite length, found 0x80

62
fault badly formatted
place 1 element 0: expected more octets, found the end

62800001
fault badly formatted
place 3 element 0: expected the second 0x00 of an end-of-contents, found 0x01

628000
fault badly formatted
place 3 element 0: expected more octets, found the end

6205480101040000
fault badly formatted
place 7 element 7: expected the end, found 0x00

6205480101ff80
fault badly formatted
place 6 element 5: expected a tag, found 0x80

62054801010080
fault badly formatted
place 5 element 5: expected a tag, found 0x00

62054801000080
fault badly formatted
place 5 element 5: expected a tag, found 0x00

62804801010005
fault badly formatted
place 6 element 0: expected the second 0x00 of an end-of-contents, found 0x05

628048010142800000
fault badly formatted
place 6 element 0: expected a definite length behind a primitive tag, found 0x80

7f0206480400000001
fault unknown type
place 0 element 0: expected a message 0x61, 0x62, 0x64, 0x65 or 0x67, found 0x7f

62804901010000
fault incorrect
place 2 element 2: expected the originating transaction identifier 0x48, found 0x49

62054801014aff
fault badly formatted
place 6 element 5: expected a length of at most 65535, found 0xff

62054801014280
fault badly formatted
place 6 element 5: expected a definite length behind a primitive tag, found 0x80

62054801016c05
fault badly formatted
place 7 element 5: expected 5 more octets, found the end

62094801016c04a1010200
fault component 1
place 10 element 9: expected more octets, found the end

620a4801016c05a101021000
fault component 1
place 10 element 9: expected more octets, found the end

6245480101308030803080308030803080308030803080308030803080308030803080308030803080308030803080308030803080308030803080308030803080308030803080
fault badly formatted
place 70 element 5: expected at most 32 open elements of indefinite length, found 0x80";

#[test]
fn faults_of_an_encoding(rt: HostRuntime) -> Result<(), Fail> {
    all_are_explained(rt.alloc(), ENCODINGS)?;
    Ok(())
}
