//! What is printed in JSON, and with the octets about a fault.

use super::words::run;
use std::test::Fail;

/// The option, the input, and what is written.
const FORMS: &[(&str, &str, &str)] = &[
    (
        "--json",
        "m 6207480500000000012\nm 620748050000000001\nzz\n",
        "{\"line\":1,\"bad\":\"an odd number of hexadecimal digits\"}\n{\"name\":\"m\",\"verdict\":\"fault incorrect\",\"good\":false,\"place\":4,\"element\":2,\"expected\":\"a transaction identifier of 1 to 4 octets\",\"found\":\"5 octets from 0x00\"}\n{\"line\":3,\"bad\":\"no hexadecimal digits behind the name\"}\n",
    ),
    (
        "--explain",
        "m 620748050000000001\n",
        "m fault incorrect place 4 element 2: expected a transaction identifier of 1 to 4 octets, found 5 octets from 0x00\n    62 07 48 05 00 00 00 00 01\n                ^^ ^^ ^^ ^^ ^^\n",
    ),
    // The place is the end.
    (
        "--explain",
        "m 620348\n",
        "m fault badly formatted place 3 element 0: expected 2 more octets, found the end\n    62 03 48\n             ^^\n",
    ),
    // An element is missing, and a good one stands behind the contents.
    (
        "--explain",
        "j 62124801076c0da103020101a106020102020102\n",
        "j fault component 1 place 12 element 12: expected the linked identifier 0x80, the local code 0x02 or the global code 0x06, found the end\n    62 12 48 01 07 6c 0d a1 03 02 01 01 a1 06 02 01 02 02 01 02\n                                        ^^\n",
    ),
    // The octets that an element wants stand behind the contents.
    (
        "--explain",
        "h 62134801076b04280506006c08a106020102020102\n",
        "h fault dialogue place 11 element 7: expected 3 more octets, found the end\n    62 13 48 01 07 6b 04 28 05 06 00 6c 08 a1 06 02 01 02 02 01 02\n                                     ^^\n",
    ),
    // Nothing may follow; what stands there goes on behind the contents.
    (
        "--explain",
        "m 622f4801076b20281c060700118605010101a011600f80020780a10906070400000100010304056c08a106020101020102\n",
        "m fault dialogue place 37 element 37: expected the end, found 0x04\n    .. 0f 80 02 07 80 a1 09 06 07 04 00 00 01 00 01 03 04 05 6c 08 a1 06 02 01 01 02 01 02\n                                                       ^^\n",
    ),
    // Contents of no octets: the place is the end of the element.
    (
        "--explain",
        "m 620c48006c08a106020101020102\n",
        "m fault incorrect place 4 element 2: expected a transaction identifier of 1 to 4 octets, found 0 octets\n    62 0c 48 00 6c 08 a1 06 02 01 01 02 01 02\n                ^^\n",
    ),
    // Sixteen octets before the place, and sixteen behind its octet; an element that can't be read has one mark.
    (
        "--explain",
        "m 04100102030405060708090a0b0c0d0e0f10aabbccddeeff000102030405060708090a0b0c0d0e0f\n",
        "m fault badly formatted place 18 element 18: expected the end, found 0xaa\n    .. 01 02 03 04 05 06 07 08 09 0a 0b 0c 0d 0e 0f 10 aa bb cc dd ee ff 00 01 02 03 04 05 06 07 08 09 0a ..\n                                                       ^^\n",
    ),
];

#[test]
fn forms_of_what_is_printed(rt: HostRuntime) -> Result<(), Fail> {
    let alloc = rt.alloc();
    for (option, input, written) in FORMS {
        let ran = run(alloc, &[option], input.as_bytes());
        assert!(rt;
            ran.is(1, written.as_bytes(), b""),
            "at {option}, {input:?}"
        );
    }
    Ok(())
}
