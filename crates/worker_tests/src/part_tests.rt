//! Where a part of an input ends.

use run_words::begins_separator;

#[test]
fn a_line_of_two_signs_ends_a_part(rt: HostRuntime) {
    assert!(rt; begins_separator(b"%%\njob 0 Look 1\n"));
    assert!(rt; begins_separator(b"%%"));
    assert!(rt; !begins_separator(b"%%\r\njob 0 Look 1\n"));
    assert!(rt; !begins_separator(b"% %\n"));
}
