//! Numbers with their texts.

use crate::{number_text, read_number, read_wide, wide_text};

#[test]
fn writes_and_reads(rt: HostRuntime) {
    let texts = [
        (0, "0"),
        (7, "7"),
        (10, "10"),
        (65535, "65535"),
        (18446744073709551615, "18446744073709551615"),
    ];
    for (n, text) in texts {
        assert_eq!(rt; number_text(n).as_str(), text);
        assert_eq!(rt; read_number(text.as_bytes()), Some(n));
    }
}

#[test]
fn refuses(rt: HostRuntime) {
    let others = [
        "",
        "00",
        "01",
        "+1",
        "-1",
        " 1",
        "1 ",
        "18446744073709551616",
        "99999999999999999999",
        "1a",
    ];
    for other in others {
        assert_eq!(rt; read_number(other.as_bytes()), None, "{other}");
    }
}

#[test]
fn writes_and_reads_wide(rt: HostRuntime) {
    let texts = [
        (0, "0"),
        (10, "10"),
        (18446744073709551616, "18446744073709551616"),
        (
            340282366920938463463374607431768211455,
            "340282366920938463463374607431768211455",
        ),
    ];
    for (n, text) in texts {
        assert_eq!(rt; wide_text(n).as_str(), text);
        assert_eq!(rt; read_wide(text.as_bytes()), Some(n));
    }
}

#[test]
fn refuses_wide(rt: HostRuntime) {
    let others = [
        "",
        "00",
        "01",
        "+1",
        "-1",
        "1 ",
        "1a",
        "340282366920938463463374607431768211456",
        "999999999999999999999999999999999999999",
    ];
    for other in others {
        assert_eq!(rt; read_wide(other.as_bytes()), None, "{other}");
    }
}
