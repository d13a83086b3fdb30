// Words, and the numbers that they write.
use script::numbers::{signed, word};
use script::problem::Problem;

#[test]
fn words(rt: HostRuntime) {
    assert_eq!(rt; word(b"0"), Ok(0));
    assert_eq!(rt; word(b"007"), Ok(7));
    assert_eq!(rt; word(b"4294967295"), Ok(4_294_967_295));
    assert_eq!(rt; word(b"4294967296"), Err(Problem::TooLarge));
    assert_eq!(rt; word(b"99999999999999999999999999"), Err(Problem::TooLarge));
    assert_eq!(rt; word(b""), Err(Problem::NotNumber));
    assert_eq!(rt; word(b"-1"), Err(Problem::NotNumber));
    assert_eq!(rt; word(b"+1"), Err(Problem::NotNumber));
    assert_eq!(rt; word(b"1x"), Err(Problem::NotNumber));
    assert_eq!(rt; word(b"1\x00"), Err(Problem::NotNumber));
    assert_eq!(rt; word(b"/"), Err(Problem::NotNumber));
    assert_eq!(rt; word(b":"), Err(Problem::NotNumber));
    assert_eq!(rt; word(b"\xff"), Err(Problem::NotNumber));
}

#[test]
fn signs(rt: HostRuntime) {
    assert_eq!(rt; signed(b"0"), Ok(0));
    assert_eq!(rt; signed(b"-0"), Ok(0));
    assert_eq!(rt; signed(b"2147483647"), Ok(2_147_483_647));
    assert_eq!(rt; signed(b"2147483648"), Err(Problem::TooLarge));
    assert_eq!(rt; signed(b"-2147483648"), Ok(-2_147_483_648));
    assert_eq!(rt; signed(b"-2147483649"), Err(Problem::TooLarge));
    assert_eq!(rt; signed(b"4294967296"), Err(Problem::TooLarge));
    assert_eq!(rt; signed(b""), Err(Problem::NotNumber));
    assert_eq!(rt; signed(b"-"), Err(Problem::NotNumber));
    assert_eq!(rt; signed(b"--1"), Err(Problem::NotNumber));
    assert_eq!(rt; signed(b"1-"), Err(Problem::NotNumber));
}
