// The record host, run.
use host::Host;
use language::faults::Stop;
use record_host::check::check as checked;
use record_host::record::RecordHost;
use std::array;
use std::test::Fail;

// The host of a record, or the number that its checking is refused by.
fn made(words: &[u32], accounts: u32, lines: u32) -> Result<RecordHost, u8> {
    checked(words, accounts, lines)
        .map(RecordHost::new)
        .map_err(|fault| fault.cause.number())
}

// Stays in numbers: the expected values were written down in them, and tests keep their values.
// The number that words are refused by, or 0.
fn refusal(words: &[u32], accounts: u32, lines: u32) -> u8 {
    made(words, accounts, lines).err().unwrap_or(0)
}

// Two amounts and two flags, one field with both.
const RECORD: [u32; 10] = [2, 2, 3, 7, 7, 9, 4_294_967_295, 5, 1, 0];

#[test]
fn lengths(rt: HostRuntime) {
    assert_eq!(rt; refusal(&[], 1, 1), 61, "empty");
    assert_eq!(rt; refusal(&[0], 1, 1), 61, "one count");
    assert_eq!(rt; refusal(&[0, 0], 1, 1), 0, "no field");
    assert_eq!(rt; refusal(&[0, 0, 0], 1, 1), 61, "a word too many");
    assert_eq!(rt; refusal(&[1, 0], 1, 1), 61, "no number");
    assert_eq!(rt; refusal(&[1, 0, 5], 1, 1), 61, "no value");
    assert_eq!(rt; refusal(&[1, 1, 5, 5, 0], 1, 1), 61, "one value short");
    assert_eq!(rt; refusal(&[256; 1028], 1, 1), 61, "longer than any record");
    assert_eq!(rt; refusal(&[257, 0], 1, 1), 61, "a count above 256");
    assert_eq!(rt; refusal(&[0, 257], 1, 1), 61, "the other above 256");
    assert_eq!(rt;
        refusal(&[2_147_483_648, 2_147_483_648], 1, 1),
        61,
        "counts whose sum wraps"
    );
    assert_eq!(rt;
        refusal(&[4_294_967_295, 4_294_967_295], 1, 1),
        61,
        "the greatest counts"
    );
}

#[test]
fn contents(rt: HostRuntime) {
    assert_eq!(rt; refusal(&RECORD, 1, 1), 0, "lawful");
    assert_eq!(rt; refusal(&[2, 0, 5, 5, 1, 1], 1, 1), 61, "equal amounts");
    assert_eq!(rt; refusal(&[2, 0, 6, 5, 1, 1], 1, 1), 61, "falling amounts");
    assert_eq!(rt; refusal(&[0, 2, 5, 5, 1, 1], 1, 1), 61, "equal flags");
    assert_eq!(rt; refusal(&[0, 2, 6, 5, 1, 1], 1, 1), 61, "falling flags");
    assert_eq!(rt;
        refusal(&[1, 1, 6, 5, 1, 1], 1, 1),
        0,
        "no order between the groups"
    );
    assert_eq!(rt; refusal(&[1, 0, 256, 1], 1, 1), 61, "an amount's number");
    assert_eq!(rt; refusal(&[0, 1, 256, 1], 1, 1), 61, "a flag's number");
    assert_eq!(rt;
        refusal(&[1, 1, 255, 255, 2, 1], 1, 1),
        0,
        "the greatest numbers"
    );
    assert_eq!(rt; refusal(&[1, 1, 5, 5, 1, 2], 1, 1), 61, "a flag of 2");
    assert_eq!(rt;
        refusal(&[0, 2, 5, 6, 1, 4_294_967_295], 1, 1),
        61,
        "the last flag"
    );
}

#[test]
fn limits(rt: HostRuntime) {
    assert_eq!(rt; refusal(&RECORD, 256, 65_535), 0);
    assert_eq!(rt; refusal(&RECORD, 257, 65_535), 62);
    assert_eq!(rt; refusal(&RECORD, 256, 65_536), 62);
    assert_eq!(rt; refusal(&RECORD, 4_294_967_295, 0), 62);
    assert_eq!(rt; refusal(&[1], 257, 65_536), 61, "the record comes first");
}

#[test]
fn answers(rt: HostRuntime) -> Result<(), Fail> {
    let host = made(&RECORD, 2, 3)?;
    assert_eq!(rt; host.amount(3), Ok(-1));
    assert_eq!(rt; host.amount(7), Ok(5));
    assert_eq!(rt;
        host.amount(9),
        Err(Stop::NothingThere),
        "a flag is no amount"
    );
    assert_eq!(rt; host.flag(7), Ok(true));
    assert_eq!(rt; host.flag(9), Ok(false));
    assert_eq!(rt;
        host.flag(3),
        Err(Stop::NothingThere),
        "an amount is no flag"
    );
    assert_eq!(rt; host.total(1), Some(0));
    assert_eq!(rt; host.total(2), None);
    assert_eq!(rt; host.accounts(), 2);
    assert_eq!(rt; host.lines(), 3);
    Ok(())
}

// An amount of 12,000 for field 0 and of -5 for field 3, and a flag for field 1.
#[test]
fn example(rt: HostRuntime) -> Result<(), Fail> {
    let host = made(&[2, 1, 0, 3, 1, 12_000, 4_294_967_291, 1], 1, 1)?;
    assert_eq!(rt; host.amount(0), Ok(12_000));
    assert_eq!(rt; host.amount(3), Ok(-5));
    assert_eq!(rt; host.flag(1), Ok(true));
    assert_eq!(rt; host.amount(1), Err(Stop::NothingThere));
    Ok(())
}

// The word at a place of the longest record there is, in which every field has an amount and a flag.
fn word(place: usize) -> u32 {
    match place {
        0 | 1 => 256,
        2..514 => (place as u32 - 2) % 256,
        514..770 => 2_147_483_648 + (place as u32 - 514),
        _ => (place % 2) as u32,
    }
}

#[test]
fn longest(rt: HostRuntime) -> Result<(), Fail> {
    let words: [u32; 1026] = array::from_fn(word);
    let host = made(&words, 0, 0)?;
    assert_eq!(rt; host.amount(0), Ok(-2_147_483_648));
    assert_eq!(rt; host.amount(255), Ok(-2_147_483_393));
    assert_eq!(rt; host.flag(0), Ok(false));
    assert_eq!(rt; host.flag(255), Ok(true));
    assert_eq!(rt; host.total(0), None);
    Ok(())
}

#[test]
fn postings(rt: HostRuntime) -> Result<(), Fail> {
    let mut host = made(&RECORD, 256, 65_535)?;
    for _ in 0..65_534 {
        host.post(255, -2_147_483_648)?;
    }
    assert_eq!(rt; host.lines(), 1);
    host.post(255, -2_147_483_648)?;
    assert_eq!(rt;
        host.post(255, 1),
        Err(Stop::PostingRefused),
        "no line left"
    );
    assert_eq!(rt; host.total(255), Some(-140_735_340_871_680));
    assert_eq!(rt; host.total(254), Some(0));
    assert_eq!(rt; host.lines(), 0);
    let mut few = made(&RECORD, 3, 2)?;
    assert_eq!(rt; few.post(3, 7), Err(Stop::PostingRefused), "closed");
    few.post(2, 40)?;
    few.post(2, 2)?;
    assert_eq!(rt; few.total(2), Some(42));
    assert_eq!(rt; few.total(1), Some(0));
    Ok(())
}
