// The worksheet, run.
use host::Host;
use language::faults::{Fault, Stop};
use std::test::Fail;
use worksheet::charges::Charge;
use worksheet::sheet::Worksheet;

// Stays in numbers: the expected values were written down in them, and tests keep their values.
// The number that a call is refused by, or 0.
fn refusal(answer: Result<(), Fault>) -> u8 {
    answer.err().map_or(0, |fault| fault.cause.number())
}

// A worksheet, or the number that its making is refused by.
fn made(accounts: u32, lines: u32) -> Result<Worksheet, u8> {
    Worksheet::new(accounts, lines).map_err(|fault| fault.cause.number())
}

// Stays in numbers: the expected values were written down in them, and tests keep their values.
// The number that making is refused by, or 0.
fn unmade(accounts: u32, lines: u32) -> u8 {
    made(accounts, lines).err().unwrap_or(0)
}

#[test]
fn limits(rt: HostRuntime) {
    assert_eq!(rt; unmade(256, 128), 0);
    assert_eq!(rt; unmade(257, 128), 62);
    assert_eq!(rt; unmade(256, 129), 62);
    assert_eq!(rt; unmade(0, 0), 0);
    assert_eq!(rt; unmade(4_294_967_295, 4_294_967_295), 62);
}

#[test]
fn rows(rt: HostRuntime) -> Result<(), Fail> {
    let mut sheet = made(1, 1)?;
    assert_eq!(rt; sheet.amount(5), Err(Stop::NothingThere));
    assert_eq!(rt; refusal(sheet.set_amount(5, -7)), 0);
    assert_eq!(rt; sheet.amount(5), Ok(-7));
    assert_eq!(rt;
        sheet.flag(5),
        Err(Stop::NothingThere),
        "an amount is no flag"
    );
    assert_eq!(rt; refusal(sheet.set_flag(5, true)), 0);
    assert_eq!(rt; sheet.amount(5), Ok(-7), "a flag takes no amount's place");
    assert_eq!(rt; sheet.flag(5), Ok(true));
    assert_eq!(rt; refusal(sheet.set_flag(5, false)), 0);
    assert_eq!(rt; sheet.flag(5), Ok(false), "replaced");
    assert_eq!(rt; refusal(sheet.set_amount(256, 1)), 63);
    assert_eq!(rt; refusal(sheet.set_flag(4_294_967_295, true)), 63);
    assert_eq!(rt; sheet.amount(0), Err(Stop::NothingThere));
    Ok(())
}

// 32 amounts and 32 flags fill it.
#[test]
fn full(rt: HostRuntime) -> Result<(), Fail> {
    let mut sheet = made(1, 1)?;
    for field in 0..32 {
        assert_eq!(rt; refusal(sheet.set_amount(field, 100)), 0);
        assert_eq!(rt; refusal(sheet.set_flag(field, true)), 0);
    }
    assert_eq!(rt; refusal(sheet.set_amount(32, 1)), 63, "the 65th row");
    assert_eq!(rt; refusal(sheet.set_flag(255, true)), 63);
    assert_eq!(rt;
        sheet.amount(32),
        Err(Stop::NothingThere),
        "nothing is changed"
    );
    assert_eq!(rt;
        refusal(sheet.set_amount(31, -2_147_483_648)),
        0,
        "replaced when full"
    );
    assert_eq!(rt; sheet.amount(31), Ok(-2_147_483_648));
    assert_eq!(rt; sheet.amount(30), Ok(100));
    assert_eq!(rt; refusal(sheet.set_flag(0, false)), 0);
    assert_eq!(rt; sheet.flag(0), Ok(false));
    assert_eq!(rt; sheet.flag(1), Ok(true));
    Ok(())
}

#[test]
fn postings(rt: HostRuntime) -> Result<(), Fail> {
    let mut sheet = made(2, 128)?;
    assert_eq!(rt; sheet.post(2, 1), Err(Stop::PostingRefused), "closed");
    for _ in 0..127 {
        sheet.post(1, -2_147_483_648)?;
    }
    assert_eq!(rt; sheet.total(1), Some(-272_730_423_296));
    assert_eq!(rt; sheet.lines(), 1);
    sheet.post(1, -2_147_483_648)?;
    assert_eq!(rt; sheet.post(0, 1), Err(Stop::PostingRefused), "no line left");
    assert_eq!(rt; sheet.total(1), Some(-274_877_906_944));
    assert_eq!(rt; sheet.total(0), Some(0));
    assert_eq!(rt; sheet.total(2), None);
    assert_eq!(rt; sheet.lines(), 0);
    assert_eq!(rt; sheet.charges().len(), 128);
    Ok(())
}

#[test]
fn charges(rt: HostRuntime) -> Result<(), Fail> {
    let mut sheet = made(9, 3)?;
    sheet.post(8, 5)?;
    sheet.post(0, -6)?;
    let charges = [
        Charge {
            account: 8,
            value: 5,
        },
        Charge {
            account: 0,
            value: -6,
        },
    ];
    assert_eq!(rt; sheet.charges(), charges.as_slice());
    Ok(())
}
