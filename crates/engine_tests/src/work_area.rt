// What accepted calls do, and what they leave untouched.
use crate::shared::{SUM, nothing_there, number, shown, told};
use calls::call::{Answer, Call};
use calls::play::play;
use engine::record::Record;
use language::faults::Fault;
use machine::cells::Cell;

#[test]
fn bring_writes_its_words_alone(rt: HostRuntime) {
    let mut buffer = [5u32; 18];
    let mut record = Record::new();
    assert_eq!(rt;
        number(record.bring(&mut buffer, &[Cell::Unset; 9], &SUM)),
        (0, 0)
    );
    assert_eq!(rt; &buffer[..16], &SUM[..]);
    assert_eq!(rt; buffer[16], 5);
    assert_eq!(rt; buffer[17], 5);
}

#[test]
fn begin_touches_its_frame_alone(rt: HostRuntime) {
    let mut buffer = [5u32; 20];
    let mut cells = [Cell::Number(99); 9];
    let mut record = Record::new();
    // an image with two slots, whose code 1 ends with nothing
    assert_eq!(rt;
        number(record.bring(&mut buffer, &cells, &[2, 0, 22, 27, 2, 0])),
        (0, 0)
    );
    assert_eq!(rt; number(record.begin(&buffer, &mut cells)), (0, 0));
    let expected = [
        (3, 0),
        (3, 0),
        (3, 0),
        (3, 2),
        (0, 0),
        (0, 0),
        (1, 99),
        (1, 99),
        (1, 99),
    ];
    for (cell, wanted) in cells.iter().zip(&expected) {
        assert_eq!(rt; shown(*cell), *wanted);
    }
    assert_eq!(rt;
        told(record.resume(&buffer, &mut cells, &mut nothing_there(), 5)),
        (1, 1, 0, 0)
    );
}

#[test]
fn stops_and_trouble_end_a_run(rt: HostRuntime) {
    let mut buffer = [5u32; 20];
    let mut cells = [Cell::Number(99); 9];
    let mut host = nothing_there();
    let mut record = Record::new();
    // 7 / 0
    assert_eq!(rt;
        number(record.bring(&mut buffer, &cells, &[5, 1, 22, 1, 1, 6, 27, 0, 7, 0, 0, 1])),
        (0, 0)
    );
    assert_eq!(rt; number(record.begin(&buffer, &mut cells)), (0, 0));
    assert_eq!(rt;
        told(record.resume(&buffer, &mut cells, &mut host, 0)),
        (0, 0, 0, 0)
    );
    assert_eq!(rt;
        told(record.resume(&buffer, &mut cells, &mut host, 9)),
        (2, 2, 41, 3)
    );
    assert_eq!(rt;
        told(record.resume(&buffer, &mut cells, &mut host, 9)),
        (0, 2, 41, 3)
    );
    // a slot that was never set
    assert_eq!(rt;
        number(record.bring(&mut buffer, &cells, &[3, 1, 22, 3, 27, 1, 0, 1])),
        (0, 0)
    );
    assert_eq!(rt;
        told(record.resume(&buffer, &mut cells, &mut host, 9)),
        (0, 9, 34, 0)
    );
    assert_eq!(rt; number(record.begin(&buffer, &mut cells)), (0, 0));
    assert_eq!(rt;
        told(record.resume(&buffer, &mut cells, &mut host, 9)),
        (0, 2, 52, 1)
    );
    record.clear();
    assert_eq!(rt;
        told(record.resume(&buffer, &mut cells, &mut host, 9)),
        (0, 9, 34, 0)
    );
}

// Stays in numbers: the expected values were written down in them, and tests keep their values.
// An answer as a number: 0 admitted, 1 brought, 2 begun, 3 continued, 4 cleared, and a refusal's own number.
fn kind(answer: Result<Answer, Fault>) -> u8 {
    match answer {
        Ok(Answer::Admitted(_)) => 0,
        Ok(Answer::Brought(_)) => 1,
        Ok(Answer::Begun) => 2,
        Ok(Answer::Continued(_)) => 3,
        Ok(Answer::Cleared) => 4,
        Err(fault) => fault.cause.number(),
    }
}

#[test]
fn plays_as_many_as_there_are_answers(rt: HostRuntime) {
    let mut buffer = [5u32; 20];
    let mut cells = [Cell::Number(99); 9];
    let mut host = nothing_there();
    let mut record = Record::new();
    let calls = [
        Call::Begin,
        Call::Bring(&SUM),
        Call::Begin,
        Call::Continue(3),
        Call::Clear,
    ];
    let mut answers = [Ok(Answer::Cleared); 4];
    assert_eq!(rt;
        play(
            &mut record,
            &mut buffer,
            &mut cells,
            &mut host,
            &calls,
            &mut answers
        ),
        4
    );
    assert_eq!(rt; answers.map(kind), [31, 1, 2, 3]);
    assert_eq!(rt;
        told(record.resume(&buffer, &mut cells, &mut host, 9)),
        (3, 1, 7, 0)
    );
}
