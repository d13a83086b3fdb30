// Lists of calls, played.
use crate::shared::{SUM, nothing_there, told};
use crate::tables::{ONE_BRANCH, SUM_TABLE};
use calls::call::{Answer, Call};
use calls::play::play;
use engine::record::Record;
use language::faults::Fault;
use machine::cells::Cell;
use script::nodes::nodes;
use table::nodes::Node;

// Stays in numbers: the expected values were written down in them, and tests keep their values.
// An answer: 1 admitted, 2 brought, 3 begun, 4 continued, 5 cleared, 6 refused; then its words; then how the run stands, or the refusal's number and place.
fn shown(answer: Result<Answer, Fault>) -> (u8, usize, (u32, u8, i32, u32)) {
    match answer {
        Ok(Answer::Admitted(words)) => (1, words, (0, 0, 0, 0)),
        Ok(Answer::Brought(words)) => (2, words, (0, 0, 0, 0)),
        Ok(Answer::Begun) => (3, 0, (0, 0, 0, 0)),
        Ok(Answer::Continued(ran)) => (4, 0, told(Ok(ran))),
        Ok(Answer::Cleared) => (5, 0, (0, 0, 0, 0)),
        Err(fault) => (6, 0, (0, fault.cause.number(), 0, fault.place)),
    }
}

static EXPECTED: [(u8, usize, (u32, u8, i32, u32)); 11] = [
    (6, 0, (0, 31, 0, 0)),
    (1, 16, (0, 0, 0, 0)),
    (6, 0, (0, 34, 0, 0)),
    (3, 0, (0, 0, 0, 0)),
    (4, 0, (2, 0, 0, 0)),
    (6, 0, (0, 17, 0, 28)),
    (4, 0, (4, 1, 7, 0)),
    (2, 16, (0, 0, 0, 0)),
    (3, 0, (0, 0, 0, 0)),
    (4, 0, (6, 1, 7, 0)),
    (5, 0, (0, 0, 0, 0)),
];

// Twelve calls with places for eleven answers: how many were played, and the answers.
fn played<'a>(
    sum: &'a [Node],
    branch: &'a [Node],
    image: &'a [u32],
) -> (usize, [Result<Answer, Fault>; 11]) {
    let calls = [
        Call::Begin,
        Call::Admit(sum),
        Call::Continue(5),
        Call::Begin,
        Call::Continue(2),
        Call::Admit(branch),
        Call::Continue(10),
        Call::Bring(image),
        Call::Begin,
        Call::Continue(1000),
        Call::Clear,
        Call::Begin,
    ];
    let mut buffer = [99u32; 20];
    let mut cells = [Cell::Number(99); 12];
    let mut host = nothing_there();
    let mut record = Record::new();
    let mut answers = [Ok(Answer::Begun); 11];
    let count = play(
        &mut record,
        &mut buffer,
        &mut cells,
        &mut host,
        &calls,
        &mut answers,
    );
    (count, answers)
}

#[test]
fn lists_are_played(rt: HostRuntime) {
    let (Ok(sum), Ok(branch)) = (
        nodes(rt.alloc(), &SUM_TABLE),
        nodes(rt.alloc(), &ONE_BRANCH),
    ) else {
        panic!(rt; "no memory for the tables")
    };
    let (count, answers) = played(&sum, &branch, &SUM);
    assert_eq!(rt; count, 11);
    assert_eq!(rt; answers.map(shown), EXPECTED);
}
