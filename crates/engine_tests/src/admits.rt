// Rule sets admitted and run.
use crate::shared::{SUM, nothing_there, number, told};
use crate::tables::{ONE_BRANCH, RECURSION, SUM_TABLE, UNSET_ARGUMENT};
use engine::record::Record;
use language::faults::Fault;
use machine::cells::Cell;
use script::nodes::nodes;
use table::nodes::Node;

// The words of an image, then how its run stands.
type Outcome = (usize, (u32, u8, i32, u32));

// Admits a table and runs it, with so many cells that hold old numbers.
fn run(table: &[Node], room: usize) -> Result<Outcome, Fault> {
    let mut buffer = [99u32; 64];
    let mut all_cells = [Cell::Number(99); 100];
    let cells = &mut all_cells[..room.min(100)];
    let mut host = nothing_there();
    let mut record = Record::new();
    let words = record.admit(&mut buffer, cells, table)?;
    record.begin(&buffer, cells)?;
    Ok((words, told(record.resume(&buffer, cells, &mut host, 1000))))
}

// The same, with a refusal as its number and its place.
fn runs(table: &[Node], room: usize) -> Result<Outcome, (u8, u32)> {
    run(table, room).map_err(|fault| (fault.cause.number(), fault.place))
}

#[test]
fn rule_sets_run_to_their_endings(rt: HostRuntime) {
    let (Ok(sum), Ok(recursion)) = (nodes(rt.alloc(), &SUM_TABLE), nodes(rt.alloc(), &RECURSION))
    else {
        panic!(rt; "no memory for the tables")
    };
    assert_eq!(rt; runs(&sum, 100), Ok((16, (6, 1, 7, 0))));
    assert_eq!(rt; runs(&sum, 6), Ok((16, (2, 2, 43, 3))));
    assert_eq!(rt; runs(&recursion, 100), Ok((44, (60, 1, 10, 0))));
}

// The number and the place of the refusal of a table; 0 where it is admitted.
fn refused(table: &[Node], buffer: &mut [u32]) -> (u8, u32) {
    let cells = [Cell::Unset; 4];
    let mut record = Record::new();
    number(record.admit(buffer, &cells, table))
}

#[test]
fn variables_that_are_not_set_are_refused(rt: HostRuntime) {
    let (Ok(branch), Ok(argument)) = (
        nodes(rt.alloc(), &ONE_BRANCH),
        nodes(rt.alloc(), &UNSET_ARGUMENT),
    ) else {
        panic!(rt; "no memory for the tables")
    };
    let mut buffer = [99u32; 64];
    assert_eq!(rt; refused(&branch, &mut buffer), (17, 28));
    assert_eq!(rt; refused(&argument, &mut buffer), (17, 27));
    assert_eq!(rt; refused(&branch[..7], &mut buffer), (11, 0));
    assert_eq!(rt; refused(&[], &mut buffer), (11, 0));
    assert_eq!(rt; buffer, [99u32; 64]);
}

#[test]
fn images_need_room(rt: HostRuntime) {
    let Ok(sum) = nodes(rt.alloc(), &SUM_TABLE) else {
        panic!(rt; "no memory for the table")
    };
    let mut short = [99u32; 15];
    assert_eq!(rt; refused(&sum, &mut short), (20, 0));
    assert_eq!(rt; short, [99u32; 15]);
    let mut exact = [99u32; 16];
    assert_eq!(rt; refused(&sum, &mut exact), (0, 0));
    assert_eq!(rt; exact, SUM);
    let mut longer = [99u32; 17];
    assert_eq!(rt; refused(&sum, &mut longer), (0, 0));
    assert_eq!(rt; longer[16], 99);
}
