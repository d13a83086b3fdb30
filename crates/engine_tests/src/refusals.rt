// Each refusal, and which of two comes first.
use crate::shared::{SUM, nothing_there, number, told};
use engine::record::Record;
use machine::cells::Cell;
use std::process::Abort;
use std::test::Fail;

// Rows of words that are no image.
static FOREIGN: [&[u32]; 9] = [
    &[],
    &[1],
    &[1, 0, 22],
    &[1, 0, 22, 0, 0],
    &[0, 0],
    &[2, 0, 22, 0],
    &[1, 3, 22, 0],
    &[1, 0, 21, 0],
    &[1, 0, 22, 256],
];

// Brings each of them.
fn bring_foreign(rt: &impl Abort, record: &mut Record, buffer: &mut [u32]) {
    for words in FOREIGN.iter() {
        assert_eq!(rt;
            number(record.bring(buffer, &[Cell::Unset; 9], words)),
            (33, 0)
        );
    }
}

#[test]
fn foreign_images(rt: HostRuntime) {
    let mut buffer = [5u32; 20];
    let mut record = Record::new();
    bring_foreign(&rt, &mut record, &mut buffer);
    assert_eq!(rt; buffer, [5u32; 20]);
    assert_eq!(rt;
        number(record.begin(&buffer, &mut [Cell::Unset; 9])),
        (31, 0)
    );
}

#[test]
fn short_buffers(rt: HostRuntime) {
    let mut buffer = [5u32; 15];
    let cells = [Cell::Unset; 9];
    let mut record = Record::new();
    assert_eq!(rt; number(record.bring(&mut buffer, &cells, &SUM)), (20, 0));
    // 33 comes before 20
    assert_eq!(rt;
        number(record.bring(&mut buffer, &cells, &[20, 1, 22, 0])),
        (33, 0)
    );
    assert_eq!(rt; buffer, [5u32; 15]);
    assert_eq!(rt;
        number(record.begin(&buffer, &mut [Cell::Unset; 9])),
        (31, 0)
    );
}

#[test]
fn begins(rt: HostRuntime) {
    let mut buffer = [5u32; 20];
    let mut cells = [Cell::Number(99); 3];
    let mut record = Record::new();
    assert_eq!(rt; number(record.begin(&buffer, &mut cells)), (31, 0));
    assert_eq!(rt; number(record.bring(&mut buffer, &cells, &SUM)), (0, 0));
    // fewer than 4 cells, and other lengths before that
    assert_eq!(rt; number(record.begin(&buffer, &mut cells)), (32, 0));
    assert_eq!(rt;
        number(record.begin(&buffer, &mut [Cell::Unset; 2])),
        (36, 0)
    );
    assert_eq!(rt; number(record.begin(&[5u32; 19], &mut cells)), (36, 0));
    assert_eq!(rt;
        number(record.bring(&mut buffer, &[Cell::Unset; 9], &SUM)),
        (0, 0)
    );
    assert_eq!(rt;
        number(record.begin(&buffer, &mut [Cell::Unset; 10])),
        (36, 0)
    );
    assert_eq!(rt;
        number(record.begin(&buffer, &mut [Cell::Unset; 9])),
        (0, 0)
    );
}

#[test]
fn too_many_cells(rt: HostRuntime) -> Result<(), Fail> {
    let mut buffer = [5u32; 20];
    let mut cells = vec![in rt.alloc(); Cell::Number(99); 65_537]?;
    let mut record = Record::new();
    assert_eq!(rt;
        number(record.bring(&mut buffer, cells.as_slice(), &SUM)),
        (0, 0)
    );
    assert_eq!(rt;
        number(record.begin(&buffer, cells.as_mut_slice())),
        (32, 0)
    );
    Ok(())
}

#[test]
fn continues(rt: HostRuntime) {
    let mut buffer = [5u32; 20];
    let mut cells = [Cell::Number(99); 9];
    let mut host = nothing_there();
    let mut record = Record::new();
    assert_eq!(rt;
        told(record.resume(&buffer, &mut cells, &mut host, 1)),
        (0, 9, 34, 0)
    );
    assert_eq!(rt; number(record.bring(&mut buffer, &cells, &SUM)), (0, 0));
    // 34 before 36 and 35
    assert_eq!(rt;
        told(record.resume(&buffer, &mut [Cell::Unset; 8], &mut host, 2_000_000)),
        (0, 9, 34, 0)
    );
    assert_eq!(rt; number(record.begin(&buffer, &mut cells)), (0, 0));
    // 36 before 35
    assert_eq!(rt;
        told(record.resume(&buffer, &mut [Cell::Unset; 8], &mut host, 2_000_000)),
        (0, 9, 36, 0)
    );
    assert_eq!(rt;
        told(record.resume(&[5u32; 21], &mut cells, &mut host, 1)),
        (0, 9, 36, 0)
    );
    assert_eq!(rt;
        told(record.resume(&buffer, &mut cells, &mut host, 1_000_001)),
        (0, 9, 35, 0)
    );
    assert_eq!(rt;
        told(record.resume(&buffer, &mut cells, &mut host, 1_000_000)),
        (6, 1, 7, 0)
    );
    // at an ended run too
    assert_eq!(rt;
        told(record.resume(&buffer, &mut [Cell::Unset; 8], &mut host, 1)),
        (0, 9, 36, 0)
    );
    assert_eq!(rt;
        told(record.resume(&buffer, &mut cells, &mut host, 1_000_001)),
        (0, 9, 35, 0)
    );
    assert_eq!(rt;
        told(record.resume(&buffer, &mut cells, &mut host, 1)),
        (0, 1, 7, 0)
    );
}
