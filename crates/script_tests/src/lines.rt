// Whole lines.
use script::command::Command;
use script::line::parse;
use script::problem::Problem;
use std::alloc::Global;

// The command of a line, and how many words follow it.
type Asked = Result<Option<(Command, usize)>, Problem>;

fn read(heap: Global, text: &[u8]) -> Asked {
    let line = parse(heap, text)?;
    Ok(line.map(|line| (line.command, line.words.len())))
}

// What a line with no words after its command asks for.
fn alone(command: Command) -> Asked {
    Ok(Some((command, 0)))
}

#[test]
fn nothing_asked(rt: HostRuntime) {
    let heap = rt.alloc();
    assert_eq!(rt; read(heap, b""), Ok(None));
    assert_eq!(rt; read(heap, b" \t \r"), Ok(None));
    assert_eq!(rt; read(heap, b"# begin"), Ok(None));
    assert_eq!(rt; read(heap, b"#begin"), Ok(None));
    assert_eq!(rt; read(heap, b"  # begin"), Ok(None));
}

#[test]
fn areas_and_hosts(rt: HostRuntime) {
    let heap = rt.alloc();
    let (words, cells) = (64, 200);
    let fill = 0;
    assert_eq!(rt;
        read(heap, b"area 64 200"),
        alone(Command::Area { words, cells, fill })
    );
    let fill = -5;
    assert_eq!(rt;
        read(heap, b"\tarea  64\t200  -5 \r"),
        alone(Command::Area { words, cells, fill })
    );
    let (accounts, lines) = (1, 2);
    let record = Command::Record { accounts, lines };
    assert_eq!(rt; read(heap, b"record 1 2"), alone(record));
    assert_eq!(rt; read(heap, b"record 1 2 3 4 5"), Ok(Some((record, 3))));
    assert_eq!(rt;
        read(heap, b"worksheet 1 2"),
        alone(Command::Worksheet { accounts, lines })
    );
}

#[test]
fn each_command(rt: HostRuntime) {
    let heap = rt.alloc();
    let field = 3;
    assert_eq!(rt;
        read(heap, b"amount 3 -4"),
        alone(Command::Amount { field, value: -4 })
    );
    assert_eq!(rt;
        read(heap, b"flag 3 1"),
        alone(Command::Flag { field, flag: true })
    );
    assert_eq!(rt;
        read(heap, b"flag 3 0"),
        alone(Command::Flag { field, flag: false })
    );
    assert_eq!(rt; read(heap, b"bring"), alone(Command::Bring));
    assert_eq!(rt; read(heap, b"bring 7 8"), Ok(Some((Command::Bring, 2))));
    assert_eq!(rt; read(heap, b"begin"), alone(Command::Begin));
    let allowance = 4_294_967_295;
    assert_eq!(rt;
        read(heap, b"continue 4294967295"),
        alone(Command::Continue { allowance })
    );
}

#[test]
fn the_other_commands(rt: HostRuntime) {
    let heap = rt.alloc();
    assert_eq!(rt; read(heap, b"clear"), alone(Command::Clear));
    assert_eq!(rt; read(heap, b"image"), alone(Command::Image));
    assert_eq!(rt; read(heap, b"totals"), alone(Command::Totals));
    assert_eq!(rt; read(heap, b"state"), alone(Command::State));
    assert_eq!(rt; read(heap, b"trace 6"), alone(Command::Trace { steps: 6 }));
}

#[test]
fn each_problem(rt: HostRuntime) {
    let heap = rt.alloc();
    assert_eq!(rt; read(heap, b"fly"), Err(Problem::UnknownWord));
    assert_eq!(rt; read(heap, b"AREA 1 2"), Err(Problem::UnknownWord));
    assert_eq!(rt; read(heap, b"\xff\x00"), Err(Problem::UnknownWord));
    assert_eq!(rt; read(heap, b"begin#"), Err(Problem::UnknownWord));
    assert_eq!(rt; read(heap, b"admit 1 0 0 2 0"), Err(Problem::NotAvailable));
    assert_eq!(rt; read(heap, b"area 1"), Err(Problem::MissingNumber));
    assert_eq!(rt; read(heap, b"area 1 2 3 4"), Err(Problem::TooManyWords));
    assert_eq!(rt; read(heap, b"begin x"), Err(Problem::TooManyWords));
    assert_eq!(rt; read(heap, b"continue x"), Err(Problem::NotNumber));
    assert_eq!(rt; read(heap, b"continue 4294967296"), Err(Problem::TooLarge));
    assert_eq!(rt; read(heap, b"flag 1 2"), Err(Problem::NotFlag));
    assert_eq!(rt; read(heap, b"bring 1 2 x 4"), Err(Problem::NotNumber));
}
