// Tests of the check of a table: one table with every kind, damaged in one field at a time.
use std::process::Abort;
use table::checking;
use table::nodes::Node;

// kind, sub, value, end, place; the place is a hundred more than the node's number
// int a; bool f(int n, bool b) { int c; c = 1; f(n, b); if (b) { c = 2; } else { c = 3; c = 5; } if (!b) { f(n, b); } (if (b) { c = 4; true } else { false }) && f(n, b) } void g() { } a = 1; a + 2
static WHOLE: [[u32; 5]; 48] = [
    [1, 0, 0, 48, 100],
    [2, 1, 3, 2, 101],
    [3, 2, 4, 41, 102],
    [4, 1, 5, 4, 103],
    [4, 2, 6, 5, 104],
    [5, 0, 0, 41, 105],
    [2, 1, 7, 7, 106],
    [6, 0, 7, 9, 107],
    [10, 0, 1, 9, 108],
    [7, 0, 4, 12, 109],
    [12, 0, 5, 11, 110],
    [12, 0, 6, 12, 111],
    [8, 0, 0, 22, 112],
    [12, 0, 6, 14, 113],
    [9, 0, 0, 17, 114],
    [6, 0, 7, 17, 115],
    [10, 0, 2, 17, 116],
    [9, 0, 0, 22, 117],
    [6, 0, 7, 20, 118],
    [10, 0, 3, 20, 119],
    [6, 0, 7, 22, 120],
    [10, 0, 5, 22, 121],
    [8, 0, 0, 29, 122],
    [13, 0, 0, 25, 123],
    [12, 0, 6, 25, 124],
    [9, 0, 0, 29, 125],
    [7, 0, 4, 29, 126],
    [12, 0, 5, 28, 127],
    [12, 0, 6, 29, 128],
    [14, 10, 0, 41, 129],
    [15, 0, 0, 38, 130],
    [12, 0, 6, 32, 131],
    [16, 0, 0, 36, 132],
    [6, 0, 7, 35, 133],
    [10, 0, 4, 35, 134],
    [11, 0, 1, 36, 135],
    [16, 0, 0, 38, 136],
    [11, 0, 0, 38, 137],
    [17, 0, 4, 41, 138],
    [12, 0, 5, 40, 139],
    [12, 0, 6, 41, 140],
    [3, 0, 8, 43, 141],
    [5, 0, 0, 43, 142],
    [6, 0, 3, 45, 143],
    [10, 0, 1, 45, 144],
    [14, 3, 0, 48, 145],
    [12, 0, 3, 47, 146],
    [10, 0, 2, 48, 147],
];

// A field of a node.
#[derive(Clone, Copy, PartialEq, Eq, Debug)]
enum Field {
    Kind,
    Sub,
    Value,
    End,
    Place,
}

// node, field, what stands there, the place of the refusal
static REFUSED: [(usize, Field, u32, u32); 187] = [
    (0, Field::Kind, 0, 100),
    (0, Field::Kind, 18, 100),
    (0, Field::Kind, 2, 100),
    (0, Field::Sub, 1, 100),
    (0, Field::Value, 1, 100),
    (0, Field::End, 0, 100),
    (0, Field::End, 0, 100),
    (0, Field::End, 47, 100),
    (0, Field::End, 49, 100),
    (0, Field::End, 49, 100),
    (0, Field::End, 4_294_967_295, 100),
    (1, Field::Kind, 0, 100),
    (1, Field::Kind, 18, 100),
    (1, Field::Kind, 3, 101),
    (1, Field::Sub, 0, 101),
    (1, Field::Sub, 3, 101),
    (1, Field::Value, 1024, 101),
    (1, Field::End, 0, 100),
    (1, Field::End, 1, 100),
    (1, Field::End, 1, 100),
    (1, Field::End, 3, 100),
    (1, Field::End, 49, 100),
    (1, Field::End, 4_294_967_295, 100),
    (2, Field::Kind, 0, 100),
    (2, Field::Kind, 18, 100),
    (2, Field::Kind, 4, 100),
    (2, Field::Sub, 3, 102),
    (2, Field::Value, 1024, 102),
    (2, Field::End, 0, 100),
    (2, Field::End, 2, 100),
    (2, Field::End, 40, 100),
    (2, Field::End, 42, 100),
    (2, Field::End, 49, 100),
    (2, Field::End, 4_294_967_295, 100),
    (3, Field::Kind, 0, 102),
    (3, Field::Kind, 18, 102),
    (3, Field::Kind, 5, 102),
    (3, Field::Sub, 0, 103),
    (3, Field::Sub, 3, 103),
    (3, Field::Value, 1024, 103),
    (3, Field::End, 0, 102),
    (3, Field::End, 3, 102),
    (3, Field::End, 3, 102),
    (3, Field::End, 5, 103),
    (3, Field::End, 49, 102),
    (3, Field::End, 4_294_967_295, 102),
    (5, Field::Kind, 0, 102),
    (5, Field::Kind, 18, 102),
    (5, Field::Kind, 6, 102),
    (5, Field::Sub, 1, 105),
    (5, Field::Value, 1, 105),
    (5, Field::End, 0, 102),
    (5, Field::End, 5, 102),
    (5, Field::End, 40, 102),
    (5, Field::End, 42, 102),
    (5, Field::End, 49, 102),
    (5, Field::End, 4_294_967_295, 102),
    (7, Field::Kind, 0, 105),
    (7, Field::Kind, 18, 105),
    (7, Field::Sub, 1, 107),
    (7, Field::Value, 1024, 107),
    (7, Field::End, 0, 105),
    (7, Field::End, 7, 105),
    (7, Field::End, 8, 105),
    (7, Field::End, 10, 105),
    (7, Field::End, 49, 105),
    (7, Field::End, 4_294_967_295, 105),
    (9, Field::Kind, 0, 105),
    (9, Field::Kind, 18, 105),
    (9, Field::Kind, 8, 109),
    (9, Field::Sub, 1, 109),
    (9, Field::Value, 1024, 109),
    (9, Field::End, 0, 105),
    (9, Field::End, 9, 105),
    (9, Field::End, 11, 105),
    (9, Field::End, 13, 105),
    (9, Field::End, 49, 105),
    (9, Field::End, 4_294_967_295, 105),
    (12, Field::Kind, 0, 105),
    (12, Field::Kind, 18, 105),
    (12, Field::Kind, 9, 105),
    (12, Field::Sub, 1, 112),
    (12, Field::Value, 1, 112),
    (12, Field::End, 0, 105),
    (12, Field::End, 12, 105),
    (12, Field::End, 21, 105),
    (12, Field::End, 23, 105),
    (12, Field::End, 49, 105),
    (12, Field::End, 4_294_967_295, 105),
    (14, Field::Kind, 0, 112),
    (14, Field::Kind, 18, 112),
    (14, Field::Kind, 10, 112),
    (14, Field::Sub, 1, 114),
    (14, Field::Value, 1, 114),
    (14, Field::End, 0, 112),
    (14, Field::End, 14, 112),
    (14, Field::End, 16, 112),
    (14, Field::End, 18, 112),
    (14, Field::End, 49, 112),
    (14, Field::End, 4_294_967_295, 112),
    (8, Field::Kind, 0, 107),
    (8, Field::Kind, 18, 107),
    (8, Field::Sub, 1, 108),
    (8, Field::Value, 2_147_483_648, 108),
    (8, Field::End, 0, 107),
    (8, Field::End, 8, 107),
    (8, Field::End, 8, 107),
    (8, Field::End, 10, 107),
    (8, Field::End, 49, 107),
    (8, Field::End, 4_294_967_295, 107),
    (35, Field::Kind, 0, 132),
    (35, Field::Kind, 18, 132),
    (35, Field::Sub, 1, 135),
    (35, Field::Value, 2, 135),
    (35, Field::End, 0, 132),
    (35, Field::End, 35, 132),
    (35, Field::End, 35, 132),
    (35, Field::End, 37, 132),
    (35, Field::End, 49, 132),
    (35, Field::End, 4_294_967_295, 132),
    (10, Field::Kind, 0, 109),
    (10, Field::Kind, 18, 109),
    (10, Field::Kind, 13, 110),
    (10, Field::Sub, 1, 110),
    (10, Field::Value, 1024, 110),
    (10, Field::End, 0, 109),
    (10, Field::End, 10, 109),
    (10, Field::End, 10, 109),
    (10, Field::End, 12, 110),
    (10, Field::End, 49, 109),
    (10, Field::End, 4_294_967_295, 109),
    (23, Field::Kind, 0, 122),
    (23, Field::Kind, 18, 122),
    (23, Field::Kind, 14, 123),
    (23, Field::Sub, 1, 123),
    (23, Field::Value, 1, 123),
    (23, Field::End, 0, 122),
    (23, Field::End, 23, 122),
    (23, Field::End, 24, 122),
    (23, Field::End, 26, 122),
    (23, Field::End, 49, 122),
    (23, Field::End, 4_294_967_295, 122),
    (29, Field::Kind, 0, 105),
    (29, Field::Kind, 18, 105),
    (29, Field::Kind, 15, 129),
    (29, Field::Sub, 0, 129),
    (29, Field::Sub, 12, 129),
    (29, Field::Value, 1, 129),
    (29, Field::End, 0, 105),
    (29, Field::End, 29, 105),
    (29, Field::End, 40, 105),
    (29, Field::End, 42, 105),
    (29, Field::End, 49, 105),
    (29, Field::End, 4_294_967_295, 105),
    (30, Field::Kind, 0, 129),
    (30, Field::Kind, 18, 129),
    (30, Field::Kind, 16, 129),
    (30, Field::Sub, 1, 130),
    (30, Field::Value, 1, 130),
    (30, Field::End, 0, 129),
    (30, Field::End, 30, 129),
    (30, Field::End, 37, 129),
    (30, Field::End, 39, 129),
    (30, Field::End, 49, 129),
    (30, Field::End, 4_294_967_295, 129),
    (32, Field::Kind, 0, 130),
    (32, Field::Kind, 18, 130),
    (32, Field::Kind, 17, 130),
    (32, Field::Sub, 1, 132),
    (32, Field::Value, 1, 132),
    (32, Field::End, 0, 130),
    (32, Field::End, 32, 130),
    (32, Field::End, 35, 130),
    (32, Field::End, 37, 130),
    (32, Field::End, 49, 130),
    (32, Field::End, 4_294_967_295, 130),
    (38, Field::Kind, 0, 129),
    (38, Field::Kind, 18, 129),
    (38, Field::Kind, 1, 129),
    (38, Field::Sub, 1, 138),
    (38, Field::Value, 1024, 138),
    (38, Field::End, 0, 129),
    (38, Field::End, 38, 129),
    (38, Field::End, 40, 129),
    (38, Field::End, 42, 129),
    (38, Field::End, 49, 129),
    (38, Field::End, 4_294_967_295, 129),
];

// node, field, what stands there: changes after which it is a table still, the last ones of places
static ACCEPTED: [(usize, Field, u32); 6] = [
    (7, Field::Kind, 7),
    (8, Field::Kind, 11),
    (35, Field::Kind, 12),
    (0, Field::Place, 0),
    (5, Field::Place, 4_294_967_295),
    (20, Field::Place, 7),
];

fn whole() -> [Node; 48] {
    WHOLE.map(|[kind, sub, value, end, place]| Node {
        kind,
        sub,
        value,
        end,
        place,
    })
}

fn changed(at: usize, field: Field, number: u32) -> [Node; 48] {
    let mut nodes = whole();
    if let Some(node) = nodes.get_mut(at) {
        match field {
            Field::Kind => node.kind = number,
            Field::Sub => node.sub = number,
            Field::Value => node.value = number,
            Field::End => node.end = number,
            Field::Place => node.place = number,
        }
    }
    nodes
}

// The place of the refusal, or none.
fn refusal(nodes: &[Node]) -> Option<u32> {
    checking::check(nodes).err().map(|fault| fault.place)
}

fn each_refused(rt: &impl Abort, changes: &[(usize, Field, u32, u32)]) {
    for &(at, field, number, place) in changes {
        assert_eq!(rt; refusal(&changed(at, field, number)), Some(place));
    }
}

fn each_accepted(rt: &impl Abort, changes: &[(usize, Field, u32)]) {
    for &(at, field, number) in changes {
        assert_eq!(rt; refusal(&changed(at, field, number)), None);
    }
}

#[test]
fn every_kind_damaged(rt: HostRuntime) {
    each_refused(&rt, &REFUSED);
}

#[test]
fn not_damaged(rt: HostRuntime) {
    assert_eq!(rt; refusal(&whole()), None);
    each_accepted(&rt, &ACCEPTED);
}

// A program of one expression, as deep as it has nodes.
fn deep(count: u32) -> [Node; 4_097] {
    let mut nodes = [Node::default(); 4_097];
    for (i, node) in (0..).zip(&mut nodes) {
        node.kind = if i == 0 {
            1
        } else if i + 1 == count {
            11
        } else {
            13
        };
        node.end = count;
        node.place = 7;
    }
    nodes
}

#[test]
fn lengths(rt: HostRuntime) {
    assert_eq!(rt; refusal(&[]), Some(0));
    assert_eq!(rt; refusal(&deep(1)[0..1]), Some(7));
    assert_eq!(rt; refusal(&deep(2)[0..2]), None);
    assert_eq!(rt; refusal(&deep(4_096)[0..4_096]), None);
    assert_eq!(rt; refusal(&deep(4_097)), Some(0));
}

#[test]
fn refusals_are_eleven(rt: HostRuntime) {
    assert_eq!(rt;
        checking::check(&[Node::default()]).map_err(|fault| fault.cause.number()),
        Err(11)
    );
}
