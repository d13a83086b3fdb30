// Nodes of a table, made of words.
use script::nodes::nodes;
use table::nodes::Node;

const NOT_TRUE: [u32; 15] = [1, 0, 0, 3, 0, 13, 0, 0, 3, 4, 11, 0, 1, 3, 8];

fn fields(node: Node) -> [u32; 5] {
    [node.kind, node.sub, node.value, node.end, node.place]
}

#[test]
fn nodes_of_words(rt: HostRuntime) {
    let Ok(three) = nodes(rt.alloc(), &NOT_TRUE) else {
        panic!(rt; "no memory for three nodes")
    };
    assert_eq!(rt; three.len(), 3);
    assert_eq!(rt; fields(three[0]), [1, 0, 0, 3, 0]);
    assert_eq!(rt; fields(three[1]), [13, 0, 0, 3, 4]);
    assert_eq!(rt; fields(three[2]), [11, 0, 1, 3, 8]);
}

#[test]
fn words_at_the_end_are_passed_over(rt: HostRuntime) {
    let Ok(two) = nodes(rt.alloc(), &NOT_TRUE[..14]) else {
        panic!(rt; "no memory for two nodes")
    };
    assert_eq!(rt; two.len(), 2);
    let Ok(none) = nodes(rt.alloc(), &NOT_TRUE[..4]) else {
        panic!(rt; "no memory for no nodes")
    };
    assert_eq!(rt; none.len(), 0);
}
