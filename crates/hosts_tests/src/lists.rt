// A bounded list, run.
use bounded_list::list::BoundedList;

#[test]
fn pushed(rt: HostRuntime) {
    let mut list: BoundedList<u8, 3> = BoundedList::empty(0);
    assert_eq!(rt; list.len(), 0);
    list.push(5);
    list.push(6);
    assert_eq!(rt; list.as_slice(), [5, 6].as_slice());
    assert!(rt; !list.is_full());
    list.push(7);
    assert!(rt; list.is_full());
    list.set(1, 9);
    assert_eq!(rt; list.as_slice(), [5, 9, 7].as_slice());
}

#[test]
fn from_slice(rt: HostRuntime) {
    let list: BoundedList<u8, 3> = BoundedList::from_slice(&[5, 6], 0);
    assert_eq!(rt; list.len(), 2);
    assert_eq!(rt; list.as_slice(), [5, 6].as_slice());
    let mut copy = list;
    copy.push(7);
    assert_eq!(rt; copy.as_slice(), [5, 6, 7].as_slice());
    assert_eq!(rt; list.len(), 2, "a copy is a list of its own");
}
