use stack::BoundedStack;

#[test]
fn last_in_is_first_out(rt: HostRuntime) {
    let mut places = [0; 3];
    let mut stack = BoundedStack::new(&mut places);
    assert_eq!(rt; stack.pop(), None);
    for (x, room) in [(7, true), (8, true), (9, true), (10, false)] {
        assert_eq!(rt; stack.push(x), room);
    }
    assert_eq!(rt; stack.pop(), Some(9));
    assert_eq!(rt; stack.pop(), Some(8));
    assert!(rt; stack.push(11));
    for top in [Some(11), Some(7), None, None] {
        assert_eq!(rt; stack.pop(), top);
    }
    assert_eq!(rt; stack.len(), 0);
    assert!(rt; !stack.is_full());
}

#[test]
fn places_count_from_the_bottom(rt: HostRuntime) {
    let mut places = [1, 2, 3, 4];
    let mut stack = BoundedStack::new(&mut places);
    assert_eq!(rt; stack.get(0), None);
    assert!(rt; !stack.set(0, 5));
    assert!(rt; stack.push(10));
    assert!(rt; stack.push(20));
    for (i, element) in [(0, Some(10)), (1, Some(20)), (2, None), (4, None)] {
        assert_eq!(rt; stack.get(i), element);
    }
    assert_eq!(rt; stack.elements(), [10, 20].as_slice());
    assert!(rt; stack.set(0, 11));
    assert!(rt; !stack.set(2, 30));
    assert_eq!(rt; stack.pop(), Some(20));
    assert_eq!(rt; stack.get(0), Some(11));
    assert_eq!(rt; stack.get(1), None);
    assert_eq!(rt; stack.len(), 1);
    assert!(rt; !stack.is_full());
}

#[test]
fn an_empty_slice_has_no_room(rt: HostRuntime) {
    let mut places: [u8; 0] = [];
    let mut stack = BoundedStack::new(&mut places);
    assert!(rt; !stack.push(1));
    assert_eq!(rt; stack.pop(), None);
    assert_eq!(rt; stack.get(0), None);
    assert_eq!(rt; stack.len(), 0);
    assert!(rt; stack.is_full());
}

#[test]
fn the_lender_has_its_slice_again(rt: HostRuntime) {
    let mut places = [0; 2];
    let mut first = BoundedStack::new(&mut places);
    assert!(rt; first.push(5));
    assert_eq!(rt; first.len(), 1);
    assert!(rt; !first.is_full());
    let mut second = BoundedStack::new(&mut places);
    assert_eq!(rt; second.get(0), None);
    for (x, room) in [(1, true), (2, true), (3, false)] {
        assert_eq!(rt; second.push(x), room);
    }
    assert_eq!(rt; second.len(), 2);
    assert!(rt; second.is_full());
}
