use event_store::EventStore;
use std::process::Abort;
use std::test::Fail;

/// A parcel that can't be copied.
#[derive(Debug, PartialEq, Eq, Drop)]
struct Parcel(u32);

#[test]
fn what_is_put_comes_out_in_order_and_other_lists_stay(rt: HostRuntime) -> Result<(), Fail> {
    let mut store = EventStore::open(rt.alloc());
    assert_kept(&rt, &mut store);
    Ok(())
}

/// Asserts what an empty store gives back of what is put.
fn assert_kept(rt: &impl Abort, store: &mut EventStore<Parcel>) {
    assert_eq!(rt; store.first(3), None);
    for number in 1..=4 {
        let kept = store.put(3, Parcel(number)).is_ok()
            && store.put(9, Parcel(10 * number)).is_ok();
        assert!(rt; kept);
    }
    assert_eq!(rt; store.first(3), Some(Parcel(1)));
    assert_eq!(rt; store.len(3), 3);
    let drained = store.drain(3);
    assert_eq!(rt;
        drained.as_slice(),
        [Parcel(2), Parcel(3), Parcel(4)].as_slice()
    );
    assert_eq!(rt; store.len(3), 0);
    assert_eq!(rt; store.first(9), Some(Parcel(10)));
}
