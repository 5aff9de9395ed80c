use basics::Boxed;
use flow_filter::{Packet, TCP};
use packet_pool::Pool;
use std::test::Fail;
use test_packets::PACKET;

const FIRST: Packet = Packet {
    nanos: 1_000_000_000,
    ..PACKET
};

const SECOND: Packet = Packet {
    number: 2,
    proto: TCP,
    flags: 2,
    ..FIRST
};

#[test]
fn a_pool_of_one_cell_refuses_the_second_packet_until_the_first_is_home(
    rt: HostRuntime,
) -> Result<(), Fail> {
    let mut pool = Pool::open(7, 1);
    if let Ok(cell) = pool.take(Boxed::new(rt.alloc(), FIRST)?) {
        assert_eq!(rt; *cell.packet(), FIRST);
        assert_eq!(rt; cell.pool(), 7);
        assert_eq!(rt; pool.home(), 0);
        let refused = pool.take(Boxed::new(rt.alloc(), SECOND)?);
        assert_eq!(rt; refused.err().map(Boxed::into_inner), Some(SECOND));
        assert_eq!(rt; pool.give(cell).into_inner(), FIRST);
    }
    assert_eq!(rt; pool.home(), 1);
    assert_eq!(rt; pool.cells(), 1);
    assert_eq!(rt; pool.name(), 7);
    let again = pool.take(Boxed::new(rt.alloc(), SECOND)?);
    assert_eq!(rt; again.ok().map(|cell| *cell.packet()), Some(SECOND));
    Ok(())
}
