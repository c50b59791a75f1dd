use edr_image::{Ack, Applied, Kind, Log};
use std::test::Fail;

#[test]
fn a_log_has_the_room_that_was_asked_for(rt: HostRuntime) -> Result<(), Fail> {
    let mut log = Log::with_room(rt.alloc(), 2)?;
    assert!(rt; log.spare() >= 2);
    assert!(rt; log.acks().is_empty());
    let ack = Ack {
        tick: 6020,
        kind: Kind::Take,
        applied: Applied::Kept { bank: 1 },
    };
    log.push(ack);
    assert!(rt; log.spare() >= 1);
    assert_eq!(rt; log.acks().len(), 1);
    assert_eq!(rt; log.acks()[0], ack);
    Ok(())
}
