use edr_items::{Item, Sensor};
use edr_trace::read;
use std::test::Fail;

fn item(moment: u32, value: Option<i32>) -> Item {
    Item { moment, value }
}

#[test]
fn cycles_are_told_as_they_are_written(rt: HostRuntime) -> Result<(), Fail> {
    let bytes =
        b"on,3,\non,0,\nlamp,1000,1\nspeed,7,300\nalong,1,-5\nspeed,9,\nalong,2,\ncut,12,\non,0,\ncut,0,\n";
    let cycles = read(rt.alloc(), bytes).expect(&rt, "a trace");
    assert_eq!(rt; cycles.len(), 3);
    let (stopped, cut, whole) = (&cycles[0], &cycles[1], &cycles[2]);
    assert_eq!(rt; (stopped.start_stop, stopped.stop), (3, 0));
    assert_eq!(rt; (cut.start_stop, cut.stop), (0, 12));
    assert_eq!(rt; (whole.start_stop, whole.stop), (0, 0));
    let along = [item(1, Some(-5)), item(2, None)];
    assert!(rt; cut.feeds.of(Sensor::Along) == along.as_slice());
    let speed = [item(7, Some(300)), item(9, None)];
    assert!(rt; cut.feeds.of(Sensor::Speed) == speed.as_slice());
    assert!(rt; cut.feeds.of(Sensor::Lamp) == [item(1000, Some(1))].as_slice());
    assert!(rt; cut.feeds.of(Sensor::Belt).is_empty());
    assert!(rt; whole.feeds.of(Sensor::Along).is_empty());
    Ok(())
}
