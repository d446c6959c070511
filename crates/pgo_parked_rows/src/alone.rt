// Parkings of which one thread does all.
use pgo_parked::parking::Parking;
use std::sync::Wait;

/// How many attempts are made alone.
const ATTEMPTS: u32 = 1000;

/// Parks after a commit and after an end that came since an attempt began, and then as the last one at work. It answers when it goes on.
pub fn keeps_wakes<R: Wait>(rt: &R) -> bool {
    let parking = Parking::new(2);
    parking.begin(rt);
    parking.begin(rt);
    let before = parking.changes(rt);
    parking.committed(rt);
    parking.park(rt, before);
    let between = parking.changes(rt);
    parking.ended(rt);
    parking.park(rt, between);
    let behind = parking.changes(rt);
    parking.park(rt, behind);
    before != between && between != behind
}

/// Parks so often as the only one that has begun, of so many. It answers when it goes on.
pub fn alone_goes_on<R: Wait>(rt: &R, instances: u64) -> bool {
    let parking = Parking::new(instances);
    parking.begin(rt);
    for _ in 0..ATTEMPTS {
        parking.park(rt, parking.changes(rt));
    }
    parking.changes(rt) == 0
}
