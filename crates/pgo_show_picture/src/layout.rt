// Where things stand in a picture.
ghost use Rattle.std.specs.Prelude.{◌≡◌, ◌≤◌, ◌<◌, ◌+◌, ◌*◌, ◌%◌, suc};
ghost use Rattle.pgo_show_picture.specs.Layout as spec;

/// How many entries there are, and how many lanes.
#[derive(Clone, Copy)]
pub struct Size {
    pub entries: u64,
    pub lanes: u64,
}

/// The number, a million where it is greater.
pub fn within(n: u64) -> u64
    ensures value { result ≡ spec.within n }
    ensures small { result ≤ 1000000 }
{
    n.min(1_000_000)
}

/// Labels are drawn.
pub fn has_labels(size: Size) -> bool
    ensures { result ≡ spec.has_labels size }
{
    size.entries <= 300
}

/// The band in which stands what is behind so many entries.
pub fn band_of(size: Size, behind: u64) -> u64
    ensures value { result ≡ spec.band_of size behind }
    ensures small { result ≤ 1000000 }
{
    if has_labels(size) {
        within(behind) / 30
    } else {
        within(behind) / 300
    }
}

/// How many bands there are.
pub fn band_count(size: Size) -> u64
    ensures { result ≡ suc (spec.band_of size size.entries) }
{
    band_of(size, size.entries) + 1
}

/// How many entries stand before it in a band of 30.
fn place_in_30(behind: u64) -> u64
    ensures value { result ≡ spec.within behind % 30 }
    ensures small { result < 30 }
{
    within(behind) % 30
}

/// How many entries stand before it in a band of 300.
fn place_in_300(behind: u64) -> u64
    ensures value { result ≡ spec.within behind % 300 }
    ensures small { result < 300 }
{
    within(behind) % 300
}

/// How far from the left stands what is behind so many entries.
pub fn across(size: Size, behind: u64) -> u64
    ensures value { result ≡ spec.across size behind }
    ensures small { result ≤ 1300 }
{
    if has_labels(size) {
        100 + 40 * place_in_30(behind)
    } else {
        100 + 4 * place_in_300(behind)
    }
}

/// How far from the left stands the next entry.
pub fn across_entry(size: Size, behind: u64) -> u64
    ensures { result ≡ spec.across_entry size behind }
{
    let left = across(size, behind);
    if has_labels(size) {
        left + 20
    } else {
        left + 2
    }
}

/// Where lanes end.
pub fn right_end(size: Size) -> u64
    ensures value { result ≡ spec.right_end size }
    ensures small { result ≤ 1340 }
{
    if has_labels(size) {
        140 + 40 * size.entries.min(30)
    } else {
        1340
    }
}

/// How high the bands are above this one.
#[tactic(auto, using(crate::proofs::Heights::bounded))]
fn height_above(size: Size, band: u64) -> u64
    ensures value { result ≡ spec.band_height size * spec.within band }
    ensures small { result ≤ 44000030000000 }
{
    (44 * within(size.lanes) + 30) * within(band)
}

/// How far from the top a lane stands in a band.
pub fn lane_in(size: Size, band: u64, lane: u64) -> u64
    ensures value { result ≡ spec.lane_in size band lane }
    ensures small { result ≤ 44000074000070 }
{
    70 + height_above(size, band) + 44 * within(lane)
}

/// How far from the top a lane stands behind so many entries.
pub fn down(size: Size, lane: u64, behind: u64) -> u64
    ensures value { result ≡ spec.down size lane behind }
    ensures small { result ≤ 44000074000070 }
{
    lane_in(size, band_of(size, behind), lane)
}
