//! A segment: a range of array positions, read forwards or backwards.
ghost use Rattle.std.specs.Prelude.{◌≡◌, ◌≤◌, ◌<◌, ◌+◌, true};
ghost use Rattle.std.specs.Option.{IfSome};
ghost use Rattle.tk_problem.specs.declared.limits.TheConstants.{CITY_LIMIT};
ghost use Rattle.tk_segments.specs.Segments.{AreParts, AreSeenParts, shown_place, segment_size};

/// The array positions from `low` to `high - 1`, read forwards, or backwards if `back`. They are the positions of the
/// sequence from `start` on. `id` differs from the ids of all other segments, and `next` is the id of the segment that
/// contains array position `high`, if there is one.
#[derive(Clone, Copy, Drop)]
pub struct Segment {
    pub low: u32,
    pub high: u32,
    pub start: u32,
    pub id: u32,
    pub next: u32,
    pub back: bool,
}

/// The array position that is `d` positions after the first one, as the segment reads them.
pub fn place_in(segment: Segment, d: u32) -> u32
    requires within { segment.low < segment.high }
    requires inside { d < segment_size segment }
    ensures place { result ≡ shown_place segment d }
    ensures inside { (segment.low ≤ result) × (result < segment.high) }
{
    if segment.back {
        segment.high - 1 - d
    } else {
        segment.low + d
    }
}

/// How many positions an array position is after the first one, as the segment reads them.
pub fn offset_in(segment: Segment, place: u32) -> u32
    requires inside { (segment.low ≤ place) × (place < segment.high) }
    ensures inside { result < segment_size segment }
    ensures place { place ≡ shown_place segment result }
{
    if segment.back {
        segment.high - 1 - place
    } else {
        place - segment.low
    }
}

/// Splits a segment into a first and a second part; the second begins `d` positions after the first. The part with the
/// lower array positions keeps the id of the segment, and the other one gets `id`.
pub fn parts_of(segment: Segment, d: u32, id: u32) -> (Segment, Segment)
    requires inside { (0 < d) × (d < segment_size segment) }
    requires fits { segment.start + d ≤ CITY_LIMIT }
    ensures { AreSeenParts d id segment result.0 result.1 }
{
    let second = segment.start + d;
    if segment.back {
        let middle = segment.high - d;
        return (
            Segment {
                low: middle,
                id,
                ..segment
            },
            Segment {
                high: middle,
                next: id,
                start: second,
                ..segment
            },
        );
    }
    let middle = segment.low + d;
    (
        Segment {
            high: middle,
            next: id,
            ..segment
        },
        Segment {
            low: middle,
            id,
            start: second,
            ..segment
        },
    )
}

// Whether these are the parts of one segment, and the part with the higher array positions has this id.
fn are_parts(low: Segment, high: Segment, id: u32) -> bool
    ensures { result ≡ true → AreParts id low high }
{
    low.back == high.back && low.high == high.low && low.next == id && high.id == id
}

/// The segment whose first and second part these are, where the part with the higher array positions has this id.
/// `None` if they are not such parts.
pub fn joined(one: Segment, two: Segment, id: u32) -> Option<Segment>
    requires within { (one.low < one.high) × (two.low < two.high) }
    ensures { IfSome result (λ segment. two.start ≡ one.start + segment_size one → AreSeenParts (segment_size one) id
        segment one two) }
{
    if one.back {
        if are_parts(two, one, id) {
            return Some(Segment {
                high: one.high,
                start: one.start,
                next: one.next,
                ..two
            });
        }
        return None;
    }
    if are_parts(one, two, id) {
        return Some(Segment {
            high: two.high,
            next: two.next,
            ..one
        });
    }
    None
}
