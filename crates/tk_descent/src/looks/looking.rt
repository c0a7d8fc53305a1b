//! A look at a city tries its offers in order.
ghost use Rattle.std.specs.Prelude.{◌≡◌, ◌≤◌, ◌<◌, ◌^◌, [], ◌∷◌, length, flat_map, All, IfSome, None, false, pos};
ghost use Rattle.std.specs.Prelude.{◌+◌, ◌*◌};
ghost use Rattle.tk_near.specs.Near.{near_of};
ghost use Rattle.tk_descent.specs.Looks.{Looked};
ghost use Rattle.tk_descent.specs.Offers.{covers, Searched, or_offer, offers_at, EndsIn, segment_count};
ghost use Rattle.tk_descent.specs.Sharing.{IsCityWithNeighbours, IsRemovedSegment, piece_offers, two_margin, or_margin};
ghost use Rattle.tk_descent.specs.EdgeCache.{AreMeasured, IsCached};
ghost use Rattle.tk_distance.specs.Cities.{IsCity};
ghost use Rattle.tk_descent.specs.Machine.{IsOfferOn};
ghost use Rattle.tk_descent.specs.WakeMachine.{HasNoOffer};
ghost use Rattle.tk_descent.specs.declared.offer.Offer.TheVariants.{Two};
ghost use Rattle.tk_descent.specs.Ruled.{Each, IsOnTour};

use crate::candidate_cache::{CachedDistance, cached_distance};
use crate::edge_cache::CachedEdges;
use crate::gains::Gains;
use crate::looks::segments::segment_count;
use crate::looks::sharing::{CityWithNeighbours, RemovedSegment, look_beside, pieces_of};
use crate::offer::{Found, Offer, Segment};
use crate::on_tour::size;
use crate::rule::{Everything, Rule};
use tk_distance::Metric;
use tk_near::Near;
use tk_tour::TourStore;

/// Tests a 2-opt offer. Its gain is `margin` minus the length of the new edge b-d. If it is positive, the rule is asked
/// whether the offer is allowed.
#[inline(always)]
fn try_two<S: TourStore, M: Metric, R: Rule<S>>(
    tour: &S,
    metric: &M,
    rule: &R,
    count: &mut u64,
    a: u32,
    b: u32,
    c: u32,
    d: u32,
    margin: i64,
) -> Option<Found>
    requires suits { R.Suits rule.now tour.now }
    requires fits { R.Fits rule.now (S.cities tour.now) }
    requires on_tour { IsOnTour (S.cities tour.now) (Two a b c d) }
    requires cities { EndsIn (M.size_of metric.now) (Two a b c d) }
    requires margin { margin ≡ two_margin (M.distance metric.now) a b c d }
    requires room { count.old + 1 < 2 ^ 64 }
    ensures { Searched (M.distance metric.now) (R.allowed rule.now (S.cities tour.now)) (Two a b c d ∷ [])
        result count.old count.new }
{
    *count += 1;
    if !metric.is_nearer(b, d, margin) {
        return None;
    }
    let offer = Offer::Two { a, b, c, d };
    if !rule.allows(tour, &offer) {
        return None;
    }
    Some(Found {
        offer,
        gain: margin - metric.dist(b, d),
    })
}

/// Tests the Or-opt offer of a segment between y, which does not lie in the segment, and w, unless w lies in it. Its
/// gain is `margin` minus the length of the new edge from the last city of the segment to w. If it is positive, the
/// rule is asked whether the offer is allowed.
#[inline(always)]
fn try_or<S: TourStore, M: Metric, R: Rule<S>>(
    tour: &S,
    metric: &M,
    rule: &R,
    count: &mut u64,
    x: u32,
    y: u32,
    segment: &Segment,
    w: u32,
    margin: i64,
) -> Option<Found>
    requires suits { R.Suits rule.now tour.now }
    requires fits { R.Fits rule.now (S.cities tour.now) }
    requires on_tour { Each (IsOnTour (S.cities tour.now)) (or_offer x y segment.now w) }
    requires cities { IsCity (M.size_of metric.now) segment.now.last × IsCity (M.size_of metric.now) w }
    requires margin { margin ≡ or_margin (M.distance metric.now) x y segment.now w }
    requires outside { covers x segment.now y ≡ false }
    requires room { count.old + 1 < 2 ^ 64 }
    ensures { Searched (M.distance metric.now) (R.allowed rule.now (S.cities tour.now)) (or_offer x y segment.now w)
        result count.old count.new }
{
    if segment.covers(x, w) {
        return None;
    }
    *count += 1;
    if !metric.is_nearer(segment.last, w, margin) {
        return None;
    }
    let offer = segment.offer(x, y, w);
    if !rule.allows(tour, &offer) {
        return None;
    }
    Some(Found {
        offer,
        gain: margin - metric.dist(segment.last, w),
    })
}

/// The gain of moving a segment from x to between y and w, before the length of its new edge to w is subtracted. The
/// distance from x to y is `across`, and that from y to w is `beside`. Only the contract uses the metric, x, y and w.
#[inline(always)]
fn margin_of<M: Metric>(
    metric: &M,
    x: u32,
    y: u32,
    piece: &RemovedSegment,
    w: u32,
    across: i64,
    beside: i64,
) -> i64
    requires piece { IsRemovedSegment (M.size_of metric.now) (M.distance metric.now) x piece.now }
    requires across { across ≡ pos (M.distance metric.now x y) }
    requires beside { beside ≡ pos (M.distance metric.now y w) }
    ensures { result ≡ or_margin (M.distance metric.now) x y piece.now.segment w }
{
    piece.freed - across + beside
}

/// Tests the Or-opt offers of a segment from x between y and each of its neighbours, unless y lies in the segment. The
/// distance from x to y is `across`.
#[inline(always)]
fn try_piece<S: TourStore, M: Metric, R: Rule<S>>(
    tour: &S,
    metric: &M,
    rule: &R,
    count: &mut u64,
    x: u32,
    piece: &RemovedSegment,
    y: &CityWithNeighbours,
    across: i64,
) -> Option<Found>
    requires suits { R.Suits rule.now tour.now }
    requires fits { R.Fits rule.now (S.cities tour.now) }
    requires on_tour { Each (IsOnTour (S.cities tour.now)) (piece_offers x y.now piece.now) }
    requires piece { IsRemovedSegment (M.size_of metric.now) (M.distance metric.now) x piece.now }
    requires beside { IsCityWithNeighbours (M.size_of metric.now) (M.distance metric.now) y.now }
    requires across { across ≡ pos (M.distance metric.now x y.now.city) }
    requires room { count.old + 2 < 2 ^ 64 }
    ensures { Searched (M.distance metric.now) (R.allowed rule.now (S.cities tour.now)) (piece_offers x y.now piece.now)
        result count.old count.new }
{
    if piece.segment.covers(x, y.city) {
        return None;
    }
    let margin = margin_of(metric, x, y.city, piece, y.after, across, y.to_after);
    if let Some(found) = try_or(
        tour,
        metric,
        rule,
        count,
        x,
        y.city,
        &piece.segment,
        y.after,
        margin,
    ) {
        return Some(found);
    }
    let margin = margin_of(metric, x, y.city, piece, y.before, across, y.to_before);
    try_or(
        tour,
        metric,
        rule,
        count,
        x,
        y.city,
        &piece.segment,
        y.before,
        margin,
    )
}

/// Tests the Or-opt offers of segments from x between y and each of its neighbours.
#[inline(always)]
fn try_segments<S: TourStore, M: Metric, R: Rule<S>>(
    tour: &S,
    metric: &M,
    rule: &R,
    count: &mut u64,
    x: u32,
    pieces: &[RemovedSegment],
    y: &CityWithNeighbours,
    across: i64,
) -> Option<Found>
    requires suits { R.Suits rule.now tour.now }
    requires fits { R.Fits rule.now (S.cities tour.now) }
    requires on_tour { Each (IsOnTour (S.cities tour.now)) (flat_map (piece_offers x y.now) pieces.now) }
    requires pieces { All (IsRemovedSegment (M.size_of metric.now) (M.distance metric.now) x) pieces.now }
    requires beside { IsCityWithNeighbours (M.size_of metric.now) (M.distance metric.now) y.now }
    requires across { across ≡ pos (M.distance metric.now x y.now.city) }
    requires room { count.old + 2 * length pieces.now < 2 ^ 64 }
    ensures { Searched (M.distance metric.now) (R.allowed rule.now (S.cities tour.now))
        (flat_map (piece_offers x y.now) pieces.now) result count.old count.new }
{
    for piece in pieces {
        if let Some(found) = try_piece(tour, metric, rule, count, x, piece, y, across) {
            return Some(found);
        }
    }
    None
}

/// Tests the offers of x with y, at the distance `across` from it.
#[inline(always)]
fn try_city<S: TourStore, M: Metric, R: Rule<S>>(
    tour: &S,
    metric: &M,
    rule: &R,
    count: &mut u64,
    x: &CityWithNeighbours,
    pieces: &[RemovedSegment],
    y: &CityWithNeighbours,
    across: i64,
) -> Option<Found>
    requires suits { R.Suits rule.now tour.now }
    requires fits { R.Fits rule.now (S.cities tour.now) }
    requires on_tour { Each (IsOnTour (S.cities tour.now))
        (Two x.now.city x.now.after y.now.city y.now.after ∷ Two x.now.city x.now.before y.now.city y.now.before
        ∷ flat_map (piece_offers x.now.city y.now) pieces.now) }
    requires from { IsCityWithNeighbours (M.size_of metric.now) (M.distance metric.now) x.now }
    requires pieces { All (IsRemovedSegment (M.size_of metric.now) (M.distance metric.now) x.now.city) pieces.now }
    requires beside { IsCityWithNeighbours (M.size_of metric.now) (M.distance metric.now) y.now }
    requires across { across ≡ pos (M.distance metric.now x.now.city y.now.city) }
    requires room { count.old + 2 + 2 * length pieces.now < 2 ^ 64 }
    ensures { Searched (M.distance metric.now) (R.allowed rule.now (S.cities tour.now))
        (Two x.now.city x.now.after y.now.city y.now.after ∷ Two x.now.city x.now.before y.now.city y.now.before
        ∷ flat_map (piece_offers x.now.city y.now) pieces.now) result count.old count.new }
{
    let margin = x.to_after + y.to_after - across;
    if let Some(found) = try_two(
        tour, metric, rule, count, x.city, x.after, y.city, y.after, margin,
    ) {
        return Some(found);
    }
    let margin = x.to_before + y.to_before - across;
    if let Some(found) = try_two(
        tour, metric, rule, count, x.city, x.before, y.city, y.before, margin,
    ) {
        return Some(found);
    }
    try_segments(tour, metric, rule, count, x.city, pieces, y, across)
}

/// Looks at a city: its first offer with positive gain that the rule allows, and its gain. It adds the tests to
/// `count`.
pub(crate) fn find_offer<S: TourStore, M: Metric, R: Rule<S>>(
    tour: &S,
    metric: &M,
    rule: &R,
    steps: &mut [CachedEdges],
    candidates: &mut [CachedDistance],
    count: &mut u64,
    near: &Near,
    or_segment: u32,
    city: u32,
) -> Option<Found>
    requires fits { (M.size_of metric.now ≡ length (S.cities tour.now)) × (near.now.size ≡ length (S.cities tour.now)) }
    requires city { IsCity (length (S.cities tour.now)) city }
    requires most { (1 ≤ or_segment) × (or_segment ≤ 3) }
    requires known { AreMeasured (M.distance metric.now) steps.old }
    requires cached { All (IsCached (M.distance metric.now)) candidates.old }
    requires suits { R.Suits rule.now tour.now }
    requires tour { R.Fits rule.now (S.cities tour.now) }
    ensures searched { Searched (M.distance metric.now) (R.allowed rule.now (S.cities tour.now))
        (offers_at (S.cities tour.now) or_segment near.now city) result count.old count.new }
    ensures on_cycle { IfSome result (λ f. IsOfferOn or_segment f.offer (S.cities tour.now)
        × EndsIn (length (S.cities tour.now)) f.offer) }
    ensures bound { count.new ≤ count.old + 4 * or_segment * near.now.width }
    ensures known { AreMeasured (M.distance metric.now) steps.new }
    ensures cached { All (IsCached (M.distance metric.now)) candidates.new }
{
    let mut tests = 0;
    let from = look_beside(tour, metric, steps, city);
    let all = pieces_of(tour, metric, steps, &from);
    let pieces = &all[..segment_count(size(tour), or_segment)];
    let list = near.of(city);
    let first = (city as usize - 1) * near.width() as usize;
    for (k, y) in list.iter().enumerate() {
        let y = look_beside(tour, metric, steps, *y);
        let across = cached_distance(metric, candidates, first + k, city, y.city);
        if let Some(found) = try_city(tour, metric, rule, &mut tests, &from, pieces, &y, across) {
            *count = count.saturating_add(tests);
            return Some(found);
        }
    }
    *count = count.saturating_add(tests);
    None
}

/// Looks at a city: its first offer with positive gain.
pub fn look<S: TourStore, G: Gains>(
    tour: &S,
    gains: &mut G,
    near: &Near,
    or_segment: u32,
    city: u32,
) -> Option<Offer>
    requires fits { (G.size_of gains.old ≡ length (S.cities tour.now)) × (near.now.size ≡ length (S.cities tour.now)) }
    requires city { IsCity (length (S.cities tour.now)) city }
    requires most { (1 ≤ or_segment) × (or_segment ≤ 3) }
    ensures looked { Looked G.Gains (offers_at (S.cities tour.now) or_segment near.now city)
        gains.old gains.new result }
    ensures on_cycle { IfSome result (λ o. IsOfferOn or_segment o (S.cities tour.now)
        × EndsIn (length (S.cities tour.now)) o) }
    ensures none { result ≡ None → HasNoOffer (G.distance gains.old) (near_of near.now) or_segment city
        (S.cities tour.now) }
    ensures bound { G.test_count gains.new ≤ G.test_count gains.old + 4 * or_segment * near.now.width }
    ensures same { (G.distance gains.new ≡ G.distance gains.old) × (G.size_of gains.new ≡ G.size_of gains.old) }
{
    match gains.find_offer(tour, &Everything, near, or_segment, city) {
        Some(found) => Some(found.offer),
        None => None,
    }
}
