//! What is known of a problem as a JSON object. Its members are described in docs/OUTPUT.md.
use serde::Serialize;
use std::alloc::{AllocError, Global};
use tk_engines::{Area, DistanceInfo, ProblemInfo, RoutingInfo, put_coordinate};
use tk_writers::{Pen, ToWrite};

/// What is known of a problem.
#[derive(Drop, Serialize)]
pub struct InfoObject {
    name: String,
    #[serde(rename = "type")]
    kind: &'static str,
    dimension: u32,
    distances: &'static str,
    coordinates: Option<AreaObject>,
    routing: Option<RoutingObject>,
}

/// The coordinates of a problem: whether all are whole, and as decimal numbers the least and the greatest of each axis.
#[derive(Drop, Serialize)]
struct AreaObject {
    whole: bool,
    x: [String; 2],
    y: [String; 2],
}

/// The routing data of a CVRP.
#[derive(Drop, Serialize)]
struct RoutingObject {
    capacity: u32,
    depot: u32,
    demand: u64,
    vehicles: u64,
}

impl InfoObject {
    /// An object for what is known of a problem.
    ///
    /// # Errors
    /// `AllocError` if memory runs out.
    pub fn of(alloc: Global, info: &ProblemInfo) -> Result<InfoObject, AllocError> {
        let (distances, coordinates) = match &info.distances {
            DistanceInfo::Plane(kind, area) => (kind.word(), Some(area_object(alloc, area)?)),
            DistanceInfo::Explicit => ("EXPLICIT", None),
        };
        Ok(InfoObject {
            name: text_of(alloc, &info.name)?,
            kind: info.type_word(),
            dimension: info.dimension,
            distances,
            coordinates,
            routing: info.routing.map(routing_object),
        })
    }
}

/// Bytes as text, with U+FFFD for each sequence of bytes that is not UTF-8.
fn text_of(alloc: Global, name: &[u8]) -> Result<String, AllocError> {
    let mut text = String::new(alloc);
    for chunk in name.utf8_chunks() {
        text.push_str(chunk.valid())?;
        if !chunk.invalid().is_empty() {
            text.push_str("\u{fffd}")?;
        }
    }
    Ok(text)
}

/// The object of the coordinates of a problem.
fn area_object(alloc: Global, area: &Area) -> Result<AreaObject, AllocError> {
    Ok(AreaObject {
        whole: area.whole,
        x: [decimal(alloc, area.left)?, decimal(alloc, area.right)?],
        y: [decimal(alloc, area.bottom)?, decimal(alloc, area.top)?],
    })
}

/// A coordinate in units of 10^-9 as a decimal number.
fn decimal(alloc: Global, coordinate: i64) -> Result<String, AllocError> {
    let mut text = ToWrite::new(Vec::new(alloc));
    let mut pen = Pen::new(&mut text);
    put_coordinate(&mut pen, coordinate);
    if pen.end().is_err() {
        return Err(AllocError);
    }
    text_of(alloc, &text.inner)
}

/// The object of routing data.
fn routing_object(routing: RoutingInfo) -> RoutingObject {
    RoutingObject {
        capacity: routing.capacity,
        depot: routing.depot,
        demand: routing.demand,
        vehicles: routing.vehicles,
    }
}
