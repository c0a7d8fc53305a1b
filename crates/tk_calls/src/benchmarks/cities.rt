//! Lists of cities, and digests of them.
use std::alloc::{AllocError, Global};

/// The cities from 1 to n.
pub fn first_cities(alloc: Global, n: u32) -> Result<Vec<u32>, AllocError> {
    let mut cities = Vec::new(alloc);
    for city in 1..=n {
        cities.push(city)?;
    }
    Ok(cities)
}

/// A digest of the cities in their order, modulo 2^64.
pub fn digest(cities: &[u32]) -> u64 {
    digest_after(0, cities)
}

/// The digest of cities that follow others, given the digest of these.
pub fn digest_after(before: u64, cities: &[u32]) -> u64 {
    let mut digest = before;
    for city in cities {
        digest = digest.wrapping_mul(31).wrapping_add(*city as u64);
    }
    digest
}
