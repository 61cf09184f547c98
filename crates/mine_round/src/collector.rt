//! The values of pieces, which come in any order.
ghost use Rattle.std.specs.Prelude.{◌≡◌, ℕ, ◌≤◌, ◌↔◌, Option, is_none, length, map, position, replicate, slice_get, slice_set, OnOk, OnErr, IfOk, IfErr, IsOk};
ghost use Rattle.mine_round.specs.Collector.{HasValue, LacksValue};

use std::alloc::{AllocError, Global};
use std::marker::Model;
use thiserror::Error;

/// A place for the value of each piece. Contracts see it as the list of the places.
#[derive(Debug, Drop)]
pub struct Collector<T> {
    places: Vec<Option<T>>,
    values: Vec<T>,
}

impl<T> Model for Collector<T> {
    ghost use Rattle.std.specs.Prelude.{◌≡◌, ◌^◌, ◌<◌, ◌≤◌, List, [], Option, length, vec_capacity};

    ghost Value = { List (Option T) };

    ghost view = { λ c. c.places.items };

    ghost invariant = { λ c. (length c.places.items < 2 ^ 32) × (c.values.items ≡ []) × (length c.places.items ≤ vec_capacity c.values) };
}

/// A value that was not taken, which comes back.
#[derive(Debug, Drop, Error)]
pub enum Refused<T> {
    #[error("there is no such piece")]
    Stranger(T),
    #[error("the piece has a value")]
    Double(T),
}

/// A collector that lacks a value, with the least piece that has none.
#[derive(Debug, Drop, Error)]
#[error("piece {piece} has no value")]
pub struct Missing<T> {
    pub piece: u32,
    pub collector: Collector<T>,
}

impl<T: Drop> Collector<T> {
    /// A collector with no value. It is refused only if memory runs out.
    pub fn new(alloc: Global, pieces: u32) -> Result<Collector<T>, AllocError>
        ensures { IfOk result (λ c. c ≡ replicate pieces None) }
    {
        let count = pieces as usize;
        let mut places = Vec::with_capacity(alloc, count)?;
        for _ in 0..count {
            places.push_reserved(None);
        }
        let values = Vec::with_capacity(alloc, count)?;
        Ok(Collector { places, values })
    }

    /// Puts the value of a piece in its place.
    pub fn put(&mut self, piece: u32, value: T) -> Result<(), Refused<T>>
        ensures ok { IsOk result ↔ LacksValue self.old piece }
        ensures stranger { (result ≡ Err (Refused.Stranger value)) ↔ (length self.old ≤ piece) }
        ensures double { (result ≡ Err (Refused.Double value)) ↔ HasValue self.old piece }
        ensures done { OnOk result (self.new ≡ slice_set self.old piece (Some value)) }
        ensures unchanged { OnErr result (self.new ≡ self.old) }
    {
        let Some(place) = self.places.get_mut(piece as usize) else {
            return Err(Refused::Stranger(value));
        };
        if place.is_some() {
            return Err(Refused::Double(value));
        }
        *place = Some(value);
        Ok(())
    }

    /// The values by the numbers of their pieces.
    #[tactic(auto, using(std::proofs::lemmas::Grind::common_steps, crate::proofs::Vacancies::none_vacant))]
    pub fn finish(self) -> Result<Vec<T>, Missing<T>>
        ensures values { IfOk result (λ values. map Some values.items ≡ self) }
        ensures missing { IfErr result (λ back. position is_none self ≡ Some back.piece) }
        ensures returned { IfErr result (λ back. back.collector ≡ self) }
    {
        if let Some(piece) = first_vacant(self.places.as_slice()) {
            return Err(Missing {
                piece: piece as u32,
                collector: self,
            });
        }
        let Collector { places, mut values } = self;
        for place in places {
            let Some(value) = place else { unreachable!() };
            values.push_reserved(value);
        }
        Ok(values)
    }
}

// The first place with no value.
fn first_vacant<T>(places: &[Option<T>]) -> Option<usize>
    ensures { result ≡ position is_none places.now }
{
    places.iter().position(|place| place.is_none())
}
