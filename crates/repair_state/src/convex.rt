//! Convex functions of one unit's output, told by their slopes.

use crate::lists::put;
use std::alloc::Global;
use uc_model::NoMemory;

/// Over so many watts a function rises by this rate.
#[derive(Clone, Copy)]
pub(crate) struct Piece {
    pub width: i64,
    pub rate: i64,
}

/// A convex function from the output `low` on: pieces of rising rates.
#[derive(Drop)]
pub(crate) struct Convex {
    pub low: i64,
    pub pieces: Vec<Piece>,
}

/// The outputs between which a function is least.
#[derive(Clone, Copy)]
pub(crate) struct Bottom {
    pub low: i64,
    pub high: i64,
}

impl Convex {
    /// A function of one output alone.
    pub(crate) fn new(alloc: Global) -> Convex {
        Convex {
            low: 0,
            pieces: Vec::new(alloc),
        }
    }

    /// Makes the function one of this output alone.
    pub(crate) fn set(&mut self, low: i64) {
        self.low = low;
        self.pieces.clear();
    }

    /// The greatest output of the function.
    pub(crate) fn high(&self) -> i64 {
        let mut high = self.low;
        for piece in &self.pieces {
            high = high.saturating_add(piece.width);
        }
        high
    }

    /// Where the function is least.
    pub(crate) fn bottom(&self) -> Bottom {
        let mut low = self.low;
        let mut high = self.low;
        for piece in &self.pieces {
            if piece.rate < 0 {
                low = low.saturating_add(piece.width);
            }
            if piece.rate <= 0 {
                high = high.saturating_add(piece.width);
            }
        }
        Bottom { low, high }
    }

    /// Makes the function the least of another one over the outputs from which each may be reached by a rise or a fall, from 0 up to
    /// `most`. The only error is `NoMemory`.
    pub(crate) fn set_reached(
        &mut self,
        from: &Convex,
        rise: i64,
        fall: i64,
        most: i64,
    ) -> Result<(), NoMemory> {
        let mut place = from.low.saturating_sub(fall);
        self.set(place.max(0).min(most));
        for piece in &from.pieces {
            if piece.rate < 0 {
                self.push_within(&mut place, piece, most)?;
            }
        }
        let bottom = from.bottom();
        let flat = Piece {
            width: bottom
                .high
                .saturating_sub(bottom.low)
                .saturating_add(rise)
                .saturating_add(fall),
            rate: 0,
        };
        self.push_within(&mut place, &flat, most)?;
        for piece in &from.pieces {
            if piece.rate > 0 {
                self.push_within(&mut place, piece, most)?;
            }
        }
        Ok(())
    }

    // Adds the part of a piece at a place that lies from 0 to `most`, and moves the place to its end.
    fn push_within(&mut self, place: &mut i64, piece: &Piece, most: i64) -> Result<(), NoMemory> {
        let end = place.saturating_add(piece.width);
        let width = end.min(most).saturating_sub((*place).max(0));
        *place = end;
        self.push(width, piece.rate)
    }

    /// Adds a piece, if it has a width.
    pub(crate) fn push(&mut self, width: i64, rate: i64) -> Result<(), NoMemory> {
        if width > 0 {
            put(&mut self.pieces, Piece { width, rate })?;
        }
        Ok(())
    }

    /// Makes the function the sum of two that have the same outputs. The only error is `NoMemory`.
    pub(crate) fn set_sum(&mut self, first: &Convex, second: &Convex) -> Result<(), NoMemory> {
        self.set(first.low);
        let mut others = second.pieces.iter();
        let mut other = NO_PIECE;
        for piece in &first.pieces {
            let mut left = piece.width;
            for _ in 0..=second.pieces.len() {
                if other.width <= 0 {
                    other = match others.next() {
                        Some(next) => *next,
                        None => break,
                    };
                }
                let width = other.width.min(left);
                self.push(width, piece.rate.saturating_add(other.rate))?;
                other.width = other.width.saturating_sub(width);
                left = left.saturating_sub(width);
                if left <= 0 {
                    break;
                }
            }
        }
        Ok(())
    }
}

const NO_PIECE: Piece = Piece { width: 0, rate: 0 };
