//! A slope, as a fraction.

/// A slope: `rise` micro-dollars an hour over `run` watts, which are more than none.
#[derive(Clone, Copy, Debug)]
pub struct Slope {
    pub rise: i64,
    pub run: i64,
}
