//! The small types that functions have as their fields.

ghost use Rattle.std.specs.Prelude.{◌≡◌};
ghost use Rattle.px_functions.specs.SmallTypes.{is_elementwise, dimension_of, size_of};

use px_base::List;

/// How many nulls in a row are filled at most, and None where all are.
pub type FillNullLimit = Option<u32>;

/// With what nulls are filled.
#[derive(Clone, Copy, Debug, PartialEq, Eq, Hash)]
pub enum FillNullStrategy {
    Backward(FillNullLimit),
    Forward(FillNullLimit),
    Mean,
    Min,
    Max,
    Zero,
    One,
    MaxBound,
    MinBound,
}

impl FillNullStrategy {
    /// Whether each row is filled without a look at other rows.
    pub fn is_elementwise(&self) -> bool
        ensures { result ≡ is_elementwise self.now }
    {
        matches!(self, FillNullStrategy::Zero | FillNullStrategy::One)
    }
}

/// How values between two rows are made.
#[derive(Clone, Copy, Debug, PartialEq, Eq, Hash)]
pub enum InterpolationMethod {
    Linear,
    Nearest,
}

/// What becomes of the rows that a difference has no row before.
#[derive(Clone, Copy, Debug, PartialEq, Eq, Hash)]
pub enum NullBehavior {
    Drop,
    Ignore,
}

/// Which place is found among equal values.
#[derive(Clone, Copy, Debug, PartialEq, Eq, Hash)]
pub enum SearchSortedSide {
    Any,
    Left,
    Right,
}

/// What is known of the order of a column.
#[derive(Clone, Copy, Debug, PartialEq, Eq, Hash)]
pub enum IsSorted {
    Ascending,
    Descending,
    Not,
}

/// Which rank equal values have.
#[derive(Clone, Copy, Debug, PartialEq, Eq, Hash)]
pub enum RankMethod {
    Average,
    Min,
    Max,
    Dense,
    Ordinal,
    Random,
}

/// How rows are ranked.
#[derive(Clone, Copy, Debug, PartialEq, Eq, Hash)]
pub struct RankOptions {
    pub method: RankMethod,
    pub descending: bool,
}

/// A kind of power.
#[derive(Clone, Copy, Debug, PartialEq, Eq, Hash)]
pub enum PowFunction {
    Generic,
}

/// One dimension of a shape.
#[derive(Clone, Copy, Debug, PartialEq, Eq, Hash)]
pub enum ReshapeDimension {
    Infer,
    Specified(u64),
}

impl ReshapeDimension {
    /// A dimension of this size, which a negative number leaves to be inferred.
    pub fn new(v: i64) -> ReshapeDimension
        ensures { result ≡ dimension_of v }
    {
        match u64::try_from(v) {
            Ok(size) => ReshapeDimension::Specified(size),
            Err(_) => ReshapeDimension::Infer,
        }
    }

    /// The size of the dimension, and `n` where it is inferred.
    pub fn get_or_infer(&self, n: u64) -> u64
        ensures { result ≡ size_of n self.now }
    {
        match self {
            ReshapeDimension::Infer => n,
            ReshapeDimension::Specified(size) => *size,
        }
    }
}

/// A list of dimensions, outermost first.
pub type DimensionList = List<ReshapeDimension>;

/// A list of flags, in order.
pub type BoolList = List<bool>;
