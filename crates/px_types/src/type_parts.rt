//! The small types that types and casts are made of.

/// The unit of a point or of a span in time.
#[derive(Clone, Copy, Debug, PartialEq, Eq, Hash)]
pub enum TimeUnit {
    Nanoseconds,
    Microseconds,
    Milliseconds,
}

/// What is known of a type that is not determined. An integer literal without a type has `Int` of
/// its value, so that the type beside it can decide.
#[derive(Clone, Copy, Debug, PartialEq, Eq, Hash)]
pub enum UnknownKind {
    Any,
    Int(i128),
    Float,
    Str,
}

impl Default for UnknownKind {
    ghost use Rattle.std.specs.Prelude.{◌≡◌};
    ghost use Rattle.px_types.specs.declared.type_parts.UnknownKind.TheVariants.{Any};

    ghost is_default = { λ value_type. value_type ≡ Any };

    fn default() -> UnknownKind {
        UnknownKind::Any
    }
}

/// What a cast does with a value that its target lacks: it fails, it gives null, or it wraps.
#[derive(Clone, Copy, Debug, PartialEq, Eq, Hash)]
pub enum CastOptions {
    Strict,
    NonStrict,
    Overflowing,
}

/// Which value a quantile takes between two rows.
#[derive(Clone, Copy, Debug, PartialEq, Eq, Hash)]
pub enum QuantileMethod {
    Nearest,
    Lower,
    Higher,
    Midpoint,
    Linear,
}

/// Which ends belong to an interval.
#[derive(Clone, Copy, Debug, PartialEq, Eq, Hash)]
pub enum ClosedInterval {
    Both,
    Left,
    Right,
    None,
}
