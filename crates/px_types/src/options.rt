//! The options of a function in an expression. They change no type and no value.
ghost use Rattle.std.specs.Prelude.{◌≡◌};

use bitflags::{Flag, Flags, bitflag_items};

/// To what a function is applied when rows are grouped.
#[derive(Clone, Copy, Debug, PartialEq, Eq, Hash)]
pub enum ApplyOptions {
    GroupWise,
    ApplyList,
    ElementWise,
}

/// What is known of a function, as a set of named bits.
#[derive(Clone, Copy, Debug, PartialEq, Eq, Hash)]
pub struct FunctionFlags(u8);

bitflag_items! {
    impl FunctionFlags: u8 {
        const ALLOW_GROUP_AWARE = 1;
        const RETURNS_SCALAR = 2;
        const OPTIONAL_RE_ENTRANT = 4;
        const ALLOW_EMPTY_INPUTS = 8;
        const PASS_NAME_TO_APPLY = 16;
        const INPUT_WILDCARD_EXPANSION = 32;
    }
}

impl Flags for FunctionFlags {
    ghost use Rattle.std.specs.Prelude.{⊤, [], ◌∷◌, codes};

    type Bits = u8;

    ghost exact = { ⊤ };

    ghost table = { (codes "ALLOW_GROUP_AWARE", 1) ∷ (codes "RETURNS_SCALAR", 2) ∷ (codes "OPTIONAL_RE_ENTRANT", 4)
        ∷ (codes "ALLOW_EMPTY_INPUTS", 8) ∷ (codes "PASS_NAME_TO_APPLY", 16) ∷ (codes "INPUT_WILDCARD_EXPANSION", 32) ∷ [] };

    ghost set_of = { λ flags. flags.0 };

    fn flags<'a>() -> &'a [Flag<FunctionFlags>] {
        FunctionFlags::FLAGS
    }

    fn bits(&self) -> u8 {
        self.0
    }

    fn from_bits_retain(bits: u8) -> FunctionFlags {
        FunctionFlags(bits)
    }
}

impl Default for FunctionFlags {
    ghost use Rattle.std.specs.Prelude.{◌≡◌};

    ghost is_default = { λ flags. flags.0 ≡ 1 };

    fn default() -> FunctionFlags {
        FunctionFlags(1)
    }
}

/// The name that a function is printed under.
#[derive(Clone, Copy, Debug, PartialEq, Eq, Hash)]
pub enum FmtName {
    Empty,
    Map,
    MapList,
    ArgMin,
    ArgMax,
    Product,
    IndexOf,
    SearchSorted,
}

/// How inputs are brought to one type.
#[derive(Clone, Copy, Debug, PartialEq, Eq, Hash)]
pub enum CastingRules {
    FirstArgLossless,
    Supertype { allow_primitive_to_string: bool },
}

/// The options of a function.
#[derive(Clone, Copy, Debug, PartialEq, Eq, Hash)]
pub struct FunctionOptions {
    /// To what the function is applied when rows are grouped.
    pub collect_groups: ApplyOptions,
    /// What is known of it.
    pub flags: FunctionFlags,
    /// The name that it is printed under.
    pub fmt_str: FmtName,
    /// How its inputs are brought to one type, and None where nothing is said of it.
    pub cast_options: Option<CastingRules>,
}

impl Default for FunctionOptions {
    ghost use Rattle.std.specs.Prelude.{◌≡◌, None};
    ghost use Rattle.px_types.specs.declared.options.ApplyOptions.TheVariants.{GroupWise};
    ghost use Rattle.px_types.specs.declared.options.FmtName.TheVariants.{Empty};

    ghost is_default = { λ options. options ≡ record { collect_groups = GroupWise; flags = record { 0 = 1 }; fmt_str = Empty; cast_options = None } };

    fn default() -> FunctionOptions {
        FunctionOptions {
            collect_groups: ApplyOptions::GroupWise,
            flags: FunctionFlags::default(),
            fmt_str: FmtName::Empty,
            cast_options: None,
        }
    }
}
