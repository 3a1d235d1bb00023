//! What a keyword may ask of its siblings, the other keywords of its schema object.

ghost use Rattle.std.specs.Prelude.{◌≡◌, None, nat_lt, option_map};

/// What a keyword may ask of its siblings.
#[derive(Clone, Copy, Debug, PartialEq, Eq)]
pub(crate) struct Siblings {
    /// Whether `if` passed, where it is there.
    pub(crate) condition: Option<bool>,
    /// How many elements `contains` found, where it is there.
    pub(crate) containing: Option<u64>,
    /// How many members of the instance `properties` names, at least.
    pub(crate) named: u64,
}

impl Siblings {
    /// It asks for nothing.
    pub(crate) fn nothing() -> Siblings
        ensures { result ≡ record { condition = None; containing = None; named = 0 } }
    {
        Siblings {
            condition: None,
            containing: None,
            named: 0,
        }
    }

    /// Whether the schema of `if` passed: `passing` is how many passed of those that `if` applied, where it is there.
    pub(crate) fn after_if(passing: Option<u64>) -> Siblings
        ensures { result ≡ record {
          condition = option_map (λ n. nat_lt 0 n) passing;
          containing = None;
          named = 0;
        } }
    {
        let condition = match passing {
            Some(passing) => Some(passing > 0),
            None => None,
        };
        Siblings {
            condition,
            containing: None,
            named: 0,
        }
    }

    /// How many elements `contains` found, where it is there.
    pub(crate) fn after_contains(passing: Option<u64>) -> Siblings
        ensures { result ≡ record { condition = None; containing = passing; named = 0 } }
    {
        Siblings {
            condition: None,
            containing: passing,
            named: 0,
        }
    }

    /// How many members of the instance `properties` names, at least.
    pub(crate) fn after_properties(named: u64) -> Siblings
        ensures { result ≡ record { condition = None; containing = None; named = named } }
    {
        Siblings {
            condition: None,
            containing: None,
            named,
        }
    }
}
