//! What a filter is of an entry.

ghost use Rattle.std.specs.Prelude.{◌≡◌};
ghost use Rattle.adr_search.specs.Truths.{both, either, is_true, swapped, told};

/// True, false or undefined (RFC 4511, section 4.5.1.7).
#[derive(Clone, Copy)]
pub enum Truth {
    False,
    Undefined,
    True,
}

impl Truth {
    pub fn told(truth: bool) -> Truth
        ensures { result ≡ told truth }
    {
        if truth { Truth::True } else { Truth::False }
    }

    pub fn is_true(self) -> bool
        ensures { result ≡ is_true self }
    {
        match self {
            Truth::True => true,
            Truth::Undefined | Truth::False => false,
        }
    }

    /// Of "and": the least of both.
    pub fn and(self, other: Truth) -> Truth
        ensures { result ≡ both self other }
    {
        match (self, other) {
            (Truth::False, _) | (_, Truth::False) => Truth::False,
            (Truth::Undefined, _) | (_, Truth::Undefined) => Truth::Undefined,
            (Truth::True, Truth::True) => Truth::True,
        }
    }

    /// Of "or": the greatest of both.
    pub fn or(self, other: Truth) -> Truth
        ensures { result ≡ either self other }
    {
        match (self, other) {
            (Truth::True, _) | (_, Truth::True) => Truth::True,
            (Truth::Undefined, _) | (_, Truth::Undefined) => Truth::Undefined,
            (Truth::False, Truth::False) => Truth::False,
        }
    }

    /// Of "not".
    pub fn not(self) -> Truth
        ensures { result ≡ swapped self }
    {
        match self {
            Truth::False => Truth::True,
            Truth::Undefined => Truth::Undefined,
            Truth::True => Truth::False,
        }
    }
}
