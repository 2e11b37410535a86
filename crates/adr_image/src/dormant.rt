//! A database that was read from an image.

ghost use Rattle.std.specs.Prelude.{◌≡◌};
ghost use Rattle.adr_model.specs.Formed.{IsFormedStore};
ghost use Rattle.adr_image.specs.Stored.{IsSpelled};

use crate::contents::Contents;
use std::marker::Model;

/// A database that was read from an image and belongs to no controller yet: it can't write, serve, take or ask.
#[derive(Drop)]
pub struct Dormant {
    contents: Contents,
}

impl Model for Dormant {
    ghost use Rattle.adr_model.specs.Store.{Store};
    ghost use Rattle.adr_model.specs.Formed.{IsFormedStore};
    ghost use Rattle.adr_image.specs.Stored.{IsSpelled};

    ghost Value = { Store };

    ghost view = { λ d. d.contents };

    ghost invariant = { λ d. IsFormedStore d.contents × IsSpelled d.contents };
}

impl Dormant {
    /// The database that was read.
    pub(crate) fn of(contents: Contents) -> Dormant
        requires formed { IsFormedStore contents }
        requires spelled { IsSpelled contents }
        ensures { result ≡ contents }
    {
        Dormant { contents }
    }

    /// What was read: it is formed and spelled.
    pub fn into_contents(self) -> Contents
        ensures all { result ≡ self }
        ensures formed { IsFormedStore self }
        ensures spelled { IsSpelled self }
    {
        let Dormant { contents } = self;
        contents
    }
}
