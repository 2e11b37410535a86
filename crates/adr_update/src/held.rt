//! Rows as a controller holds them.

ghost use Rattle.std.specs.Prelude.{◌≡◌};
ghost use Rattle.adr_update.specs.Key.{key_of};

use crate::key::Key;
use crate::update::Update;
use std::marker::Model;

/// An update that is held, with the update sequence number under which it was written here.
pub struct Held {
    update: Update,
    local: u64,
}

impl Drop for Held {
    fn drop(self) {
        let Held {
            update: _update,
            local: _,
        } = self;
    }
}

impl Model for Held {
    ghost use Rattle.adr_model.specs.Store.{Held as Defined};

    ghost Value = { Defined };

    ghost view = { λ h. record { update = h.update; local = h.local } };
}

impl Held {
    pub fn new(update: Update, local: u64) -> Held
        ensures { result ≡ record { update = update; local = local } }
    {
        Held { update, local }
    }

    pub fn update(&self) -> &Update
        ensures { result.now ≡ self.now.update }
    {
        &self.update
    }

    pub fn into_update(self) -> Update
        ensures { result ≡ self.update }
    {
        let Held { update, local: _ } = self;
        update
    }

    pub fn local(&self) -> u64
        ensures { result ≡ self.now.local }
    {
        self.local
    }

    /// The key of the update.
    pub fn key(&self) -> Key
        ensures { key_of result ≡ self.now.update.key }
    {
        self.update.key()
    }
}
