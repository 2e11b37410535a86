//! Names of controllers.

ghost use Rattle.std.specs.Prelude.{◌≡◌};

use crate::Text;
use std::marker::Model;

/// Names of controllers, in the order of their line.
#[derive(Drop)]
pub struct Names {
    list: Vec<Text>,
}

impl Model for Names {
    ghost use Rattle.std.specs.Prelude.{List, ℕ};

    ghost Value = { List (List ℕ) };

    ghost view = { λ n. n.list.items };
}

impl Names {
    pub fn of(items: Vec<Text>) -> Names
        ensures { result ≡ items.items }
    {
        Names { list: items }
    }

    pub fn items(&self) -> &[Text]
        ensures { result.now ≡ self.now }
    {
        self.list.as_slice()
    }
}
