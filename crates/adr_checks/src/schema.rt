//! A schema: what objects of a class may contain, and where they may stand.

ghost use Rattle.std.specs.Prelude.{◌≡◌, is_none, map};
ghost use Rattle.std.specs.List.{find};
ghost use Rattle.std.specs.Option.{option_copied};
ghost use Rattle.std.specs.Result.{result_err};
ghost use Rattle.adr_values.specs.Assignments.{given};
ghost use Rattle.adr_values.specs.Rules.{add_refusal, class_refusal, first_refusal, is_emptied, link_refusal, modify_refusal, not_link_refusal, row_refusal, values_refusal};
ghost use Rattle.adr_values.specs.Table.{is_must, is_of, is_superior, kind_at, may_of, must_of, superiors_of};
ghost use Rattle.adr_values.specs.Numbered.{numbered};
ghost use Rattle.adr_values.specs.Schemas.{schema_table};
ghost use Rattle.adr_checks.specs.Given.{given_refusal};
ghost use Rattle.adr_checks.specs.View.{table_of};

use crate::table::{TableData, table_numbered};
use crate::values::bad_place;
use adr_values::{Assignments, Kind, SchemaRefusal, Value};
use std::marker::Model;

/// The class that the root counts as, where it is asked what may stand under it.
pub const ROOT_CLASS: u16 = 1;

/// The class that LostAndFound counts as, where it is asked what may stand under it.
pub const LOST_AND_FOUND_CLASS: u16 = 2;

/// The object that values are given to.
#[derive(Clone, Copy)]
enum Target {
    /// One that is added.
    New,
    /// One that is there, and is modified.
    Held,
}

/// One of the schemas that there are, which are this project's own. A class that a schema does not
/// have has no attributes and stands nowhere.
#[derive(Clone, Copy)]
pub struct Schema {
    number: u32,
}

impl Model for Schema {
    ghost use Rattle.std.specs.Prelude.{IsSome};
    ghost use Rattle.adr_values.specs.Table.{Table};
    ghost use Rattle.adr_values.specs.Numbered.{numbered};
    ghost use Rattle.adr_values.proofs.Numbers.{number-numbered};
    ghost use Rattle.adr_values.specs.Schemas.{schema_table};

    ghost Value = { Table };

    ghost view = { λ s. numbered s.number };

    ghost invariant = { λ s. IsSome (schema_table s.number) };

    ghost inverse = { λ t. record { number = t.number } };

    ghost inverse_ok = { λ a h. λ i. record { number = number-numbered a.number h i } };
}

impl Schema {
    pub fn new(number: u32) -> Option<Schema>
        ensures { result ≡ schema_table number }
    {
        match table_numbered(number) {
            Some(_) => Some(Schema { number }),
            None => None,
        }
    }

    /// The number, which stands for the whole schema.
    pub fn number(&self) -> u32
        ensures number { result ≡ self.now.number }
        ensures numbered { self.now ≡ numbered result }
    {
        self.number
    }

    fn table(&self) -> &'static TableData
        ensures { table_of result.now ≡ self.now }
    {
        table_numbered(self.number).unwrap()
    }

    fn kind(&self, attr: u16) -> Option<Kind>
        ensures { result ≡ kind_at self.now attr }
    {
        self.table().kind(attr)
    }

    /// The attributes that objects of a class must have, rising.
    pub fn must(&self, class: u16) -> &'static [u16]
        ensures { result.now ≡ must_of self.now class }
    {
        match self.table().class(class) {
            Some(class) => class.must,
            None => &[],
        }
    }

    fn may(&self, class: u16) -> &'static [u16]
        ensures { result.now ≡ may_of self.now class }
    {
        match self.table().class(class) {
            Some(class) => class.may,
            None => &[],
        }
    }

    fn superiors(&self, class: u16) -> &'static [u16]
        ensures { result.now ≡ superiors_of self.now class }
    {
        match self.table().class(class) {
            Some(class) => class.superiors,
            None => &[],
        }
    }

    /// Whether an object of a class may stand under one of the class `parent`.
    pub fn is_superior(&self, class: u16, parent: u16) -> bool
        ensures { result ≡ is_superior self.now class parent }
    {
        self.superiors(class).contains(&parent)
    }

    /// Tests that the schema has a class.
    pub fn check_class(&self, class: u16) -> Result<(), SchemaRefusal>
        ensures { result_err result ≡ class_refusal self.now class }
    {
        match self.table().class(class) {
            Some(_) => Ok(()),
            None => Err(SchemaRefusal::UnknownClass),
        }
    }

    /// Whether objects of a class, where it is known, have an attribute.
    fn is_of(&self, class: Option<u16>, attr: u16) -> bool
        ensures { result ≡ is_of self.now class attr }
    {
        match class {
            Some(class) => self.must(class).contains(&attr) || self.may(class).contains(&attr),
            None => true,
        }
    }

    fn is_must(&self, class: Option<u16>, attr: u16) -> bool
        ensures { result ≡ is_must self.now class attr }
    {
        match class {
            Some(class) => self.must(class).contains(&attr),
            None => false,
        }
    }

    /// Tests a list of values for an attribute, which may be empty.
    fn check_list(
        &self,
        class: Option<u16>,
        attr: u16,
        values: &[Value],
    ) -> Result<(), SchemaRefusal>
        ensures { result_err result ≡ values_refusal self.now class attr values.now }
    {
        match self.kind(attr) {
            None => Err(SchemaRefusal::UnknownAttribute { attr }),
            Some(Kind::Forward { .. } | Kind::Back { .. }) => Err(SchemaRefusal::IsLink { attr }),
            Some(Kind::Reserved) => Err(SchemaRefusal::NotAllowed { attr }),
            Some(Kind::Plain { syntax, most }) => {
                if !self.is_of(class, attr) {
                    return Err(SchemaRefusal::NotAllowed { attr });
                }
                match bad_place(syntax, most, values) {
                    Some(place) => Err(SchemaRefusal::BadValue { attr, place }),
                    None => Ok(()),
                }
            }
        }
    }

    /// Tests the values of one attribute of an object that is held, or that came from elsewhere. Where
    /// the object's class is not known, what only the class forbids is not tested.
    #[tactic(auto, unfolding(adr_values::specs::Rules::row_refusal))]
    pub fn check_values(
        &self,
        class: Option<u16>,
        attr: u16,
        values: &[Value],
    ) -> Result<(), SchemaRefusal>
        ensures { result_err result ≡ row_refusal self.now class attr values.now }
    {
        self.check_list(class, attr, values)?;
        if values.is_empty() && self.is_must(class, attr) {
            return Err(SchemaRefusal::BadValue { attr, place: 0 });
        }
        Ok(())
    }

    /// Tests the class and the values of an object that is added.
    #[tactic(auto, unfolding(adr_values::specs::Rules::add_refusal))]
    pub fn check_add(&self, class: u16, values: &Assignments) -> Result<(), SchemaRefusal>
        ensures { result_err result ≡ add_refusal self.now class values.now }
    {
        self.check_class(class)?;
        self.check_each(Target::New, class, values)?;
        match self.first_missing(class, values) {
            Some(attr) => Err(SchemaRefusal::MissingMust { attr }),
            None => Ok(()),
        }
    }

    /// Tests what each attribute is given.
    fn check_each(
        &self,
        target: Target,
        class: u16,
        values: &Assignments,
    ) -> Result<(), SchemaRefusal>
        ensures { result_err result
            ≡ first_refusal (map (λ g. given_refusal target self.now class g) values.now) }
    {
        'attributes: for (attr, values) in values.entries() {
            self.check_given(target, class, *attr, values.items())?;
        }
        Ok(())
    }

    /// Tests a list of values for an attribute, which may not be empty in an object that is new.
    fn check_given(
        &self,
        target: Target,
        class: u16,
        attr: u16,
        values: &[Value],
    ) -> Result<(), SchemaRefusal>
        ensures { result_err result ≡ given_refusal target self.now class (attr, values.now) }
    {
        self.check_list(Some(class), attr, values)?;
        match target {
            Target::New if values.is_empty() => Err(SchemaRefusal::BadValue { attr, place: 0 }),
            _ => Ok(()),
        }
    }

    /// The first attribute that objects of a class must have and that is not given.
    fn first_missing(&self, class: u16, values: &Assignments) -> Option<u16>
        ensures { result ≡ find (λ attr. is_none (given attr values.now)) (must_of self.now class) }
    {
        for attr in self.must(class) {
            if values.get(*attr).is_none() {
                return Some(*attr);
            }
        }
        None
    }

    /// Tests the values that take the place of those that an object of a class has; an empty list
    /// leaves an attribute without values.
    #[tactic(auto, unfolding(adr_values::specs::Rules::modify_refusal))]
    pub fn check_modify(&self, class: u16, values: &Assignments) -> Result<(), SchemaRefusal>
        ensures { result_err result ≡ modify_refusal self.now class values.now }
    {
        self.check_each(Target::Held, class, values)?;
        match self.first_emptied(class, values) {
            Some(attr) => Err(SchemaRefusal::MissingMust { attr }),
            None => Ok(()),
        }
    }

    /// The first attribute that objects of a class must have and that is given no value.
    fn first_emptied(&self, class: u16, values: &Assignments) -> Option<u16>
        ensures { result ≡ find (λ attr. is_emptied (given attr values.now)) (must_of self.now class) }
    {
        for attr in self.must(class) {
            if is_emptied(values.get(*attr)) {
                return Some(*attr);
            }
        }
        None
    }

    /// Tests what a link row says of its attribute, whatever the class of its ends.
    pub fn check_link_row(&self, attr: u16) -> Result<(), SchemaRefusal>
        ensures { result_err result ≡ not_link_refusal self.now attr }
    {
        match self.kind(attr) {
            Some(Kind::Forward { .. }) => Ok(()),
            _ => Err(SchemaRefusal::NotLink { attr }),
        }
    }

    /// Tests that an object of a class may have links under an attribute.
    #[tactic(auto, unfolding(adr_values::specs::Rules::link_refusal))]
    pub fn check_link(&self, class: u16, attr: u16) -> Result<(), SchemaRefusal>
        ensures { result_err result ≡ link_refusal self.now class attr }
    {
        if self.kind(attr).is_none() {
            return Err(SchemaRefusal::UnknownAttribute { attr });
        }
        self.check_link_row(attr)?;
        if !self.is_of(Some(class), attr) {
            return Err(SchemaRefusal::NotAllowed { attr });
        }
        Ok(())
    }
}

fn is_emptied(values: Option<&[Value]>) -> bool
    ensures { result ≡ is_emptied (option_copied values.entry) }
{
    match values {
        Some(values) => values.is_empty(),
        None => false,
    }
}
