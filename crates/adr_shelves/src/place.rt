//! Where the row of a key stands.

ghost use Rattle.std.specs.Prelude.{◌≡◌};
ghost use Rattle.adr_model.specs.Update.{LinkOf};
ghost use Rattle.adr_update.specs.Key.{key_of};
ghost use Rattle.adr_shelves.specs.Place.{IsStart, guid_start, is_in_run, is_of_class, is_proper, is_seat, link_place, link_seat, links_start, object_place, object_seat, place_in, place_of, rows_start, seat_at};

use adr_update::{CLASS, Key};
use adr_values::{Birth, Guid, LinkKey, Oid};

/// The place of a row of an object, which has no `other`, or of a link row, whose other end is `other`. No row stands at
/// a place without a birth, nor at one of a link without an `other`: such places come before those of a GUID, or before
/// the links from an object.
#[derive(Clone, Copy, PartialEq, Eq, PartialOrd, Ord)]
pub struct Place {
    pub is_link: bool,
    /// The GUID of the object, or of the link's source.
    pub guid: Guid,
    /// The birth of that object.
    pub birth: Option<Birth>,
    pub attr: u16,
    pub other: Option<Oid>,
}

impl Place {
    /// The place of the row of a key.
    pub fn of(key: &Key) -> Place
        ensures { result ≡ place_of (key_of key.now) }
    {
        match key {
            Key::Row { object, attr } => Place {
                is_link: false,
                guid: object.guid,
                birth: Some(object.birth),
                attr: *attr,
                other: None,
            },
            Key::Link(link) => Place::of_link(link),
        }
    }

    /// The place of a link's row.
    pub fn of_link(link: &LinkKey) -> Place
        ensures { result ≡ place_of (LinkOf link.now) }
    {
        Place {
            is_link: true,
            guid: link.from.guid,
            birth: Some(link.from.birth),
            attr: link.attr,
            other: Some(link.to),
        }
    }

    /// Where the rows of the objects of a GUID begin.
    pub fn before_guid(guid: Guid) -> Place
        ensures place { result ≡ guid_start guid }
        ensures start { IsStart result }
    {
        Place {
            is_link: false,
            guid,
            birth: None,
            attr: 0,
            other: None,
        }
    }

    /// Where the rows or the links of an object begin.
    fn before(is_link: bool, object: &Oid) -> Place
        ensures { result ≡ record { is_link = is_link; guid = object.now.guid; birth = Some object.now.birth; attr = 0; other = None } }
    {
        Place {
            is_link,
            guid: object.guid,
            birth: Some(object.birth),
            attr: 0,
            other: None,
        }
    }

    /// Where the rows of an object begin.
    pub fn before_rows(object: &Oid) -> Place
        ensures place { result ≡ rows_start object.now }
        ensures start { IsStart result }
    {
        Place::before(false, object)
    }

    /// Where the links from an object begin.
    pub fn before_links(object: &Oid) -> Place
        ensures place { result ≡ links_start object.now }
        ensures start { IsStart result }
    {
        Place::before(true, object)
    }

    /// The place of an attribute of the unit here.
    pub fn with_attr(&self, attr: u16) -> Place
        ensures { result ≡ place_in self.now attr }
    {
        Place {
            is_link: self.is_link,
            guid: self.guid,
            birth: self.birth,
            attr,
            other: self.other,
        }
    }

    /// Whether a row may stand here: only a link's place has another end.
    pub fn is_proper(&self) -> bool
        ensures { result ≡ is_proper self.now }
    {
        self.is_link || self.other.is_none()
    }

    /// Whether a unit stands here.
    pub fn is_seat(&self) -> bool
        ensures { result ≡ is_seat self.now }
    {
        self.is_link || (self.attr == 0 && self.other.is_none())
    }

    /// Whether class rows stand here.
    pub fn is_of_class(&self) -> bool
        ensures { result ≡ is_of_class self.now }
    {
        !self.is_link && self.attr == CLASS
    }

    /// Whether a place is of the object of this one, with its attribute or a greater one. A place without a birth begins
    /// the run of its GUID.
    pub fn begins_run_of(&self, place: &Place) -> bool
        ensures { result ≡ is_in_run self.now place.now }
    {
        self.is_link.cmp(&place.is_link).is_eq()
            && self.guid.cmp(&place.guid).is_eq()
            && (self.birth.is_none()
                || (self.birth.cmp(&place.birth).is_eq() && self.attr <= place.attr))
    }
}

/// Where the shelf of an object stands among those of objects.
#[derive(Clone, Copy, PartialEq, Eq, PartialOrd, Ord)]
pub struct ObjectSeat {
    pub guid: Guid,
    pub birth: Option<Birth>,
}

impl ObjectSeat {
    /// That of the object whose row stands at a place.
    pub fn of(place: &Place) -> ObjectSeat
        ensures { result ≡ object_seat place.now }
    {
        ObjectSeat {
            guid: place.guid,
            birth: place.birth,
        }
    }

    /// That of an object.
    pub fn of_object(object: &Oid) -> ObjectSeat
        ensures { result ≡ object_seat (rows_start object.now) }
    {
        ObjectSeat {
            guid: object.guid,
            birth: Some(object.birth),
        }
    }

    pub fn place(&self) -> Place
        ensures { result ≡ object_place self.now }
    {
        Place {
            is_link: false,
            guid: self.guid,
            birth: self.birth,
            attr: 0,
            other: None,
        }
    }
}

/// Where the shelf of a link stands among those of links.
#[derive(Clone, Copy, PartialEq, Eq, PartialOrd, Ord)]
pub struct LinkSeat {
    pub guid: Guid,
    pub birth: Option<Birth>,
    pub attr: u16,
    pub other: Option<Oid>,
}

impl LinkSeat {
    /// That of the link whose row stands at a place.
    pub fn of(place: &Place) -> LinkSeat
        ensures { result ≡ link_seat place.now }
    {
        LinkSeat {
            guid: place.guid,
            birth: place.birth,
            attr: place.attr,
            other: place.other,
        }
    }

    pub fn place(&self) -> Place
        ensures { result ≡ link_place self.now }
    {
        Place {
            is_link: true,
            guid: self.guid,
            birth: self.birth,
            attr: self.attr,
            other: self.other,
        }
    }
}

/// The place of the unit whose row stands at a place.
pub fn seat_at(place: &Place) -> Place
    ensures { result ≡ seat_at place.now }
{
    if place.is_link {
        return *place;
    }
    Place {
        is_link: false,
        guid: place.guid,
        birth: place.birth,
        attr: 0,
        other: None,
    }
}

/// The attribute of a row.
pub fn attr_of(key: &Key) -> u16
    ensures { result ≡ (place_of (key_of key.now)).attr }
{
    match key {
        Key::Row { attr, .. } => *attr,
        Key::Link(link) => link.attr,
    }
}
