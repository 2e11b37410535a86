//! A reply: what a partner answers to a request.

ghost use Rattle.std.specs.Prelude.{◌≡◌};
ghost use Rattle.std.specs.Option.{option_copied};

use adr_state::Item;
use adr_values::{Guid, Mark, Times, Vector};
use std::marker::Model;

/// A reply (MS-DRSR, DRS_MSG_GETCHGREPLY): to whom it goes, from whom and from which incarnation, the marks between
/// which it lies, the number of the source's schema, what the asker had seen, what the source has seen if nothing is
/// left to send, and the items.
pub struct Reply {
    version: u16,
    dest: Guid,
    source: Guid,
    inv: Guid,
    from: Mark,
    to: Mark,
    schema: u32,
    asked: Vector,
    last: Option<Vector>,
    times: Times,
    items: Vec<Item>,
}

impl Drop for Reply {
    fn drop(self) {
        let Reply {
            version: _,
            dest: _,
            source: _,
            inv: _,
            from: _,
            to: _,
            schema: _,
            asked: _asked,
            last: _last,
            times: _times,
            items: _items,
        } = self;
    }
}

impl Model for Reply {
    ghost use Rattle.adr_model.specs.Serve.{Reply as Defined};

    ghost Value = { Defined };

    ghost view = { λ r. record { version = r.version; dest = r.dest; source = r.source; inv = r.inv; from = r.from; to = r.to; schema = r.schema; asked = r.asked; last = r.last; times = r.times; items = r.items.items } };
}

impl Reply {
    pub fn new(
        version: u16,
        dest: Guid,
        source: Guid,
        inv: Guid,
        from: Mark,
        to: Mark,
        schema: u32,
        asked: Vector,
        last: Option<Vector>,
        times: Times,
        items: Vec<Item>,
    ) -> Reply
        ensures { result
            ≡ record { version = version; dest = dest; source = source; inv = inv; from = from; to = to; schema = schema; asked = asked; last = last; times = times; items = items.items } }
    {
        Reply {
            version,
            dest,
            source,
            inv,
            from,
            to,
            schema,
            asked,
            last,
            times,
            items,
        }
    }

    /// The version of the protocol.
    pub fn version(&self) -> u16
        ensures { result ≡ self.now.version }
    {
        self.version
    }

    /// When the source last read each incarnation whole, in the last reply of version 2.
    pub fn times(&self) -> &Times
        ensures { result.now ≡ self.now.times }
    {
        &self.times
    }

    /// The controller that asked.
    pub fn dest(&self) -> Guid
        ensures { result ≡ self.now.dest }
    {
        self.dest
    }

    /// The controller that answers.
    pub fn source(&self) -> Guid
        ensures { result ≡ self.now.source }
    {
        self.source
    }

    /// The invocation identifier of its database.
    pub fn inv(&self) -> Guid
        ensures { result ≡ self.now.inv }
    {
        self.inv
    }

    /// The mark from which the source looked for changes.
    pub fn from(&self) -> Mark
        ensures { result ≡ self.now.from }
    {
        self.from
    }

    /// The mark up to which the asker has then read the source.
    pub fn to(&self) -> Mark
        ensures { result ≡ self.now.to }
    {
        self.to
    }

    /// The number of the source's schema.
    pub fn schema(&self) -> u32
        ensures { result ≡ self.now.schema }
    {
        self.schema
    }

    /// What the asker had seen when it asked.
    pub fn asked(&self) -> &Vector
        ensures { result.now ≡ self.now.asked }
    {
        &self.asked
    }

    /// What the source has seen, if this is the last reply.
    pub fn last(&self) -> Option<&Vector>
        ensures { option_copied result ≡ self.now.last }
    {
        self.last.as_ref()
    }

    /// The items, rising by the last local update sequence numbers of their units.
    pub fn items(&self) -> &[Item]
        ensures { result.now ≡ self.now.items }
    {
        self.items.as_slice()
    }
}
