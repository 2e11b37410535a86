//! A request for what a partner has above a mark.

ghost use Rattle.std.specs.Prelude.{◌≡◌};

use adr_values::{Guid, Mark, Vector};
use std::marker::Model;

/// A request for changes (MS-DRSR, DRS_MSG_GETCHGREQ): the version of the protocol, who asks, which partner, the incarnation of the partner's
/// database that was read and how far, the number of the asker's schema, how many items a reply has at most, and what
/// the asker has seen.
#[derive(Drop)]
pub struct Request {
    version: u16,
    dest: Guid,
    source: Guid,
    inv: Guid,
    mark: Mark,
    schema: u32,
    max: u32,
    vector: Vector,
}

impl Model for Request {
    ghost use Rattle.adr_model.specs.Serve.{Request as Defined};

    ghost Value = { Defined };

    ghost view = { λ q. record { version = q.version; dest = q.dest; source = q.source; inv = q.inv; mark = q.mark; schema = q.schema; max = q.max; vector = q.vector } };
}

impl Request {
    pub fn new(
        version: u16,
        dest: Guid,
        source: Guid,
        inv: Guid,
        mark: Mark,
        schema: u32,
        max: u32,
        vector: Vector,
    ) -> Request
        ensures { result
            ≡ record { version = version; dest = dest; source = source; inv = inv; mark = mark; schema = schema; max = max; vector = vector } }
    {
        Request {
            version,
            dest,
            source,
            inv,
            mark,
            schema,
            max,
            vector,
        }
    }

    /// The version of the protocol, in which the reply is made too.
    pub fn version(&self) -> u16
        ensures { result ≡ self.now.version }
    {
        self.version
    }

    /// The controller that asks, and to which the reply goes.
    pub fn dest(&self) -> Guid
        ensures { result ≡ self.now.dest }
    {
        self.dest
    }

    /// The controller that is asked.
    pub fn source(&self) -> Guid
        ensures { result ≡ self.now.source }
    {
        self.source
    }

    /// The invocation identifier of the source that was read so far.
    pub fn inv(&self) -> Guid
        ensures { result ≡ self.now.inv }
    {
        self.inv
    }

    /// How far it was read.
    pub fn mark(&self) -> Mark
        ensures { result ≡ self.now.mark }
    {
        self.mark
    }

    /// The number of the asker's schema.
    pub fn schema(&self) -> u32
        ensures { result ≡ self.now.schema }
    {
        self.schema
    }

    /// How many items the reply has at most.
    pub fn max(&self) -> u32
        ensures { result ≡ self.now.max }
    {
        self.max
    }

    /// What the asker has seen.
    pub fn vector(&self) -> &Vector
        ensures { result.now ≡ self.now.vector }
    {
        &self.vector
    }
}
