//! Random identifiers. They are not told beforehand.

ghost use Rattle.std.specs.Prelude.{◌≡◌, None, IfOk, slice_index};
ghost use Rattle.uuid.specs.Uuid.{version_num};
ghost use Rattle.uuid.specs.Parts.{variant_of};
ghost use Rattle.uuid.specs.declared.Variant.TheVariants.{RFC4122};

use crate::fresh::Fresh;
use adr_io::{Failures, Fault};
use adr_values::Guid;
use std::io;
use std::random::RandomSource;
use uuid::Builder;

/// A random identifier of version 4 (RFC 9562).
fn draw<R: RandomSource>(source: &R) -> io::Result<Guid>
    ensures version { IfOk result (λ id. version_num id ≡ 4) }
    ensures variant { IfOk result (λ id. variant_of (slice_index id 8) ≡ RFC4122) }
{
    let mut bytes = [0u8; 16];
    source.fill_bytes(&mut bytes)?;
    Ok(Guid::from_bytes(Builder::from_random_bytes(bytes).into_uuid().into_bytes()))
}

/// Random identifiers of version 4 (RFC 9562), and how many calls have failed. That no two are
/// equal is as likely as 122 random bits make it, and isn't proved.
#[derive(Drop)]
pub struct RandomFresh<R> {
    source: R,
    failures: Failures,
}

impl<R: RandomSource + Drop> RandomFresh<R> {
    pub fn new(source: R) -> RandomFresh<R>
        ensures { ⟦<RandomFresh<R> as Fresh>⟧.faults result ≡ 0 }
    {
        RandomFresh {
            source,
            failures: Failures::new(),
        }
    }
}

impl<R: RandomSource + Drop> Fresh for RandomFresh<R> {
    ghost faults = { λ f. f.failures };

    ghost identifiers = { λ _. None };

    fn identifier(&mut self) -> Result<Guid, Fault> {
        match draw(&self.source) {
            Ok(identifier) => Ok(identifier),
            Err(_) => Err(self.failures.fail()),
        }
    }
}
