//! What errors say: what a schedule prints, where it prints it.

use adr_call::{Failure, ItemFault, Mark, SchemaRefusal, Table, TakeRefusal, WriteRefusal};
use adr_io::Fault;
use adr_values::Guid;
use adr_wire::{DecodeRefusal, Malformed};
use std::error::Error;
use std::fmt::InlineText;
use std::process::Abort;

fn says<E: Error>(rt: &impl Abort, error: E, text: &str) {
    let said = InlineText::<80>::of(error);
    assert_eq!(rt; said.as_str(), text);
}

#[test]
fn errors_say_what_a_schedule_prints(rt: HostRuntime) {
    let guid = Guid::from_u128(16);
    let mark = Mark {
        obj: 1,
        prop: 2,
        seen: 3,
    };
    says(
        &rt,
        WriteRefusal::NoObject { guid },
        "NoObject guid=#00000000-0000-0000-0000-000000000010",
    );
    says(
        &rt,
        WriteRefusal::Schema(SchemaRefusal::BadValue { attr: 9, place: 1 }),
        "BadValue attr=%9 place=1",
    );
    says(
        &rt,
        TakeRefusal::Stale { mark, from: mark },
        "Stale mark=1/2/3 from=1/2/3",
    );
    says(
        &rt,
        TakeRefusal::BadItem {
            place: 2,
            cause: ItemFault::Schema(SchemaRefusal::UnknownClass),
        },
        "BadItem place=2 cause=UnknownClass",
    );
    says(
        &rt,
        TakeRefusal::Full {
            table: Table::Links,
            limit: 1_000_000,
        },
        "Full table=Links limit=1000000",
    );
    says(
        &rt,
        Failure::Refused(DecodeRefusal::WrongVersion { found: 3 }),
        "no form of version 3 is known",
    );
    says(&rt, Failure::<Malformed>::NoMemory, "no memory");
    says(&rt, Fault::Failed, "the call failed");
}
