//! Searches of directories that are deep, and of one that goes in a circle.

use crate::directories::{chain, is_rising};
use adr_call::{Directory, Entry};
use adr_filter::Scope;
use adr_search::{read_asking, search_by_text};
use adr_token::Line;
use adr_values::{Failure, Guid};
use std::alloc::{AllocError, Global};
use std::process::Abort;
use std::test::Fail;

/// How many entries are found; none where the search is refused.
fn found(
    alloc: Global,
    entries: Vec<Entry>,
    base: u128,
    scope: Scope,
    text: &str,
) -> Result<Option<usize>, AllocError> {
    if !is_rising(entries.as_slice()) {
        return Ok(None);
    }
    let directory = Directory::of(entries);
    match search_by_text(alloc, &directory, Guid::from_u128(base), scope, text) {
        Ok(guids) => Ok(Some(guids.items().len())),
        Err(Failure::NoMemory) => Err(AllocError),
        Err(Failure::Refused(_)) => Ok(None),
    }
}

#[test]
fn all_of_a_deep_chain_is_found(rt: HostRuntime) -> Result<(), Fail> {
    let alloc = rt.alloc();
    // Each unit stands under the next, and the last one under the root, LostAndFound or the first.
    for (top, base, count) in [
        (1, 1, 2000),
        (2, 1, 2000),
        (2, 2, 2000),
        (16, 1, 0),
        (16, 16, 2000),
        (1, 1015, 1000),
    ] {
        let units = chain(alloc, 16, 2015, top)?;
        assert_eq!(rt;
            found(alloc, units, base, Scope::Sub, "(name=U)")?,
            Some(count)
        );
    }
    Ok(())
}

#[test]
fn scopes_and_refusals_are_told_apart(rt: HostRuntime) -> Result<(), Fail> {
    let alloc = rt.alloc();
    for (base, scope, text, count) in [
        (1015, Scope::Base, "(name=*)", Some(1)),
        (1015, Scope::One, "(name=*)", Some(1)),
        (2, Scope::Sub, "(name=*)", Some(0)),
        (1, Scope::Sub, "(|(mail=x)(!(name=u)))", Some(0)),
        (9, Scope::Sub, "(name=*)", None),
        (1, Scope::Sub, "(name=*", None),
    ] {
        let units = chain(alloc, 16, 2015, 1)?;
        assert_eq!(rt; found(alloc, units, base, scope, text)?, count);
    }
    Ok(())
}

#[test]
fn a_line_asks_for_a_search(rt: HostRuntime) -> Result<(), Fail> {
    let alloc = rt.alloc();
    let mut line = Line::new(b" #10 one \"(name=u)\" ");
    match read_asking(alloc, &mut line) {
        Ok(asking) => {
            assert_eq!(rt; asking.base, Guid::from_u128(16));
            assert!(rt; matches!(asking.scope, Scope::One));
            assert_eq!(rt; asking.text.items(), b"(name=u)".as_slice());
            assert!(rt; line.is_ended());
        }
        Err(_) => assert!(rt; false),
    }
    Ok(())
}
