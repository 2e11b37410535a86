//! Texts of filters, as they are written, and texts that are none, with their places.

use adr_filter::{parse_filter, print_filter};
use adr_values::Failure;
use std::alloc::{AllocError, Global};
use std::process::Abort;
use std::test::Fail;

/// What is written of the filter that a text spells; of a text that spells none, its place as one byte.
fn shown(alloc: Global, text: &str) -> Result<Vec<u8>, AllocError> {
    match parse_filter(alloc, text) {
        Ok(filter) => print_filter(alloc, &filter),
        Err(Failure::NoMemory) => Err(AllocError),
        Err(Failure::Refused(bad)) => {
            let mut out = Vec::new(alloc);
            out.push(u8::try_from(bad.place).unwrap_or(255))?;
            Ok(out)
        }
    }
}

/// Texts, and what is written of each, or its place.
const TEXTS: &[(&str, &[u8])] = &[
    (
        "(&(objectClass=user)(name=a*n))",
        b"(&(objectClass=user)(name=a*n))",
    ),
    ("(name=*)", b"(name=*)"),
    ("(name=***)", b"(name=*)"),
    ("(name=*a**b*)", b"(name=*a*b*)"),
    ("(name=)", b"(name=)"),
    ("(!(mail>=x y))", b"(!(mail>=x y))"),
    ("(mail=\\2A\\c3\\A9)", b"(mail=\\2a\\c3\\a9)"),
    ("(mail=\u{e9})", b"(mail=\\c3\\a9)"),
    ("(|(a=b)(&(c<=d)))", b"(|(a=b)(&(c<=d)))"),
    // as in the documents
    ("(name=a", &[7]),
    ("(mail~=x)", &[5]),
    // others that are none
    ("", &[0]),
    ("name=a", &[0]),
    ("(&)", &[2]),
    ("(!(a=b)(c=d))", &[7]),
    ("(a=b)(c=d)", &[5]),
    ("(a=\\4)", &[5]),
    ("(a>=b*)", &[5]),
    ("(a=b(c)", &[4]),
    ("( a=b)", &[1]),
];

#[test]
fn texts_are_filters_or_have_a_place(rt: HostRuntime) -> Result<(), Fail> {
    for (text, want) in TEXTS {
        assert_eq!(rt; shown(rt.alloc(), text)?.as_slice(), *want);
    }
    Ok(())
}

/// A test behind so many exclamation marks, each with its parenthesis.
fn denied(alloc: Global, times: usize) -> Result<String, AllocError> {
    let mut text = String::new(alloc);
    for _ in 0..times {
        text.push_str("(!")?;
    }
    text.push_str("(a=b)")?;
    for _ in 0..times {
        text.push_str(")")?;
    }
    Ok(text)
}

#[test]
fn a_hundred_nest_and_no_more(rt: HostRuntime) -> Result<(), Fail> {
    let alloc = rt.alloc();
    let deepest = denied(alloc, 99)?;
    assert_eq!(rt;
        shown(alloc, deepest.as_str())?.as_slice(),
        deepest.as_bytes()
    );
    // The hundredth parenthesis stands at 198, and what follows it is no attribute.
    assert_eq!(rt;
        shown(alloc, denied(alloc, 100)?.as_str())?.as_slice(),
        [199u8].as_slice()
    );
    Ok(())
}

/// Filters whose every byte is turned.
const TURNED: &[&str] = &[
    "(&(objectClass=user)(name=a*n))",
    "(!(|(mail>=x y)(mail<=\\2a)))",
    "(displayName=\\c3\\a9*b**c*)",
];

/// What becomes of a text whose bytes below a place begin a filter: a filter that is written as it is read, or a place
/// behind those bytes and within the text.
fn is_answered(alloc: Global, text: &str, place: usize) -> Result<bool, AllocError> {
    match parse_filter(alloc, text) {
        Ok(filter) => {
            let written = print_filter(alloc, &filter)?;
            match str::from_utf8(written.as_slice()) {
                Ok(again) => Ok(shown(alloc, again)?.as_slice() == written.as_slice()),
                Err(_) => Ok(false),
            }
        }
        Err(Failure::NoMemory) => Err(AllocError),
        Err(Failure::Refused(bad)) => Ok(place <= bad.place && bad.place <= text.len()),
    }
}

#[test]
fn a_front_of_a_filter_is_refused_at_its_end(rt: HostRuntime) -> Result<(), Fail> {
    let alloc = rt.alloc();
    for text in TURNED {
        for place in 0..text.len() {
            let front = str::from_utf8(&text.as_bytes()[..place]).unwrap_or("()");
            assert_eq!(rt; shown(alloc, front)?.as_slice(), [place as u8].as_slice());
        }
    }
    Ok(())
}

#[test]
fn each_byte_turned_is_a_filter_or_has_a_place(rt: HostRuntime) -> Result<(), Fail> {
    let alloc = rt.alloc();
    for text in TURNED {
        for place in 0..text.len() {
            for byte in 0..=127u8 {
                let mut turned = Vec::from_slice(alloc, text.as_bytes())?;
                turned[place] = byte;
                let read = str::from_utf8(turned.as_slice()).unwrap_or("");
                assert!(rt; is_answered(alloc, read, place)?);
            }
        }
    }
    Ok(())
}
