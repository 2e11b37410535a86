//! `adr_test_killed`: a controller in a file, whose process may be killed at any moment and started again.
//!
//! `new NAME` formats a new controller in the file NAME.adr of the present folder, which must be empty or not there.
//! `run NAME FIRST COUNT` starts it and adds the objects of that many numbers from FIRST on, each told as soon as it is
//! acknowledged. `show NAME` starts it and tells the numbers of the objects that are there, and the USN.
//!
//! It stands on the controllers of `adr_controller`, on the journals over a file, and on the law that every write can be
//! recorded. What it tells of the file no contract says, since no contract says what a file gives.
#![tactic(auto)]

mod adding;
mod ending;
mod keeping;
mod objects;

use crate::adding::run;
use crate::ending::Ending;
use crate::keeping::{begin, show, tell};
use std::process::ExitCode;
use std::{env, io};

/// The words, without the program's name.
fn words(rt: &HostRuntime) -> io::Result<Vec<String>> {
    Ok(env::args(rt)?.skip(1).collect(rt.alloc())?)
}

/// A number in decimal.
fn number_in(word: &String) -> Result<u64, Ending> {
    match word.parse::<u64>() {
        Ok(number) => Ok(number),
        Err(_) => Err(Ending::Words),
    }
}

/// Does what the words say.
fn act(rt: &HostRuntime, words: &[String]) -> Result<(), Ending> {
    match words {
        [verb, name] => match verb.as_str() {
            "new" => begin(rt, name.as_str()),
            "show" => show(rt, name.as_str()),
            _ => Err(Ending::Words),
        },
        [verb, name, first, count] => match verb.as_str() {
            "run" => run(rt, name.as_str(), number_in(first)?, number_in(count)?),
            _ => Err(Ending::Words),
        },
        _ => Err(Ending::Words),
    }
}

fn main(rt: HostRuntime) -> ExitCode {
    let Ok(words) = words(&rt) else {
        return ExitCode::from(Ending::NoMemory.status());
    };
    match act(&rt, words.as_slice()) {
        Ok(()) => ExitCode::from(0),
        Err(ending) => {
            let _ = ending.tell(&rt);
            ExitCode::from(ending.status())
        }
    }
}
