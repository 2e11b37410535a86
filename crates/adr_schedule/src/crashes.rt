//! The words that say how a stop leaves what isn't synced.

ghost use Rattle.std.specs.Prelude.{◌≡◌};
ghost use Rattle.adr_schedule.specs.Crashes.{crash_of, crash_word};

use adr_disk::Crash;

/// All of them.
const CRASHES: [Crash; 3] = [Crash::Kept, Crash::Lost, Crash::Torn];

pub fn crash_word(how: Crash) -> &'static [u8]
    ensures { result.now ≡ crash_word how }
{
    match how {
        Crash::Kept => b"kept".as_slice(),
        Crash::Lost => b"lost".as_slice(),
        Crash::Torn => b"torn".as_slice(),
    }
}

/// What a word says.
pub fn crash_of(word: &[u8]) -> Option<Crash>
    ensures { result ≡ crash_of word.now }
{
    CRASHES.iter().copied().find(|how| word == crash_word(*how))
}
