//! A time in a line.
ghost use Rattle.std.specs.Prelude.{◌≡◌, ◌+◌, ◌≤◌, ◌++◌, ◌<◌, length};
ghost use Rattle.std.specs.List.{All};
ghost use Rattle.arrayvec.specs.ArrayString.{array_string_len};
ghost use Rattle.ssu_time.specs.TimeText.{time_text};

use crate::writing::{Line, put_character};
use ssu_time::Utc;

/// The time as `YYYY-MM-DDThh:mm:ss`.
pub(crate) fn put_time(line: &mut Line, time: Utc)
    requires { array_string_len line.old + 19 ≤ 96 }
    ensures bytes { line.new.bytes ≡ line.old.bytes ++ time_text time }
    ensures len { array_string_len line.new ≡ array_string_len line.old + 19 }
{
    put_characters(line, &text(time));
}

/// The characters of the time.
fn text(time: Utc) -> [u8; 19]
    ensures text { result ≡ time_text time }
    ensures ascii { All (λ c. c < 128) result }
{
    time.text()
}

fn put_characters(line: &mut Line, characters: &[u8])
    requires room { array_string_len line.old + length characters.now ≤ 96 }
    requires ascii { All (λ c. c < 128) characters.now }
    ensures bytes { line.new.bytes ≡ line.old.bytes ++ characters.now }
    ensures len { array_string_len line.new ≡ array_string_len line.old + length characters.now }
{
    for character in characters {
        put_character(line, *character);
    }
}
