//! The numbers that JSON texts write.
ghost use Rattle.std.specs.Prelude.{◌≡◌, ◌<◌, ◌==◌, length, slice_index, true, false, option_map, IsTrue};
ghost use Rattle.serde_json.specs.View.{number_view};
ghost use Rattle.serde_json.specs.Read.{float_of, number_from, number_of as number_written};

use fast_float::Numeral;
use serde_json::Number;

/// Whether a text begins with a minus.
fn has_minus(text: &[u8]) -> bool
    ensures value { result ≡ (slice_index text.now 0 == 45) }
    ensures some { IsTrue result → 0 < length text.now }
{
    !text.is_empty() && text[0] == b'-'
}

/// The float nearest to a numeral, if it is finite.
fn nearest(negative: bool, numeral: &Numeral<'_>) -> Option<Number>
    ensures { option_map number_view result ≡ float_of negative numeral.now }
{
    Number::from_f64(numeral.to_float::<f64>(negative))
}

/// The number of a numeral without a minus, if it is in range.
fn unsigned(numeral: &Numeral<'_>) -> Option<Number>
    ensures { option_map number_view result ≡ number_from false numeral.now }
{
    match numeral.to_u64() {
        Some(number) => Some(Number::from(number)),
        None => nearest(false, numeral),
    }
}

/// The number of a numeral behind a minus, if it is in range.
fn negative(numeral: &Numeral<'_>) -> Option<Number>
    ensures { option_map number_view result ≡ number_from true numeral.now }
{
    match numeral.to_i64(true) {
        Some(number) if number < 0 => Some(Number::from(number)),
        _ => nearest(true, numeral),
    }
}

/// The number that a text of JSON writes, if it is in range: each integer of 64 bits is itself, and any other number the nearest float.
pub fn number_of(text: &str) -> Option<Number>
    ensures { option_map number_view result ≡ number_written text.now }
{
    let bytes = text.as_bytes();
    if has_minus(bytes) {
        negative(&Numeral::scan(&bytes[1..]))
    } else {
        unsigned(&Numeral::scan(bytes))
    }
}
