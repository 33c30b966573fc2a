// The numbers that tokens spell.
ghost use Rattle.std.specs.Prelude.{◌≡◌, ◌==◌, ◌<◌, false, true, length, slice_index, IsTrue};
ghost use Rattle.serde_json.specs.Read.{number_from, number_of};
ghost use Rattle.journal_reading.specs.Pulls.{count_as, signed_as};
ghost use Rattle.journal_reading.specs.Readings.{Reads};

use crate::misread::Misread;
use fast_float::Numeral;

/// Returns the number from 0 to 2^32 - 1 that the text of a number spells.
pub(crate) fn count_of(text: &str) -> Result<u32, Misread>
    ensures { Reads result (count_as (number_of text.now)) }
{
    let bytes = text.as_bytes();
    if has_minus(bytes) {
        return Err(Misread::Otherwise);
    }
    count_by(&Numeral::scan(bytes))
}

fn count_by(numeral: &Numeral<'_>) -> Result<u32, Misread>
    ensures { Reads result (count_as (number_from false numeral.now)) }
{
    match numeral.to_u64() {
        None => Err(Misread::Otherwise),
        Some(number) => {
            if number > u64::from(u32::MAX) {
                return Err(Misread::Otherwise);
            }
            Ok(number as u32)
        }
    }
}

/// Returns the number from -2^31 to 2^31 - 1 that the text of a number spells.
pub(crate) fn signed_of(text: &str) -> Result<i32, Misread>
    ensures { Reads result (signed_as (number_of text.now)) }
{
    let bytes = text.as_bytes();
    if has_minus(bytes) {
        negative_by(&Numeral::scan(&bytes[1..]))
    } else {
        positive_by(&Numeral::scan(bytes))
    }
}

// Returns the number with a minus sign before it. There is no -0.
fn negative_by(numeral: &Numeral<'_>) -> Result<i32, Misread>
    ensures { Reads result (signed_as (number_from true numeral.now)) }
{
    match numeral.to_i64(true) {
        None => Err(Misread::Otherwise),
        Some(number) => {
            if number >= 0 || number < i64::from(i32::MIN) {
                return Err(Misread::Otherwise);
            }
            Ok(number as i32)
        }
    }
}

fn positive_by(numeral: &Numeral<'_>) -> Result<i32, Misread>
    ensures { Reads result (signed_as (number_from false numeral.now)) }
{
    match numeral.to_u64() {
        None => Err(Misread::Otherwise),
        Some(number) => {
            if number > 2_147_483_647 {
                return Err(Misread::Otherwise);
            }
            Ok(number as i32)
        }
    }
}

fn has_minus(bytes: &[u8]) -> bool
    ensures value { result ≡ (slice_index bytes.now 0 == 45) }
    ensures len { IsTrue result → 0 < length bytes.now }
{
    !bytes.is_empty() && bytes[0] == b'-'
}
