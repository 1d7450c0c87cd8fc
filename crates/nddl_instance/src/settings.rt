//! The numbers of the settings of a search.

ghost use Rattle.std.specs.Prelude.{◌≡◌};
ghost use Rattle.nddl_instance.specs.Settings.{natural_number, number_or, setting_or};

use nddl_construction::Datum;
use nddl_construction::reading::datum_at;

fn number_or(otherwise: i32, datum: Option<Datum>) -> i32
    ensures { result ≡ number_or otherwise datum }
{
    match datum {
        Some(Datum::Number(number)) => number,
        _ => otherwise,
    }
}

/// The setting of this number, or another number where there are no settings.
pub fn setting_or(otherwise: i32, settings: &[Option<Datum>], number: usize) -> i32
    ensures { result ≡ setting_or otherwise settings.now number }
{
    number_or(otherwise, datum_at(settings, number))
}

/// The number, if it isn't less than 0.
pub fn natural_number(number: i32) -> u32
    ensures { result ≡ natural_number number }
{
    if number < 0 { 0 } else { number as u32 }
}
