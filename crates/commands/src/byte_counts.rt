ghost use Rattle.std.specs.Prelude.{◌≡◌, ◌*◌, ◌<◌, ◌≤◌, ◌^◌, ℕ, List, IfNone, IfSome, SomeIff};
ghost use Rattle.commands.specs.ByteCounts.{HasUnit, SpellsBytes, SpellsBytesUpTo};
ghost use Rattle.commands.specs.Options.{IsNumber, decimal_number};

use crate::options::number_in;

/// The digits of a text with a unit of bytes behind them, and how many bytes that stands for.
fn in_units(text: &str) -> Option<(&str, u64)>
    ensures some { IfSome result (λ parts. HasUnit text.now parts.0.now parts.1) }
    ensures none { IfNone result ((digits : List ℕ) (unit : ℕ) → HasUnit text.now digits unit → ⊥) }
{
    if let Some(digits) = text.strip_suffix("K") {
        return Some((digits, 1 << 10));
    }
    if let Some(digits) = text.strip_suffix("M") {
        return Some((digits, 1 << 20));
    }
    if let Some(digits) = text.strip_suffix("G") {
        return Some((digits, 1 << 30));
    }
    let digits = text.strip_suffix("T")?;
    Some((digits, 1 << 40))
}

/// The bytes that so many of a unit are, less than 2^64.
fn bytes_of_units(digits: &str, unit: u64) -> Option<u64>
    ensures { SomeIff result (IsNumber digits.now × (decimal_number digits.now * unit < 2 ^ 64))
        (decimal_number digits.now * unit) }
{
    match number_in(digits) {
        Some(number) => number.checked_mul(unit),
        None => None,
    }
}

/// The number of bytes that a text spells, less than 2^64: decimal digits, and behind them nothing,
/// or one of the letters K, M, G and T, for so many times 1,024 or its second, third or fourth
/// power.
fn bytes_in(text: &str) -> Option<u64>
    ensures some { IfSome result (SpellsBytes text.now) }
    ensures none { IfNone result ((bytes : ℕ) → SpellsBytes text.now bytes → ⊥) }
{
    match number_in(text) {
        Some(bytes) => Some(bytes),
        None => match in_units(text) {
            Some((digits, unit)) => bytes_of_units(digits, unit),
            None => None,
        },
    }
}

/// The number of bytes that a text spells, where it is no greater than this.
pub(crate) fn bytes_up_to(text: &str, greatest: u64) -> Option<u64>
    ensures some { IfSome result (λ bytes. SpellsBytes text.now bytes × (bytes ≤ greatest)) }
    ensures none { IfNone result (SpellsBytesUpTo greatest text.now → ⊥) }
{
    match bytes_in(text) {
        Some(bytes) => {
            if bytes <= greatest {
                return Some(bytes);
            }
            None
        }
        None => None,
    }
}
