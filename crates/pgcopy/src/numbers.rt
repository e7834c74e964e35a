ghost use Rattle.std.specs.Prelude.{◌≡◌};
ghost use Rattle.pgcopy.specs.Numbers.{read_number};

/// The number that one or more decimal digits write. None where a byte is no digit, where there is none, or where the
/// number is more than `most`.
pub fn read_number(digits: &str, most: u64) -> Option<u64>
    ensures { result ≡ read_number most digits.now }
{
    if digits.starts_with('+') {
        return None;
    }
    match digits.parse::<u64>() {
        Ok(number) if number <= most => Some(number),
        _ => None,
    }
}
