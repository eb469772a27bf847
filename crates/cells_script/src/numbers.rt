//! The numbers that words write.
ghost use Rattle.std.specs.Prelude.{◌≡◌, ◌≤◌, IfSome};
ghost use Rattle.std.specs.Char.{is_ascii_digit};
ghost use Rattle.std.specs.List.{list_all};
ghost use Rattle.claim_types.specs.Bounds.{IsCell};
ghost use Rattle.cells_script.specs.Numbers as spec;

use claim_types::GREATEST_CELL;

fn are_digits(word: &str) -> bool
    ensures { result ≡ list_all is_ascii_digit word.now }
{
    word.as_bytes().iter().all(|b| b.is_ascii_digit())
}

#[tactic(auto, unfolding(crate::specs::Numbers::is_numeral))]
fn is_numeral(word: &str) -> bool
    ensures { result ≡ spec.is_numeral word.now }
{
    if !are_digits(word) {
        return false;
    }
    match word.as_bytes() {
        [] => false,
        [_] => true,
        [first, ..] => *first != b'0',
    }
}

// The number that a word writes in decimal, without a sign and without a needless zero.
#[tactic(auto, unfolding(crate::specs::Numbers::number_of))]
fn number_of(word: &str) -> Option<u64>
    ensures { result ≡ spec.number_of word.now }
{
    if !is_numeral(word) {
        return None;
    }
    word.parse::<u64>().ok()
}

// That number, if it is one of these.
#[tactic(auto, unfolding(crate::specs::Numbers::number_in))]
pub fn number_in(least: u64, most: u64, word: &str) -> Option<u64>
    ensures value { result ≡ spec.number_in least most word.now }
    ensures bounds { IfSome result (λ n. (least ≤ n) × (n ≤ most)) }
{
    let number = number_of(word)?;
    if number < least {
        return None;
    }
    if most < number {
        return None;
    }
    Some(number)
}

// The cell that a word names.
pub fn cell_in(word: &str) -> Option<u16>
    ensures value { result ≡ spec.cell_in word.now }
    ensures bounds { IfSome result IsCell }
{
    match number_in(1, u64::from(GREATEST_CELL), word) {
        Some(number) => Some(number as u16),
        None => None,
    }
}
