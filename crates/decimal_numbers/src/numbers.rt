ghost use Rattle.std.specs.Prelude.{ℕ, IfOk, MatchOption};
ghost use Rattle.decimal_numbers.specs.Numbers.{IsNumber};

use std::alloc::{AllocError, Global};

/// The number, if the text is it in decimal, and it isn't too large.
fn if_number(
    alloc: Global,
    text: &str,
    number: u32,
    largest: u32,
) -> Result<Option<u32>, AllocError>
    ensures { IfOk result (λ found. MatchOption found
        (IsNumber largest text.now number → ⊥)
        (IsNumber largest text.now)) }
{
    let written = format!(in alloc; "{number}")?;
    if number <= largest && written.as_str() == text {
        Ok(Some(number))
    } else {
        Ok(None)
    }
}

/// The number that the text is in decimal, if it is one, and no larger than this one.
pub fn number_in(alloc: Global, text: &str, largest: u32) -> Result<Option<u32>, AllocError>
    ensures { IfOk result (λ found. MatchOption found
        ((number : ℕ) → IsNumber largest text.now number → ⊥)
        (IsNumber largest text.now)) }
{
    match text.parse::<u32>() {
        Ok(number) => {
            let found = if_number(alloc, text, number, largest)?;
            Ok(found)
        }
        Err(_) => Ok(None),
    }
}
