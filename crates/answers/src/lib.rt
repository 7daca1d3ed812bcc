// Answers, and parts of a file, as one number of 64 bits, for C and Rust.
#![tactic(auto)]

ghost use Rattle.std.specs.Prelude.{◌≡◌};
ghost use Rattle.effbd.specs.Answers.{refused, said, told, packed};
ghost use Rattle.effbd.specs.Nesting.{packed_part};

use effbd::Answer;

// A refusal: number * 2^32 + value.
pub fn pack_refusal(number: u16, value: u32) -> u64
    ensures { result ≡ packed (refused number value) }
{
    (number as u64) * 4294967296 + value as u64
}

// An answer: number * 2^32 + value, number 0 where accepted.
pub fn pack_answer(answer: Answer) -> u64
    ensures { result ≡ packed (said answer) }
{
    match answer {
        Ok(value) => value as u64,
        Err(refusal) => pack_refusal(refusal.reason.number(), refusal.value),
    }
}

// The same of an answer that has its refusal's number, any number, and value.
pub fn pack(answer: Result<u32, (u16, u32)>) -> u64
    ensures { result ≡ packed (told answer) }
{
    match answer {
        Ok(value) => pack_answer(Ok(value)),
        Err((number, value)) => pack_refusal(number, value),
    }
}

// A part of a file: start * 2^32 + size.
pub fn pack_part(start: u32, size: u32) -> u64
    ensures { result ≡ packed_part (record { start = start; size = size }) }
{
    (start as u64) * 4294967296 + size as u64
}
