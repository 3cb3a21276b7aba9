// Document 01's numbers for the answers.
ghost use Rattle.std.specs.Prelude.{◌≡◌};
ghost use Rattle.rules.specs.Calls.{refusal_number, number_of, shade_number, shade_values};

use rules::{Answer, Refusal};

#[tactic(auto, unfolding(rules::specs::Calls::refusal_number))]
fn refusal_number(refusal: Refusal) -> u8
    ensures { result ≡ refusal_number refusal }
{
    match refusal {
        Refusal::BudgetUsed => 2,
        Refusal::ByteOver127 => 3,
        Refusal::NameBelow => 4,
        Refusal::Unsupported => 5,
        Refusal::DefinitionInBody => 6,
        Refusal::StoreFull => 7,
        Refusal::TooDeep => 8,
        Refusal::TooManyVertices => 9,
        Refusal::EndInside => 10,
        Refusal::BodyBytesLeft => 11,
        Refusal::StoreSize => 12,
        Refusal::OutOfRange => 13,
        Refusal::AfterEnd => 14,
        Refusal::AddressOver15 => 15,
    }
}

#[tactic(auto, unfolding(rules::specs::Calls::number_of))]
pub fn number_of(answer: Answer) -> u8
    ensures { result ≡ number_of answer }
{
    match answer {
        Answer::Done => 0,
        Answer::Full => 1,
        Answer::Refused(refusal) => refusal_number(refusal),
    }
}

#[tactic(auto, unfolding(rules::specs::Calls::shade_number))]
pub fn shade_number(shade: Result<[u8; 3], Refusal>) -> u8
    ensures { result ≡ shade_number shade }
{
    match shade {
        Ok(_) => 0,
        Err(refusal) => refusal_number(refusal),
    }
}

// G, R and B; zero where there is no such address.
#[tactic(auto, unfolding(rules::specs::Calls::shade_values))]
pub fn shade_values(shade: Result<[u8; 3], Refusal>) -> [u8; 3]
    ensures { result ≡ shade_values shade }
{
    shade.unwrap_or([0, 0, 0])
}
