// The lines that are printed of calls, laid into lent bytes: a move that is offered, an answer, both ends.
#![tactic(auto)]

ghost use Rattle.std.specs.Prelude.{[], ◌∷◌, ◌++◌};
ghost use Rattle.effbd.specs.Answers.{number, said, told};
ghost use Rattle.text.specs.Laid.{Laid};
ghost use Rattle.call_lines.specs.Lines.{move_text, reason as reason_text, refused_text, answer_text, transition_text, fired_text, words_text, ends_text, spaces, gap, head_text, closing_text};

use calls::Counts;
use effbd::{Answer, Reason, moves};
use text::Text;

// Where the answer and the ends stand in a line.
const ANSWER_COLUMN: usize = 34;

const ENDS_COLUMN: usize = 70;

// A move that is offered.
pub fn put_move(text: &mut Text, code: u16, argument: u16)
    ensures { Laid text.old text.new (move_text code argument) }
{
    match code {
        moves::STEP => text.put_named(b"offer step", argument as u32),
        moves::WAIT => text.put_named(b"offer wait", argument as u32),
        _ => {
            text.put_named(b"offer code", code as u32);
            text.put_named(b" argument", argument as u32);
        }
    }
}

// Why a call was refused.
#[tactic(auto, unfolding(crate::specs::Lines::reason))]
fn put_reason(text: &mut Text, reason: Reason)
    ensures { Laid text.old text.new (reason_text (number reason)) }
{
    match reason {
        Reason::AreaShort => text.put_letters(b": area too short"),
        Reason::StateOff => text.put_letters(b": state off"),
        Reason::CodeOff => text.put_letters(b": no move"),
        Reason::NotStanding => text.put_letters(b": step not standing"),
        Reason::ItemShort => text.put_letters(b": item short"),
        Reason::TicksLacking => text.put_letters(b": ticks lacking"),
        Reason::SumTooLarge => text.put_letters(b": sum above 65,535"),
        Reason::WaitHeld => text.put_letters(b": wait held"),
        Reason::CountFull => text.put_letters(b": leader's count full"),
        Reason::NoTelegram => text.put_letters(b": no telegram"),
        Reason::OtherStation => text.put_letters(b": other station"),
        Reason::NumberPast => text.put_letters(b": repeated or late"),
        Reason::NumberAhead => text.put_letters(b": early"),
        // The others are told by their number alone; listed, so that a new one is given words or none here.
        Reason::CutShort
        | Reason::KindNotDue
        | Reason::LengthWrong
        | Reason::HeadValueOff
        | Reason::FieldOff
        | Reason::BytesAfterLast
        | Reason::NestingBroken
        | Reason::LoopExitMisplaced
        | Reason::TooManyOpen
        | Reason::LogOff
        | Reason::NotFunction
        | Reason::MoveRefused
        | Reason::TriggerOff
        | Reason::KillingBranchEmpty
        | Reason::LoopSpendsNoTime
        | Reason::NumberNotNext
        | Reason::StationDiffers
        | Reason::BoxExitMisplaced
        | Reason::OutletsUnmatched
        | Reason::ScenarioFallsThrough
        | Reason::TableOff => {}
    }
}

// The same by a refusal's number, any number.
#[tactic(auto, unfolding(crate::specs::Lines::reason))]
fn put_reason_of(text: &mut Text, number: u16)
    ensures { Laid text.old text.new (reason_text number) }
{
    match number {
        10 => put_reason(text, Reason::AreaShort),
        20 => put_reason(text, Reason::StateOff),
        21 => put_reason(text, Reason::CodeOff),
        22 => put_reason(text, Reason::NotStanding),
        23 => put_reason(text, Reason::ItemShort),
        24 => put_reason(text, Reason::TicksLacking),
        25 => put_reason(text, Reason::SumTooLarge),
        26 => put_reason(text, Reason::WaitHeld),
        27 => put_reason(text, Reason::CountFull),
        30 => put_reason(text, Reason::NoTelegram),
        31 => put_reason(text, Reason::OtherStation),
        32 => put_reason(text, Reason::NumberPast),
        33 => put_reason(text, Reason::NumberAhead),
        _ => {}
    }
}

// Number and value of a refusal, whatever they are.
pub fn put_refused(text: &mut Text, number: u16, value: u32)
    ensures { Laid text.old text.new (refused_text number value) }
{
    text.put_named(b"refused", number as u32);
    text.put_number(value);
}

// What a call was answered: a refusal with number, value and reason.
fn put_answer(text: &mut Text, answer: Answer)
    ensures { Laid text.old text.new (answer_text (said answer)) }
{
    match answer {
        Ok(count) => text.put_named(b"accepted: count", count),
        Err(refusal) => {
            put_refused(text, refusal.reason.number(), refusal.value);
            put_reason(text, refusal.reason);
        }
    }
}

// Spaces up to a column, one at least.
pub fn put_gap(text: &mut Text, column: usize)
    ensures { Laid text.old text.new (spaces (gap text.old.at column)) }
{
    for _ in 0..column.saturating_sub(text.at).max(1) {
        text.put(b' ');
    }
}

// The transition of the annex that a step fires, if it fires one.
fn put_transition(text: &mut Text, fired: Answer)
    ensures { Laid text.old text.new (transition_text (said fired)) }
{
    if let Ok(number) = fired {
        text.put_named(b", fires t", number);
    }
}

// The answer in its column, and what the call fires; a refused one fires nothing.
pub fn put_call_answer(text: &mut Text, answer: Answer, fired: Answer)
    ensures { Laid text.old text.new (spaces (gap text.old.at 34) ++ (answer_text (said answer) ++ fired_text (said answer) (said fired))) }
{
    put_gap(text, ANSWER_COLUMN);
    put_answer(text, answer);
    if answer.is_ok() {
        put_transition(text, fired);
    }
}

// The same of answers that have their refusals' numbers, any numbers, and values.
pub fn put_answer_column(
    text: &mut Text,
    answer: Result<u32, (u16, u32)>,
    fired: Result<u32, (u16, u32)>,
)
    ensures { Laid text.old text.new (spaces (gap text.old.at 34) ++ (answer_text (told answer) ++ fired_text (told answer) (told fired))) }
{
    put_gap(text, ANSWER_COLUMN);
    match answer {
        Ok(count) => {
            put_answer(text, Ok(count));
            if let Ok(number) = fired {
                put_transition(text, Ok(number));
            }
        }
        Err((number, value)) => {
            put_refused(text, number, value);
            put_reason_of(text, number);
        }
    }
}

// The words of a state.
fn put_words(text: &mut Text, state: &[u16])
    ensures { Laid text.old text.new (words_text state.now) }
{
    for word in state {
        text.put_number(*word as u32);
    }
}

// Both ends: moves sent and taken, the words of both states.
fn put_ends(text: &mut Text, counts: Counts, leader: &[u16], follower: &[u16])
    ensures { Laid text.old text.new (ends_text (record { leader = leader.now; sent = counts.sent; follower = follower.now; taken = counts.taken })) }
{
    text.put_named(b"sent", counts.sent);
    text.put_named(b" taken", counts.taken);
    text.put_letters(b" | leader");
    put_words(text, leader);
    text.put_letters(b" | follower");
    put_words(text, follower);
}

// Both ends in their column, and the line's end. The states go side by side, no `Ends`: that would have to be lent to be changed.
pub fn put_ends_column(text: &mut Text, counts: Counts, leader: &[u16], follower: &[u16])
    ensures { Laid text.old text.new (spaces (gap text.old.at 70) ++ ends_text (record { leader = leader.now; sent = counts.sent; follower = follower.now; taken = counts.taken }) ++ (10 ∷ [])) }
{
    put_gap(text, ENDS_COLUMN);
    put_ends(text, counts, leader, follower);
    text.put(b'\n');
}

// What is played.
pub fn put_head(text: &mut Text, bytes: u32, station: u16, leader: u32, follower: u32)
    ensures { Laid text.old text.new (head_text bytes station leader follower) }
{
    text.put_named(b"a diagram of", bytes);
    text.put_named(b" bytes at station", station as u32);
    text.put_named(b": the leader's state has", leader);
    text.put_named(b" words, the follower's", follower);
    text.put(b'\n');
}

// The telegrams that were sent and never taken. The follower takes them in order, so that they are those behind the last one taken.
pub fn put_closing(text: &mut Text, counts: Counts)
    ensures { Laid text.old text.new (closing_text counts.sent counts.taken) }
{
    let sent = counts.sent;
    let taken = counts.taken;
    if sent <= taken {
        text.put_letters(b"none lost: every telegram sent was taken\n");
        return;
    }
    let first = taken + 1;
    if sent == first {
        text.put_named(b"lost: telegram", sent);
        text.put_letters(b" was sent and never taken\n");
        return;
    }
    text.put_named(b"lost: telegrams", first);
    text.put_named(b" to", sent);
    text.put_letters(b" were sent and never taken\n");
}
