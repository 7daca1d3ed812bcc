// Both ends of the bus before their first call: the net of a file, and both fresh states.
#![tactic(auto)]

ghost use Rattle.std.specs.Prelude.{◌≡◌, ◌≤◌, length};
ghost use Rattle.effbd.specs.Answers.{said, returning_zero, afterwards};
ghost use Rattle.effbd.specs.Nesting.{read_diagram};
ghost use Rattle.ends.specs.ReadyEnds.{leader_room, follower_room, net_bytes, leader_words, follower_words, net_length, NetLaidAs, NetOf, FreshOf, ReadyAs};
ghost use Rattle.translate.specs.NetRecords.{net_room};

use effbd::{Answer, Refusal, limits};

// Room for the net and the states of every file: fixed memory and how much of it is used, since there is no heap. The two states are lent each by
// itself, as callers have them.
pub const NET_BYTES: usize = 584072;

pub const LEADER_WORDS: usize = limits::MOST_PLACES as usize;

pub const FOLLOWER_WORDS: usize = limits::MOST_PLACES as usize + limits::MOST_TRANSITIONS as usize;

// How many words the states of both ends have.
#[derive(Clone, Copy)]
pub struct StateSizes {
    pub leader: u32,
    pub follower: u32,
}

// Both ends ready for their first call: the bytes of the net and the words of the states.
#[derive(Clone, Copy)]
pub struct EndSizes {
    pub net: u32,
    pub states: StateSizes,
}

// How many words an answer says; none where it refuses.
fn words_of(answer: Answer) -> u32
    ensures { result ≡ afterwards 0 (said answer) }
{
    answer.unwrap_or(0)
}

// The net of a file, written into an area that has room for every net (of an accepted file's table it is known that its net fits).
fn translate_into(file: &[u8], area: &mut [u8]) -> Answer
    requires { net_room ≤ length area.old }
    ensures result_value { said result ≡ net_length (read_diagram file.now) }
    ensures net_laid_as { NetLaidAs (read_diagram file.now) area.old area.new }
{
    diagram_file::diagram_of(file)?;
    translate::translate(file, area)
}

// The net of a file, at the start of an area that has room for every net; the file's refusals, then nothing is altered.
pub fn lay_net(file: &[u8], area: &mut [u8; NET_BYTES]) -> Answer
    ensures result_value { said result ≡ net_length (read_diagram file.now) }
    ensures net_laid_as { NetLaidAs (read_diagram file.now) area.old area.new }
{
    translate_into(file, area)
}

// The fresh states of an accepted file and of its net, at the start of the words lent for them.
fn fresh_ends(file: &[u8], net: &[u8], leader: &mut [u16], follower: &mut [u16]) -> StateSizes
    requires net_of { NetOf file.now net.now }
    requires leader_room_in_bounds { leader_room ≤ length leader.old }
    requires follower_room_in_bounds { follower_room ≤ length follower.old }
    ensures { FreshOf file.now leader.old follower.old leader.new follower.new result.leader result.follower }
{
    let leader_words = words_of(diagram_file::read(file));
    let follower_words = words_of(net_file::read(net));
    // Both have just the words that they are asked for: nothing is refused.
    let _ = diagram_step::fresh(file, &mut leader[..leader_words as usize]);
    let _ = net_fresh::fresh(net, &mut follower[..follower_words as usize]);
    StateSizes {
        leader: leader_words,
        follower: follower_words,
    }
}

// As `ready`, on lent memory that has room for every file's ends.
fn ready_in(
    file: &[u8],
    net: &mut [u8],
    leader: &mut [u16],
    follower: &mut [u16],
) -> Result<EndSizes, Refusal>
    requires net_room_in_bounds { net_room ≤ length net.old }
    requires leader_room_in_bounds { leader_room ≤ length leader.old }
    requires follower_room_in_bounds { follower_room ≤ length follower.old }
    ensures answer_value { returning_zero (said result) ≡ returning_zero (read_diagram file.now) }
    ensures ready_as { ReadyAs (read_diagram file.now) net.old leader.old follower.old net.new leader.new follower.new (net_bytes result) (leader_words result) (follower_words result) }
{
    let size = translate_into(file, net)?;
    let states = fresh_ends(file, &net[..size as usize], leader, follower);
    Ok(EndSizes { net: size, states })
}

// Makes both ends of an accepted file ready for their first call: its net and both fresh states, each at the start of what is lent for it.
// The caller then lends these parts to `calls::make_call`, call by call. The file's refusals; then nothing is altered.
pub fn ready(
    file: &[u8],
    net: &mut [u8; NET_BYTES],
    leader: &mut [u16; LEADER_WORDS],
    follower: &mut [u16; FOLLOWER_WORDS],
) -> Result<EndSizes, Refusal>
    ensures answer_value { returning_zero (said result) ≡ returning_zero (read_diagram file.now) }
    ensures ready_as { ReadyAs (read_diagram file.now) net.old leader.old follower.old net.new leader.new follower.new (net_bytes result) (leader_words result) (follower_words result) }
{
    ready_in(file, net, leader, follower)
}
