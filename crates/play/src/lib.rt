// Lists of calls on both ends of the bus, through the real translator, steppers, leader and follower. What `play` promises is demand 3's claim.
#![tactic(auto)]

ghost use Rattle.std.specs.Prelude.{◌≡◌, true};
ghost use Rattle.effbd.specs.Records.{are_bytes};
ghost use Rattle.effbd.specs.Answers.{said, returning_zero, afterwards};
ghost use Rattle.effbd.specs.Nets.{read_net};
ghost use Rattle.effbd.specs.Firing.{fresh_net};
ghost use Rattle.calls.specs.LiveEnds.{AllCalled, SameLent};
ghost use Rattle.ends.specs.ReadyEnds.{NetOf};
ghost use Rattle.play.specs.Played.{as_long, playable, PlayedAs, sent, taken};

use calls::{Counts, Ends, Line};
use effbd::{Reason, Refusal};

// Makes the follower fresh, then the calls of a list.
fn start(line: &Line, ends: &mut Ends, calls: &mut [u8])
    ensures called { AllCalled line.now.file.now line.now.net.now line.now.station (record { leader = ends.old.leader.now; sent = ends.old.counts.sent; follower = afterwards ends.old.follower.now (fresh_net line.now.net.now ends.old.follower.now); taken = ends.old.counts.taken }) calls.old ends.new.leader.now ends.new.follower.now calls.new ends.new.counts.sent ends.new.counts.taken }
    ensures same { SameLent ends.old ends.new }
{
    // A state of the right length: nothing is refused.
    let _ = net_fresh::fresh(line.net, ends.follower);
    calls::make_calls(line, ends, calls);
}

// Whether a net's state has this many words.
fn as_long(net: &[u8], words: usize) -> bool
    ensures { result ≡ as_long (read_net net.now) words }
{
    match net_file::read(net) {
        Ok(due) => words == due as usize,
        Err(_) => false,
    }
}

// Plays a list on an accepted file and its net; refused 20 where a state's length is wrong.
fn play_net(line: &Line, ends: &mut Ends, calls: &mut [u8]) -> Result<Counts, Refusal>
    requires net_of { NetOf line.now.file.now line.now.net.now }
    requires bytes { are_bytes line.now.file.now ≡ true }
    requires none_sent { ends.old.counts.sent ≡ 0 }
    requires none_taken { ends.old.counts.taken ≡ 0 }
    ensures answer_value { returning_zero (said result) ≡ returning_zero (playable line.now.file.now ends.old.leader.now ends.old.follower.now) }
    ensures played_as { PlayedAs (playable line.now.file.now ends.old.leader.now ends.old.follower.now) line.now.file.now line.now.station calls.old ends.old.leader.now ends.old.follower.now calls.new ends.new.leader.now ends.new.follower.now (sent result) (taken result) }
    ensures same { SameLent ends.old ends.new }
{
    if !as_long(line.net, ends.follower.len()) {
        return Err(Refusal {
            reason: Reason::StateOff,
            value: 0,
        });
    }
    diagram_step::fresh(line.file, ends.leader)?;
    start(line, ends, calls);
    Ok(ends.counts)
}

// Plays a list of calls on both ends, from fresh states and counts 0: the leader on a diagram, the follower on its net.
// The file's refusals, and 20 where a state's length is wrong; then nothing is altered. The two states are lent each by itself, as callers have them.
pub fn play(
    file: &[u8],
    leader: &mut [u16],
    follower: &mut [u16],
    station: u16,
    calls: &mut [u8],
) -> Result<Counts, Refusal>
    ensures answer_value { returning_zero (said result) ≡ returning_zero (playable file.now leader.old follower.old) }
    ensures played_as { PlayedAs (playable file.now leader.old follower.old) file.now station calls.old leader.old follower.old calls.new leader.new follower.new (sent result) (taken result) }
{
    let mut area = [0u8; ends::NET_BYTES];
    let size = ends::lay_net(file, &mut area)?;
    let line = Line {
        file,
        net: &area[..size as usize],
        station,
    };
    let mut ends = Ends {
        leader,
        follower,
        counts: Counts { sent: 0, taken: 0 },
    };
    play_net(&line, &mut ends, calls)
}
