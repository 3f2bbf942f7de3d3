// A pair of joined devices lent to a C host: each call finds it, advances it in place and answers one number.
// Whatever bytes the host lends, the call is what `joined_rules` says of them; a refused run or wait leaves them as they were. For speed
// a wait that leaves the pair as it is stores nothing, and a run or a wait of a pair that stands only counts: `joined` does so.
// (`unit: u32` and the answers are numbers and no enums or Results, as include/ins2651_pair.h has them.)
#![tactic(auto)]

ghost use Rattle.std.specs.Prelude.{◌≡◌};
ghost use Rattle.joined_rules.specs.Joining;
ghost use Rattle.joined_rules.specs.Waiting;
ghost use Rattle.pair_host.specs.Replies.{levels_sent, unit_of, wait_answer};

use joined_rules::Pair;
use line_rules::Unit;

// A joined tick; answers the levels sent: 1 where `a` sent a 1, plus 2 where `b` did.
pub fn ins2651_joined_tick(p: &mut Pair) -> u16
    ensures answer { result ≡ levels_sent (Joining.tick p.old) }
    ensures pair { p.new ≡ (Joining.tick p.old).pair }
{
    let sent = joined::tick(p);
    u16::from(sent.b) * 2 + u16::from(sent.a)
}

// n joined ticks at once; answers its refusal.
pub fn ins2651_joined_run(p: &mut Pair, n: u32) -> u16
    ensures answer { result ≡ (Joining.run p.old n).refusal }
    ensures pair { p.new ≡ (Joining.run p.old n).pair }
{
    match joined::run(p, n) {
        Ok(()) => 0,
        Err(refused) => u16::from(u8::from(refused)),
    }
}

// The unit that a number names from C.
fn unit_of(unit: u32) -> Unit
    ensures { result ≡ unit_of unit }
{
    if unit == 0 { Unit::A } else { Unit::B }
}

// Joined ticks until a unit holds an unread character, or the limit is used up; answers 65536 times its refusal plus their count. One
// that spends no tick stores nothing.
pub fn ins2651_joined_wait(p: &mut Pair, unit: u32, limit: u32) -> u32
    ensures answer { result ≡ wait_answer (Waiting.wait p.old (unit_of unit) limit) }
    ensures pair { p.new ≡ (Waiting.wait p.old (unit_of unit) limit).pair }
{
    match joined::wait(p, unit_of(unit), limit) {
        Ok(count) => u32::from(count),
        Err(refused) => u32::from(u8::from(refused)) * 65536,
    }
}
