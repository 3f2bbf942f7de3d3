// The C archive of `pair_host`: each export is the call of that name there, with its contract again, since C knows it by this name.
// include/ins2651_pair.h is C's view.
#![tactic(auto)]

ghost use Rattle.std.specs.Prelude.{◌≡◌};
ghost use Rattle.joined_rules.specs.Joining;
ghost use Rattle.joined_rules.specs.Waiting;
ghost use Rattle.pair_host.specs.Replies.{levels_sent, unit_of, wait_answer};

use joined_rules::Pair;

// A joined tick; answers the levels sent: 1 where `a` sent a 1, plus 2 where `b` did.
#[unsafe(no_mangle)]
pub extern "C" fn ins2651_joined_tick(p: &mut Pair) -> u16
    ensures answer { result ≡ levels_sent (Joining.tick p.old) }
    ensures pair { p.new ≡ (Joining.tick p.old).pair }
{
    pair_host::ins2651_joined_tick(p)
}

// n joined ticks at once; answers its refusal.
#[unsafe(no_mangle)]
pub extern "C" fn ins2651_joined_run(p: &mut Pair, n: u32) -> u16
    ensures answer { result ≡ (Joining.run p.old n).refusal }
    ensures pair { p.new ≡ (Joining.run p.old n).pair }
{
    pair_host::ins2651_joined_run(p, n)
}

// Joined ticks until a unit holds an unread character, or the limit is used up; answers 65536 times its refusal plus their count. One
// that spends no tick stores nothing.
#[unsafe(no_mangle)]
pub extern "C" fn ins2651_joined_wait(p: &mut Pair, unit: u32, limit: u32) -> u32
    ensures answer { result ≡ wait_answer (Waiting.wait p.old (unit_of unit) limit) }
    ensures pair { p.new ≡ (Waiting.wait p.old (unit_of unit) limit).pair }
{
    pair_host::ins2651_joined_wait(p, unit, limit)
}
